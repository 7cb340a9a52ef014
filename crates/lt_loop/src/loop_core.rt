//! The core.

ghost use Rattle.std.specs.Prelude.{◌≡◌, ◌≢◌, ◌<◌, ◌≤◌, ◌+◌, ◌*◌, true, false, None, Some, ℕ, length, map, string_bytes, vec_capacity, IfOk, IsTrue};
ghost use Rattle.lt_rif.specs.Trace.{end_number};
ghost use Rattle.lt_loop.specs.Codes.{same_slots-prop};
ghost use Rattle.std.specs.declared.option.Option.{Option};
ghost use Rattle.lt_loop.specs.Machine.{GivenUp, giving_up, most_steps};
ghost use Rattle.lt_loop.specs.Plan.{reply_slots};
ghost use Rattle.lt_loop.specs.Play.{ended, holds, play_of};
ghost use Rattle.lt_loop.specs.Scene.{fit, input_slots, verdict_slots};
ghost use Rattle.lt_loop.specs.Side.{side_state, Rest};
ghost use Rattle.lt_loop.specs.Stands.{has_side, is_served, HasMade, HasMade-prop, Opens, Opens-prop, Stands, Stands-prop};
ghost use Rattle.lt_loop.specs.WriterView.{writing};
ghost use Rattle.lt_loop.specs.inner.Writing.{header_in, writing_of, same_writing-prop};

use crate::event::{Emits, Event, PieceKind, Wants};
use crate::machine::{Machine, Outcome};
use crate::phase::Phase;
use crate::setup::{Setup, Talk};
use crate::side::{Read, Side};
use crate::slots::{first_inputs, reply_slots};
use crate::writer::Writer;
use lt_num::Value;
use lt_rif::{End, Who};
use std::alloc::{AllocError, Global};

/// The core of a run: it is told events, and puts out pieces.
pub struct Core<M: Machine> {
    machine: M,
    setup: Setup,
    left: u64,
    written: u64,
    phase: Phase,
    inputs: Vec<Value>,
    controller: Side,
    oracle: Side,
    writer: Writer,
    ghost few: { written ≤ 1_000_000 },
    ghost served: { IsTrue (is_served setup.controller (M.scene machine)) },
    ghost fits: { IsTrue (fit (input_slots (M.scene machine)) inputs.items) },
    ghost inputs_have_room: { length (side_state controller).reading.slots ≤ vec_capacity inputs },
    ghost has_side: { IsTrue (has_side phase setup.controller setup.oracle) },
    ghost made: { HasMade phase written M.rules (M.state machine) } by { HasMade-prop phase written M.rules (M.state machine) },
    ghost writes: { writing writer ≡ writing_of (M.scene machine) setup.locals } by { same_writing-prop (writing writer) (writing_of (M.scene machine) setup.locals) },
    ghost opens: { Opens phase (header_in (M.scene machine) setup.seed setup.draw setup.locals)
        writer.text.items } by { Opens-prop phase (header_in (M.scene machine) setup.seed setup.draw setup.locals) writer.text.items },
    ghost asks: { (side_state controller).reading.slots ≡
        reply_slots setup.controller (M.scene machine) } by { same_slots-prop (side_state controller).reading.slots
            (reply_slots setup.controller (M.scene machine)) },
    ghost judges: { (side_state oracle).reading.slots ≡ verdict_slots } by { same_slots-prop (side_state oracle).reading.slots verdict_slots },
    ghost asks_in: { (side_state controller).reading.begun.decimals ≡ (M.scene machine).decimals },
    ghost judges_in: { (side_state oracle).reading.begun.decimals ≡ (M.scene machine).decimals },
    ghost stands: { Stands phase written left (side_state controller).reading
        (side_state oracle).reading } by { Stands-prop phase written left (side_state controller).reading (side_state oracle).reading },
}

// What a core owns is dropped by this one function, wherever a core is.
impl<M: Machine> Drop for Core<M> {
    fn drop(self) {
        let Self {
            machine: _,
            setup: _,
            left: _,
            written: _,
            phase: _,
            inputs: _,
            controller: _,
            oracle: _,
            writer: _,
        } = self;
    }
}

impl<M: Machine> Core<M> {
    ghost use Rattle.lt_loop.specs.CoreView.{last_text, plan_of, core_state, stream_of};
    ghost use Rattle.lt_loop.specs.Event.{bytes, cuts, ended_side, failed, fed, goes_on, told, listens, play_due, steps_in, taken_of, IsWanted, Waits, WantsTell};
    ghost use Rattle.lt_loop.specs.Progress.{MovesOn};
    ghost use Rattle.lt_loop.specs.Kept.{adding_none, controller_reads, nothing, one, oracle_reads, reads_reply, Holds, HoldsController, HoldsOracle};
    ghost use Rattle.lt_loop.specs.Side.{IsEmpty};
    ghost use Rattle.lt_loop.specs.Work.{most_work, work_in, work_left};
    ghost use Rattle.lt_loop.specs.CoreState.{core_giving_up, given_up, play_once_answered, from_here, play_once_judged, resume, resume_in, play_once_made, Puts, PutsOut, StaysAhead};

    /// The core of a run of which nothing was put out. All that it needs is reserved here.
    ///
    /// The machine hasn't stepped. Where there is no controller its scenario has no inputs. At most
    /// 1,000,000 steps are allowed. The header tells the setup's seed and rule of drawing, whatever the
    /// machine draws by.
    ///
    /// # Errors
    ///
    /// Memory ran out, or variables or the bytes of names are 2^32 or more, for which there is no room. The machine
    /// is dropped.
    pub fn make(alloc: Global, machine: M, setup: Setup) -> Result<Core<M>, AllocError>
        requires limit { setup.limit ≤ most_steps }
        requires fresh { (M.rules).made (M.state machine) ≡ Some 0 }
        requires served { is_served setup.controller (M.scene machine) ≡ true }
        ensures fresh { IfOk result (λ core. WantsTell (core_state core) Wants.Turn) }
        ensures steps { IfOk result (λ core. (core_state core).written ≡ 0) }
        ensures plan { IfOk result (λ core. (core_state core).plan ≡
            plan_of (M.scene machine) setup) }
        ensures work { IfOk result (λ core. work_left (core_state core) ≡
            setup.limit * most_work + 2) }
        ensures play { IfOk result (λ core. (u : Option GivenUp) (c o : Rest) →
            resume (core_giving_up u (core_state core)) c o ≡
            play_of (giving_up u M.rules) (plan_of (M.scene machine) setup) setup.limit
            (M.state machine) (stream_of c) (stream_of o)) }
    {
        let slots = reply_slots(alloc, setup.controller, &machine)?;
        let inputs = first_inputs(alloc, slots.len(), machine.input_vars())?;
        let controller = Side::make(alloc, slots, machine.decimals())?;
        let oracle = Side::of_oracle(alloc, machine.decimals())?;
        let writer = Writer::make(alloc, &machine, setup.seed, setup.draw, setup.locals)?;
        Ok(Core {
            machine,
            setup,
            left: setup.limit,
            written: 0,
            phase: Phase::Fresh,
            inputs,
            controller,
            oracle,
            writer,
        })
    }

    /// The bytes of the piece that was put out last.
    pub fn text(&self) -> &[u8]
        ensures { result.now ≡ last_text self.now }
    {
        &self.writer.text
    }

    /// How many steps were put out to the trace.
    pub fn steps(&self) -> u64
        ensures { result ≡ (core_state self.now).written }
    {
        self.written
    }

    /// The names of the scenario's exceptions.
    pub fn names(&self) -> &[String]
        ensures { map string_bytes result.now ≡ (core_state self.now).plan.scene.exceptions }
    {
        self.machine.names()
    }

    /// Takes an event, and goes on until one piece is put out, or a byte is needed that is not there, or the run
    /// has ended.
    pub fn event(&mut self, event: Event<'_>) -> Emits
        ensures taken { result.taken ≡ taken_of (core_state self.old) (told event.entry) }
        ensures out { Puts (play_due (told event.entry) result.taken) (core_state self.old)
            result.piece (last_text self.new) (core_state self.new) }
        ensures ahead { StaysAhead (core_state self.old) (core_state self.new) }
        ensures wants { WantsTell (core_state self.new) result.wants }
        ensures goes { result.piece ≡ None → result.wants ≢ Wants.Turn }
        ensures counts { (core_state self.new).written ≡
            (core_state self.old).written + steps_in result.piece }
        ensures plan { (core_state self.new).plan ≡ (core_state self.old).plan }
        ensures controller { HoldsController (told event.entry) result.taken (core_state self.old)
            result.piece (core_state self.new) }
        ensures oracle { HoldsOracle (told event.entry) result.taken (core_state self.old)
            result.piece (core_state self.new) }
        ensures falls { IsWanted (core_state self.old) (told event.entry) →
            work_left (core_state self.new) < work_left (core_state self.old) }
        ensures rises_not { work_left (core_state self.new) ≤ work_left (core_state self.old) }
        ensures progress { IsWanted (core_state self.old) (told event.entry) →
            MovesOn (core_state self.old) (core_state self.new) (told event.entry) result.taken
            result.piece }
    {
        let (taken, piece) = self.go(event);
        Emits {
            taken,
            piece,
            wants: self.wants(),
        }
    }

    // Takes an event, and goes on. How many bytes were taken, and where the text goes that is put out.
    fn go(&mut self, event: Event<'_>) -> (usize, Option<PieceKind>)
        ensures taken { result.0 ≡ taken_of (core_state self.old) (told event.entry) }
        ensures out { Puts (play_due (told event.entry) result.0) (core_state self.old) result.1
            self.new.writer.text.items (core_state self.new) }
        ensures ahead { StaysAhead (core_state self.old) (core_state self.new) }
        ensures waits { result.1 ≡ None → Waits self.new.phase (core_state self.new) }
        ensures counts { self.new.written ≡ self.old.written + steps_in result.1 }
        ensures plan { (core_state self.new).plan ≡ (core_state self.old).plan }
        ensures controller { HoldsController (told event.entry) result.0 (core_state self.old)
            result.1 (core_state self.new) }
        ensures oracle { HoldsOracle (told event.entry) result.0 (core_state self.old) result.1
            (core_state self.new) }
        ensures falls { IsWanted (core_state self.old) (told event.entry) →
            work_left (core_state self.new) < work_left (core_state self.old) }
        ensures rises_not { work_left (core_state self.new) ≤ work_left (core_state self.old) }
    {
        match event {
            Event::Turn => (0, self.advance()),
            Event::ControllerBytes(piece) => {
                let taken = self.keep(Who::Controller, piece);
                (taken, self.advance())
            }
            Event::OracleBytes(piece) => {
                let taken = self.keep(Who::Oracle, piece);
                (taken, self.advance())
            }
            Event::ControllerEnd => {
                self.controller.is_closed = true;
                (0, self.advance())
            }
            Event::OracleEnd => {
                self.oracle.is_closed = true;
                (0, self.advance())
            }
            Event::ControllerFault => (0, self.fail(Who::Controller)),
            Event::OracleFault => (0, self.fail(Who::Oracle)),
        }
    }

    /// Keeps the bytes of a piece for which there is room, if the run has that side and goes on; else it
    /// takes none. The core doesn't go on.
    pub fn keep(&mut self, side: Who, piece: &[u8]) -> usize
        ensures taken { result ≡ taken_of (core_state self.old) (bytes side piece.now) }
        ensures same { (u : Option GivenUp) (c o : Rest) →
            play_due (bytes side piece.now) result (core_giving_up u (core_state self.old)) c o ≡
            resume (core_giving_up u (core_state self.new)) c o }
        ensures ahead { StaysAhead (core_state self.old) (core_state self.new) }
        ensures phase { self.new.phase ≡ self.old.phase }
        ensures left { self.new.left ≡ self.old.left }
        ensures written { self.new.written ≡ self.old.written }
        ensures plan { (core_state self.new).plan ≡ (core_state self.old).plan }
        ensures controller { Holds nothing (side_state self.old.controller)
            (fed Who.Controller (bytes side piece.now) result) (side_state self.new.controller) }
        ensures oracle { Holds nothing (side_state self.old.oracle)
            (fed Who.Oracle (bytes side piece.now) result) (side_state self.new.oracle) }
        ensures has { IsWanted (core_state self.old) (bytes side piece.now) →
            Waits self.new.phase (core_state self.new) → ⊥ }
    {
        if !self.listens(side) {
            return 0;
        }
        match side {
            Who::Controller => self.controller.keep(piece),
            Who::Oracle => self.oracle.keep(piece),
        }
    }

    /// The end of a side has come. The core doesn't go on, and one that has ended stays so.
    pub fn close(&mut self, side: Who)
        ensures same { (u : Option GivenUp) (c o : Rest) →
            play_due (ended_side side) 0 (core_giving_up u (core_state self.old)) c o ≡
            resume (core_giving_up u (core_state self.new)) c o }
        ensures ahead { StaysAhead (core_state self.old) (core_state self.new) }
        ensures phase { self.new.phase ≡ self.old.phase }
        ensures left { self.new.left ≡ self.old.left }
        ensures written { self.new.written ≡ self.old.written }
        ensures plan { (core_state self.new).plan ≡ (core_state self.old).plan }
    {
        match side {
            Who::Controller => self.controller.is_closed = true,
            Who::Oracle => self.oracle.is_closed = true,
        }
    }

    // Ends the run for a fault of a side, if it has that side and goes on.
    fn fail(&mut self, side: Who) -> Option<PieceKind>
        ensures out { Puts (play_due (failed side) 0) (core_state self.old) result
            self.new.writer.text.items (core_state self.new) }
        ensures ahead { StaysAhead (core_state self.old) (core_state self.new) }
        ensures waits { result ≡ None → Waits self.new.phase (core_state self.new) }
        ensures counts { self.new.written ≡ self.old.written + steps_in result }
        ensures plan { (core_state self.new).plan ≡ (core_state self.old).plan }
        ensures controller { HoldsController (failed side) 0 (core_state self.old) result
            (core_state self.new) }
        ensures oracle { HoldsOracle (failed side) 0 (core_state self.old) result
            (core_state self.new) }
        ensures falls { listens (core_state self.old) side ≡ true →
            work_left (core_state self.new) < work_left (core_state self.old) }
        ensures rises_not { work_left (core_state self.new) ≤ work_left (core_state self.old) }
    {
        if !self.listens(side) {
            return self.advance();
        }
        self.end(End::Device(side))
    }

    // Whether the run has this side and goes on.
    fn listens(&self, side: Who) -> bool
        ensures { result ≡ listens (core_state self.now) side }
    {
        let goes_on = !matches!(self.phase, Phase::Over(_));
        let has_side = match side {
            Who::Controller => !matches!(self.setup.controller, Talk::Nobody),
            Who::Oracle => self.setup.oracle,
        };
        goes_on && has_side
    }

    /// What is waited for.
    pub fn wants(&self) -> Wants
        ensures tells { WantsTell (core_state self.now) result }
    {
        match self.phase {
            Phase::Fresh | Phase::Ready | Phase::Made | Phase::Answered => Wants::Turn,
            Phase::Controller => {
                if self.controller.is_empty() {
                    Wants::Controller
                } else {
                    Wants::Turn
                }
            }
            Phase::Oracle => {
                if self.oracle.is_empty() {
                    Wants::Oracle
                } else {
                    Wants::Turn
                }
            }
            Phase::Over(end) => Wants::Nothing(end),
        }
    }

    // Goes on until one piece is put out, or a byte is needed that is not there, or the run has ended.
    fn advance(&mut self) -> Option<PieceKind>
        ensures out { Puts resume (core_state self.old) result self.new.writer.text.items
            (core_state self.new) }
        ensures ahead { StaysAhead (core_state self.old) (core_state self.new) }
        ensures waits { result ≡ None → Waits self.new.phase (core_state self.new) }
        ensures counts { self.new.written ≡ self.old.written + steps_in result }
        ensures plan { (core_state self.new).plan ≡ (core_state self.old).plan }
        ensures controller { goes_on self.new.phase ≡ true →
            Holds (controller_reads self.old.phase self.old.setup.controller result)
            (side_state self.old.controller) adding_none (side_state self.new.controller) }
        ensures oracle { goes_on self.new.phase ≡ true →
            Holds (oracle_reads self.old.phase result) (side_state self.old.oracle) adding_none
            (side_state self.new.oracle) }
        ensures falls { (Waits self.old.phase (core_state self.old) → ⊥) →
            work_left (core_state self.new) < work_left (core_state self.old) }
        ensures rises_not { work_left (core_state self.new) ≤ work_left (core_state self.old) }
    {
        match self.phase {
            Phase::Fresh => {
                // The writer was made with the header.
                self.phase = Phase::Ready;
                Some(PieceKind::Header)
            }
            Phase::Ready => self.make_instant(),
            Phase::Made => self.ask_controller(),
            Phase::Controller => self.read_controller(),
            Phase::Answered => self.ask_oracle(),
            Phase::Oracle => self.read_oracle(),
            Phase::Over(_) => None,
        }
    }

    // Makes the next instant.
    fn make_instant(&mut self) -> Option<PieceKind>
        requires { self.old.phase ≡ Phase.Ready }
        ensures out { Puts from_here (core_state self.old) result self.new.writer.text.items
            (core_state self.new) }
        ensures ahead { StaysAhead (core_state self.old) (core_state self.new) }
        ensures waits { result ≡ None → Waits self.new.phase (core_state self.new) }
        ensures counts { self.new.written ≡ self.old.written + steps_in result }
        ensures plan { (core_state self.new).plan ≡ (core_state self.old).plan }
        ensures controller { goes_on self.new.phase ≡ true →
            Holds (controller_reads Phase.Ready self.old.setup.controller result)
            (side_state self.old.controller) adding_none (side_state self.new.controller) }
        ensures oracle { side_state self.new.oracle ≡ side_state self.old.oracle }
        ensures falls { work_left (core_state self.new) <
            work_in Phase.Ready self.old.left (side_state self.old.controller).reading
            (side_state self.old.oracle).reading }
    {
        if self.left == 0 {
            return self.end(End::Limit);
        }
        match self.machine.step(&self.inputs) {
            Outcome::Values => {
                self.left -= 1;
                if asks_nobody(&self.setup) {
                    self.inputs.clear();
                    self.written += 1;
                    return self.put_step(true);
                }
                self.phase = Phase::Made;
                self.ask_controller()
            }
            Outcome::Over(end) => {
                let cause = end.end();
                // The machine makes no further instant.
                self.phase = Phase::Over(cause);
                self.end(cause)
            }
        }
    }

    // Tells the controller, if there is one, the outputs of the instant at hand.
    fn ask_controller(&mut self) -> Option<PieceKind>
        requires { self.old.phase ≡ Phase.Made }
        ensures out { Puts play_once_made (core_state self.old) result self.new.writer.text.items
            (core_state self.new) }
        ensures ahead { StaysAhead (core_state self.old) (core_state self.new) }
        ensures waits { result ≡ None → Waits self.new.phase (core_state self.new) }
        ensures counts { self.new.written ≡ self.old.written + steps_in result }
        ensures plan { (core_state self.new).plan ≡ (core_state self.old).plan }
        ensures controller { goes_on self.new.phase ≡ true →
            Holds (controller_reads Phase.Made self.old.setup.controller result)
            (side_state self.old.controller) adding_none (side_state self.new.controller) }
        ensures oracle { side_state self.new.oracle ≡ side_state self.old.oracle }
        ensures falls { work_left (core_state self.new) <
            work_in Phase.Made self.old.left (side_state self.old.controller).reading
            (side_state self.old.oracle).reading }
    {
        match self.setup.controller {
            Talk::Nobody => {
                self.inputs.clear();
                self.phase = Phase::Answered;
                self.ask_oracle()
            }
            Talk::Live => {
                self.writer.make_line(self.machine.outputs());
                self.phase = Phase::Controller;
                Some(PieceKind::Outputs)
            }
            Talk::Replay => {
                self.phase = Phase::Controller;
                self.read_controller()
            }
        }
    }

    // Reads the controller's reply.
    fn read_controller(&mut self) -> Option<PieceKind>
        requires { self.old.phase ≡ Phase.Controller }
        ensures out { Puts (resume_in Phase.Controller) (core_state self.old) result
            self.new.writer.text.items (core_state self.new) }
        ensures ahead { StaysAhead (core_state self.old) (core_state self.new) }
        ensures waits { result ≡ None → Waits self.new.phase (core_state self.new) }
        ensures counts { self.new.written ≡ self.old.written + steps_in result }
        ensures plan { (core_state self.new).plan ≡ (core_state self.old).plan }
        ensures controller { goes_on self.new.phase ≡ true →
            Holds (reads_reply result) (side_state self.old.controller) adding_none
            (side_state self.new.controller) }
        ensures oracle { side_state self.new.oracle ≡ side_state self.old.oracle }
        ensures falls { (IsEmpty (side_state self.old.controller) → ⊥) →
            work_left (core_state self.new) <
            work_in Phase.Controller self.old.left (side_state self.old.controller).reading
            (side_state self.old.oracle).reading }
        ensures rises_not { work_left (core_state self.new) ≤
            work_in Phase.Controller self.old.left (side_state self.old.controller).reading
            (side_state self.old.oracle).reading }
    {
        match self.controller.read() {
            Read::Whole => {
                self.inputs.clear();
                self.inputs
                    .extend_from_slice(self.controller.values())
                    .unwrap();
                self.phase = Phase::Answered;
                self.ask_oracle()
            }
            Read::Needs => None,
            Read::Short(taken) => self.end(End::Ended {
                who: Who::Controller,
                taken,
            }),
            Read::Malformed(fault, place) => self.end(End::Malformed {
                who: Who::Controller,
                fault,
                place,
            }),
        }
    }

    // Tells the oracle the step at hand, or puts the step out where there is none.
    fn ask_oracle(&mut self) -> Option<PieceKind>
        requires { self.old.phase ≡ Phase.Answered }
        ensures out { Puts (λ s. play_once_answered s s.inputs) (core_state self.old) result
            self.new.writer.text.items (core_state self.new) }
        ensures ahead { StaysAhead (core_state self.old) (core_state self.new) }
        ensures waits { result ≡ None → Waits self.new.phase (core_state self.new) }
        ensures puts { reads_reply result ≡ one }
        ensures counts { self.new.written ≡ self.old.written + steps_in result }
        ensures plan { (core_state self.new).plan ≡ (core_state self.old).plan }
        ensures controller { side_state self.new.controller ≡ side_state self.old.controller }
        ensures oracle { side_state self.new.oracle ≡ side_state self.old.oracle }
        ensures falls { work_left (core_state self.new) <
            work_in Phase.Answered self.old.left (side_state self.old.controller).reading
            (side_state self.old.oracle).reading }
    {
        if !self.setup.oracle {
            self.written += 1;
            self.phase = Phase::Ready;
            return self.put_step(true);
        }
        self.writer
            .make_step_line(self.machine.outputs(), &self.inputs);
        self.phase = Phase::Oracle;
        Some(PieceKind::Question)
    }

    // Reads the oracle's reply.
    fn read_oracle(&mut self) -> Option<PieceKind>
        requires { self.old.phase ≡ Phase.Oracle }
        ensures out { Puts (resume_in Phase.Oracle) (core_state self.old) result
            self.new.writer.text.items (core_state self.new) }
        ensures ahead { StaysAhead (core_state self.old) (core_state self.new) }
        ensures waits { result ≡ None → Waits self.new.phase (core_state self.new) }
        ensures counts { self.new.written ≡ self.old.written + steps_in result }
        ensures plan { (core_state self.new).plan ≡ (core_state self.old).plan }
        ensures controller { side_state self.new.controller ≡ side_state self.old.controller }
        ensures oracle { goes_on self.new.phase ≡ true →
            Holds (reads_reply result) (side_state self.old.oracle) adding_none
            (side_state self.new.oracle) }
        ensures falls { (IsEmpty (side_state self.old.oracle) → ⊥) →
            work_left (core_state self.new) <
            work_in Phase.Oracle self.old.left (side_state self.old.controller).reading
            (side_state self.old.oracle).reading }
        ensures rises_not { work_left (core_state self.new) ≤
            work_in Phase.Oracle self.old.left (side_state self.old.controller).reading
            (side_state self.old.oracle).reading }
    {
        match self.oracle.read() {
            Read::Whole => {
                self.written += 1;
                self.phase = Phase::Ready;
                let verdict = holds(self.oracle.values());
                self.put_step(verdict)
            }
            Read::Needs => None,
            Read::Short(taken) => self.end(End::Ended {
                who: Who::Oracle,
                taken,
            }),
            Read::Malformed(fault, place) => self.end(End::Malformed {
                who: Who::Oracle,
                fault,
                place,
            }),
        }
    }

    // Puts out the step that was counted last, and the end where its verdict is false.
    fn put_step(&mut self, verdict: bool) -> Option<PieceKind>
        requires { self.old.phase ≡ Phase.Ready }
        ensures out { Puts (λ s. play_once_judged s verdict) (core_state self.old) result
            self.new.writer.text.items (core_state self.new) }
        ensures ahead { StaysAhead (core_state self.old) (core_state self.new) }
        ensures waits { result ≡ None → Waits self.new.phase (core_state self.new) }
        ensures puts { result ≡ Some PieceKind.Step }
        ensures counts { self.new.written ≡ self.old.written }
        ensures plan { (core_state self.new).plan ≡ (core_state self.old).plan }
        ensures controller { side_state self.new.controller ≡ side_state self.old.controller }
        ensures oracle { side_state self.new.oracle ≡ side_state self.old.oracle }
        ensures rises_not { work_left (core_state self.new) ≤
            work_in Phase.Ready self.old.left (side_state self.old.controller).reading
            (side_state self.old.oracle).reading }
    {
        if verdict {
            self.writer.make_step(
                self.written,
                self.machine.outputs(),
                &self.inputs,
                self.machine.locals(),
            );
            return Some(PieceKind::Step);
        }
        self.writer.make_last_step(
            self.written,
            self.machine.outputs(),
            &self.inputs,
            self.machine.locals(),
            End::Oracle,
            self.machine.names(),
        );
        self.phase = Phase::Over(End::Oracle);
        Some(PieceKind::Step)
    }

    // Ends the run, with its end line.
    fn end(&mut self, end: End) -> Option<PieceKind>
        ensures out { (u : Option GivenUp) → PutsOut (λ c o.
            ended (core_state self.old).plan end (end_number end self.old.written)) result
            self.new.writer.text.items (core_giving_up u (core_state self.new)) }
        ensures waits { result ≡ None → Waits self.new.phase (core_state self.new) }
        ensures puts { result ≡ Some PieceKind.EndLine }
        ensures counts { self.new.written ≡ self.old.written }
        ensures plan { (core_state self.new).plan ≡ (core_state self.old).plan }
        ensures over { self.new.phase ≡ Phase.Over end }
        ensures controller { side_state self.new.controller ≡ side_state self.old.controller }
        ensures oracle { side_state self.new.oracle ≡ side_state self.old.oracle }
        ensures falls { work_left (core_state self.new) ≡ 0 }
    {
        self.end_after(end, self.written)
    }

    /// Ends the run as one of which so many steps were put out, with its end line. It is for a caller
    /// that puts steps out later than the core does, or not at all: a core that has ended puts out
    /// another end line, and then has ended so.
    pub fn end_after(&mut self, end: End, steps: u64) -> Option<PieceKind>
        requires { steps ≤ most_steps }
        ensures out { (u : Option GivenUp) → PutsOut (λ c o.
            ended (core_state self.old).plan end (end_number end steps)) result
            self.new.writer.text.items (core_giving_up u (core_state self.new)) }
        ensures waits { result ≡ None → Waits self.new.phase (core_state self.new) }
        ensures puts { result ≡ Some PieceKind.EndLine }
        ensures counts { self.new.written ≡ self.old.written }
        ensures plan { (core_state self.new).plan ≡ (core_state self.old).plan }
        ensures over { self.new.phase ≡ Phase.Over end }
        ensures ahead { goes_on self.old.phase ≡ true →
            given_up end self.old.written ≡ None →
            StaysAhead (core_state self.old) (core_state self.new) }
        ensures controller { side_state self.new.controller ≡ side_state self.old.controller }
        ensures oracle { side_state self.new.oracle ≡ side_state self.old.oracle }
        ensures falls { work_left (core_state self.new) ≡ 0 }
    {
        let number = end.number(steps);
        self.writer.make_end(end, self.machine.names(), number);
        self.phase = Phase::Over(end);
        Some(PieceKind::EndLine)
    }
}

// Whether nobody is asked about an instant: there is neither a controller nor an oracle.
fn asks_nobody(setup: &Setup) -> bool
    ensures controller { result ≡ true → setup.now.controller ≡ Talk.Nobody }
    ensures oracle { result ≡ true → setup.now.oracle ≡ false }
{
    matches!(setup.controller, Talk::Nobody) && !setup.oracle
}

// What a verdict says.
fn holds(verdict: &[Value]) -> bool
    ensures { result ≡ holds verdict.now }
{
    !matches!(verdict, [Value::Bool(false), ..])
}
