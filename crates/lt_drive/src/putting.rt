//! What an event put out, on its way to the trace, and what ends a run that can't go on.

ghost use Rattle.std.specs.Prelude.{◌≡◌, ◌+◌, ◌≤◌, ℕ, true, false};
ghost use Rattle.std.specs.declared.option.Option.{Option};
ghost use Rattle.lt_io.specs.Outside.{linked};
ghost use Rattle.lt_loop.specs.CoreState.{CoreState, IsAhead, StaysAhead, core_giving_up};
ghost use Rattle.lt_loop.specs.CoreView.{core_state, last_text};
ghost use Rattle.lt_loop.specs.Event.{WantsTell, listens};
ghost use Rattle.lt_loop.specs.Machine.{GivenUp, most_steps};
ghost use Rattle.lt_loop.specs.Play.{steps_of};
ghost use Rattle.lt_loop.specs.Run.{Answers};
ghost use Rattle.lt_drive.specs.Drive.{continuation_of, failed_step, is_told};
ghost use Rattle.lt_drive.specs.Served.{IsServed, Standing, outside};
ghost use Rattle.lt_drive.specs.inner.Steps.{IfGoes, IsPutOut, Proceeds, progress_of};

use crate::drive_end::DriveEnd;
use crate::progress::Progress;
use crate::served::Served;
use crate::serving::serve_fault;
use lt_io::{Link, Sink, put_counted};
use lt_loop::{Core, Machine, PieceKind, Wants};
use lt_rif::{Who, step_at_hand};

// Goes on with what came of an event: what is for the trace is written, and the fault of a side that couldn't be sent to is
// told.
pub(crate) fn put_out<M: Machine, C: Link, O: Link, S: Sink>(
    served: Served,
    core: &mut Core<M>,
    controller: &mut C,
    oracle: &mut O,
    trace: &mut S,
) -> Progress
    requires { (w : Who) → served ≡ Served.Broken w → listens (core_state core.old) w ≡ true }
    ensures proceeds { (old : Standing (CoreState M.State)) (w : Wants) → WantsTell old.core w →
        IsServed Answers old
        (record { core = core_state core.old; links = record { controller = C.state controller.old; oracle = O.state oracle.old } })
        (last_text core.old) w served →
        (u : Option GivenUp) → IsAhead (core_state core.new) u →
        Proceeds (continuation_of (core_giving_up u old.core)) (outside old (S.state trace.old))
        (linked (C.state controller.new) (O.state oracle.new) (S.state trace.new))
        (core_giving_up u (core_state core.new)) result }
    ensures ahead { StaysAhead (core_state core.old) (core_state core.new) }
    ensures goes { IfGoes result (core.new ≡ core.old) }
    ensures no_controller { is_told (core_state core.old).plan.controller ≡ false →
        controller.new ≡ controller.old }
    ensures no_oracle { (core_state core.old).plan.has_oracle ≡ false → oracle.new ≡ oracle.old }
{
    match served {
        Served::Goes { wants, traced } => put_traced(wants, traced, core, trace),
        Served::Broken(who) => match serve_fault(who, core, controller, oracle) {
            Served::Goes { wants, traced } => put_traced(wants, traced, core, trace),
            Served::Broken(_) => unreachable!(),
        },
    }
}

// Writes the last piece, where it is for the trace. A run that has ended is over then.
fn put_traced<M: Machine, S: Sink>(
    wants: Wants,
    traced: Option<PieceKind>,
    core: &Core<M>,
    trace: &mut S,
) -> Progress
    ensures { IsPutOut (core_state core.now).written wants (last_text core.now)
        (S.state trace.old) (S.state trace.new) traced result }
{
    let Some(kind) = traced else {
        return progress_of(wants);
    };
    match put_counted(trace, core.text()) {
        Ok(()) => progress_of(wants),
        Err(_) => Progress::Over(DriveEnd::TraceWriteFailed {
            step: failed_step(kind, core.steps()),
        }),
    }
}

// How far it is where this is wanted.
fn progress_of(wants: Wants) -> Progress
    ensures { result ≡ progress_of wants }
{
    match wants {
        Wants::Nothing(end) => Progress::Over(DriveEnd::Ended(end)),
        _ => Progress::Goes(wants),
    }
}

// The number of the step at hand where a piece of the trace could not be written, and these steps were put out, that of
// the piece among them.
fn failed_step(kind: PieceKind, steps: u64) -> u64
    requires { steps ≤ most_steps }
    ensures { (n : ℕ) → steps ≡ n + steps_of kind → result ≡ failed_step kind n }
{
    match kind {
        PieceKind::Header => 0,
        PieceKind::Step => steps,
        PieceKind::Outputs | PieceKind::Question | PieceKind::EndLine => step_at_hand(steps),
    }
}
