//! The machine.

ghost use Rattle.std.specs.Prelude.{◌≡◌, ◌<◌, ◌≤◌, IsTrue, IfOk, [], length, map, string_bytes};
ghost use Rattle.lt_formula.specs.Table.{spelled};
ghost use Rattle.lt_formula.specs.Valuation.{value_under};
ghost use Rattle.lt_formula.specs.View.{table_expressions, table_kinds, table_len};
ghost use Rattle.lt_num.specs.Bounds.{most_decimals};
ghost use Rattle.lt_term.specs.Configuration.{known_in};
ghost use Rattle.lt_instant.proofs.Public.{explores-prop};
ghost use Rattle.lt_instant.specs.Equipment.{IsExplorerOf, IsPastOf, IsScratchOf};
ghost use Rattle.lt_instant.specs.RunStateView.{process_of};
ghost use Rattle.lt_step.specs.inner.Done.{is_done_to};

use lt_draw::{Draw, StepWords};
use lt_formula::Table;
use lt_instant::{
    DrawContext, Explorer, InstantScratch, Past, RunState, Taken, take_instant, value_before,
};
use lt_num::{Arith, Value};
use lt_term::{Memory, Scenario, Var, body_is_valid, turns_grow_by_one};
use std::alloc::Global;

/// What a step of a machine answers.
#[derive(Clone, Copy, PartialEq, Eq)]
pub enum Outcome {
    /// The outputs have values for this instant, and so have the locals in scope.
    Values,

    /// The scenario is over.
    Normal,

    /// The scenario raises an exception that nothing catches, by number.
    Raise(u32),

    /// No leaf of what the scenario offers is live.
    Deadlock,

    /// Constraints or weights of what is drawn have this fault.
    Fault(Arith),

    /// What the scenario offers has more than 65,536 nodes.
    TooLarge,

    /// The search at a leaf at which the draw arrives was given up. This is its need, which is over the budget.
    Budget(u128),

    /// An earlier step ended the run.
    Ended,
}

/// Makes the instants of a scenario, one after another. All its room is reserved when it is made.
#[derive(Drop)]
pub struct Machine {
    scenario: Scenario,
    words: StepWords,
    draw: Draw,
    budget: u64,
    run_state: RunState,
    room: InstantScratch,
    is_finished: bool,
    ghost explores: { IsExplorerOf scenario run_state.explorer } by { explores-prop scenario run_state.explorer },
    ghost behind: { IsPastOf scenario run_state.past },
    ghost roomy: { IsScratchOf scenario room },
    ghost counted: { IsTrue (is_done_to run_state.past.step (process_of run_state.explorer)) },
    ghost in_step: { words.step ≡ run_state.past.step },
}

impl Machine {
    ghost use Rattle.lt_term.specs.Scene.{Scene};
    ghost use Rattle.lt_term.specs.SceneView.{scene, variable};
    ghost use Rattle.lt_step.specs.Machine.{finished, most_steps, started, locals_in, outputs_in, IfRunning, IsStep};
    ghost use Rattle.lt_step.specs.View.{machine_state};

    /// A machine that has not stepped, of any scenario. The seed names the words by which it draws, and a search
    /// may be given up whose need is over the budget. The last parameter is the rule by which it draws.
    ///
    /// # Errors
    ///
    /// Want of memory, and then the scenario is dropped.
    pub fn make(
        alloc: Global,
        scenario: Scenario,
        seed: u64,
        budget: u64,
        draw: Draw,
    ) -> Result<Machine, Memory>
        ensures { IfOk result (λ m. machine_state m ≡ started (scene scenario) seed budget draw) }
    {
        body_is_valid(&scenario);
        // A law that the proof needs: a bound of turns may be taken for a greater one.
        turns_grow_by_one();
        let explorer = Explorer::make(alloc, &scenario)?;
        let past = Past::make(alloc, &scenario)?;
        let room = InstantScratch::make(alloc, &scenario)?;
        Ok(Machine {
            scenario,
            words: StepWords::new(seed, 1),
            draw,
            budget,
            run_state: RunState { explorer, past },
            room,
            is_finished: false,
        })
    }

    /// Makes the next instant. The inputs are what the controller answered in the instant before: one
    /// value for each input of the scenario, in their order. A machine makes at most 1,000,000 steps.
    /// After an end every step answers `Ended` and changes nothing.
    pub fn step(&mut self, inputs: &[Value]) -> Outcome
        requires inputs { length inputs.now ≡ length (machine_state self.old).scene.inputs }
        requires few { IfRunning (machine_state self.old).phase (λ c. c.step ≤ most_steps) }
        ensures { IsStep (machine_state self.old) inputs.now result (machine_state self.new) }
    {
        if self.is_finished {
            return Outcome::Ended;
        }
        // A law that the proof needs: so few turns are done that one more can be told.
        turns_grow_by_one();
        let taken = take_instant(
            &self.scenario,
            &mut self.run_state,
            inputs,
            &self.words,
            self.draw,
            self.budget,
            &mut self.room,
        );
        match taken {
            Taken::Go => {
                self.words.next_step();
                self.run_state.past.step += 1;
                Outcome::Values
            }
            Taken::Vanish => self.end(Outcome::Normal),
            Taken::Raise(exception) => self.end(Outcome::Raise(exception)),
            Taken::Fault(fault) => self.end(Outcome::Fault(fault)),
            Taken::Nothing => self.end(Outcome::Deadlock),
            Taken::TooLarge => self.end(Outcome::TooLarge),
            Taken::Budget(need) => self.end(Outcome::Budget(need)),
        }
    }

    /// The value of an expression of a table before the next instant, whose first inputs have these values: so arguments are
    /// worked out for a node that is run before this one goes on. The table is over the scenario's variables.
    ///
    /// # Errors
    ///
    /// The first fault that its evaluation meets.
    pub fn argument(&mut self, table: &Table, exp: u32, inputs: &[Value]) -> Result<Value, Arith>
        requires { exp < table_len table.now }
        ensures value { IfRunning (machine_state self.old).phase (λ c.
            result ≡ value_under (known_in (machine_state self.old).scene c inputs.now [])
            (table_kinds table.now) (spelled (table_expressions table.now) exp)) }
        ensures same { machine_state self.new ≡ machine_state self.old }
    {
        let context = DrawContext {
            scenario: &self.scenario,
            past: &self.run_state.past,
            inputs,
            words: &self.words,
            draw: self.draw,
            budget: self.budget,
        };
        value_before(
            &context,
            table,
            exp,
            &mut self.run_state.explorer.drawer.earlier,
        )
    }

    // Ends the run with this outcome.
    fn end(&mut self, outcome: Outcome) -> Outcome
        ensures outcome { result ≡ outcome }
        ensures state { machine_state self.new ≡
            record (machine_state self.old) { phase = finished } }
    {
        self.is_finished = true;
        outcome
    }

    /// The outputs of the last instant, in their order: none before the first one, and none after the
    /// end.
    pub fn outputs(&self) -> &[Value]
        ensures { result.now ≡ outputs_in (machine_state self.now).phase }
    {
        if self.is_finished || !self.run_state.past.has_reacted {
            return &[];
        }
        &self.run_state.past.reaction.outputs
    }

    /// The locals of the last instant, in their order, where one out of its scope has no value: none before the
    /// first instant, and none after the end.
    pub fn locals(&self) -> &[Option<Value>]
        ensures { result.now ≡ locals_in (machine_state self.now).phase }
    {
        if self.is_finished {
            return &[];
        }
        &self.run_state.past.locals
    }

    /// The inputs of the scenario.
    pub fn input_vars(&self) -> &[Var]
        ensures { map variable result.now ≡ (machine_state self.now).scene.inputs }
    {
        &self.scenario.inputs
    }

    /// The outputs of the scenario.
    pub fn output_vars(&self) -> &[Var]
        ensures { map variable result.now ≡ (machine_state self.now).scene.outputs }
    {
        &self.scenario.outputs
    }

    /// The locals of the scenario.
    pub fn local_vars(&self) -> &[Var]
        ensures { map variable result.now ≡ (machine_state self.now).scene.locals }
    {
        &self.scenario.locals
    }

    /// The names of the scenario's exceptions.
    pub fn names(&self) -> &[String]
        ensures { map string_bytes result.now ≡ (machine_state self.now).scene.exceptions }
    {
        &self.scenario.exceptions
    }

    /// The rule by which it draws: the one that it was made with.
    pub fn draw(&self) -> Draw
        ensures { result ≡ (machine_state self.now).draw }
    {
        self.draw
    }

    /// How many decimals a real number has: 0 to 6.
    pub fn decimals(&self) -> u32
        ensures is { result ≡ (machine_state self.now).scene.decimals }
        ensures few { result ≤ most_decimals }
    {
        self.scenario.decimals
    }
}
