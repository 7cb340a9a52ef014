//! What loads and searches the constraints of leaves.

ghost use Rattle.std.specs.Prelude.{◌≡◌, ◌≤◌, ◌++◌, IfOk, IsTrue, OnOk, length, map, nat_lt, vec_capacity};
ghost use Rattle.std.specs.List.{list_all};
ghost use Rattle.lt_formula.specs.View.{table_len};
ghost use Rattle.lt_linear.specs.Form.{is_raw};
ghost use Rattle.lt_space.specs.Size.{most_constraints};
ghost use Rattle.lt_space.specs.SpaceView.{loaded, space_decimals, space_formula};
ghost use Rattle.lt_term.specs.SceneView.{scene, variable};
ghost use Rattle.lt_instant.specs.Solved.{drawn_ranges, holds_of, ranges_of_all};
ghost use Rattle.lt_instant.specs.inner.DrawContextView.{meaning_of, scene_of, worth_of};
ghost use Rattle.lt_check.specs.inner.Searches.{IsSearched, lows_of};

use crate::point::holds_at;
use crate::scopes::put_scope;
use lt_instant::{DrawContext, Earlier, solutions_pass};
use lt_num::{Arith, Interval, Range};
use lt_propagation::Kleene;
use lt_solver::{Answer, Workspace, answers_say};
use lt_space::Space;
use lt_term::{Last, Memory, Scenario, Var};
use std::alloc::{AllocError, Global};

// How many constraints there is room for at first.
const FIRST_ROOM: usize = 64;

// The most constraints that there may be room for. Memory ends long before.
const MOST_ROOM: usize = 1 << 31;

/// Loads and searches the constraints of the leaves of one scenario.
#[derive(Drop)]
pub(crate) struct Searcher {
    space: Space,
    workspace: Workspace,

    // How many constraints the space has room for.
    most: usize,

    // The low ends of the ranges of all that is drawn: where each search begins.
    lows: Vec<i64>,
    scope: Vec<bool>,

    /// What variables were in the instant before.
    pub earlier: Earlier,

    /// What weights are worth.
    pub weights: Vec<u64>,

    // A point as a box, and what is known there of each gate.
    points: Vec<Interval>,
    kleenes: Vec<Kleene>,
}

impl Searcher {
    ghost use Rattle.lt_check.specs.inner.SearcherView.{IsSearcherOf, searcher_space};
    ghost use Rattle.lt_formula.specs.Solution.{IsSatisfiable};
    ghost use Rattle.lt_instant.specs.Solved.{need_of, ranges_at};

    /// One for a scenario.
    pub fn make(alloc: Global, scenario: &Scenario) -> Result<Searcher, Memory>
        ensures { IfOk result (IsSearcherOf scenario.now) }
    {
        Searcher::with_room(alloc, scenario, FIRST_ROOM)
    }

    // One with room for so many constraints.
    fn with_room(alloc: Global, scenario: &Scenario, most: usize) -> Result<Searcher, Memory>
        requires { most ≤ most_constraints }
        ensures is { IfOk result (IsSearcherOf scenario.now) }
        ensures most { IfOk result (λ searcher. searcher.most ≡ most) }
    {
        let ranges = drawn_ranges(alloc, scenario)?;
        let Ok(space) = Space::make(alloc, &scenario.table, most) else {
            return Err(Memory);
        };
        let gates = space.gates();
        let Ok(workspace) = Workspace::make(alloc, &ranges, gates) else {
            return Err(Memory);
        };
        Ok(Searcher {
            space,
            workspace,
            most,
            lows: lows_of(alloc, &ranges)?,
            scope: Vec::with_capacity(alloc, ranges.len())?,
            earlier: Earlier::make(alloc, scenario)?,
            weights: Vec::new(alloc),
            points: Vec::with_capacity(alloc, ranges.len())?,
            kleenes: Vec::with_capacity(alloc, gates)?,
        })
    }

    /// Loads the constraints of a leaf, where these locals are in scope; the answer inside is the first fault that they meet.
    pub fn load(
        &mut self,
        alloc: Global,
        context: &DrawContext<'_>,
        constraints: &[u32],
        lasts: &[(u32, Last)],
    ) -> Result<Result<(), Arith>, Memory>
        requires searcher { IsSearcherOf context.now.scenario.now self.old }
        requires within { IsTrue (list_all (λ c.
            nat_lt c (table_len context.now.scenario.now.table)) constraints.now) }
        ensures loads { IfOk result (λ answer.
            loaded (space_formula (searcher_space self.new)) answer ≡
            (worth_of context.now).formula lasts.now
            (map (meaning_of context.now.scenario.now.table) constraints.now)) }
        ensures decimals { IfOk result (λ answer. space_decimals (searcher_space self.new) ≡
            (scene_of context.now).decimals) }
        ensures searcher { IsSearcherOf context.now.scenario.now self.new }
    {
        self.make_room(alloc, context.scenario, constraints.len())?;
        self.earlier.find(context, lasts);
        let known = context.known(&self.earlier);
        Ok(
            self.space
                .load(&context.scenario.table, constraints, &known),
        )
    }

    // Makes room for so many constraints.
    fn make_room(&mut self, alloc: Global, scenario: &Scenario, most: usize) -> Result<(), Memory>
        requires { IsSearcherOf scenario.now self.old }
        ensures searcher { IsSearcherOf scenario.now self.new }
        ensures most { OnOk result (most ≤ self.new.most) }
    {
        if most <= self.most {
            return Ok(());
        }
        if most > MOST_ROOM {
            return Err(Memory);
        }
        *self = Searcher::with_room(alloc, scenario, most)?;
        Ok(())
    }

    /// Whether what is loaded holds of these raw numbers of all that is drawn.
    pub fn holds(&mut self, scenario: &Scenario, raws: &[i64]) -> bool
        requires searcher { IsSearcherOf scenario.now self.old }
        requires raws { IsTrue (list_all is_raw raws.now) }
        requires all { length raws.now ≡ length (drawn_ranges (scene scenario.now)) }
        requires decimals { space_decimals (searcher_space self.old) ≡ (scene scenario.now).decimals }
        ensures holds { result ≡ holds_of (scene scenario.now)
            (space_formula (searcher_space self.old)) raws.now }
        ensures searcher { IsSearcherOf scenario.now self.new }
    {
        holds_at(
            self.space.circuit(),
            self.space.root(),
            self.space.decimals(),
            raws,
            &mut self.points,
            &mut self.kleenes,
        )
    }

    /// Whether what is loaded can hold, where these locals are in scope.
    ///
    /// # Errors
    ///
    /// The need of a search that was given up.
    pub fn search(
        &mut self,
        scenario: &Scenario,
        lasts: &[(u32, Last)],
        budget: u64,
    ) -> Result<bool, u128>
        requires searcher { IsSearcherOf scenario.now self.old }
        requires decimals { space_decimals (searcher_space self.old) ≡ (scene scenario.now).decimals }
        ensures finds { IsSearched (scene scenario.now) budget lasts.now
            (space_formula (searcher_space self.old)) result }
        ensures searcher { IsSearcherOf scenario.now self.new }
    {
        // Laws that the proof needs: what an answer says of points, and what a drawn solution does.
        answers_say();
        solutions_pass();
        put_scope(
            &mut self.scope,
            scenario.outputs.len(),
            &scenario.locals,
            lasts,
        );
        let answer = self
            .workspace
            .first_from(&self.space, &self.scope, &self.lows, &[], budget);
        match answer {
            Answer::Solution => Ok(true),
            Answer::Unsat => Ok(false),
            Answer::Budget(need) => Err(need),
        }
    }
}

// The ranges of all that is drawn: of the outputs, and then of the locals.
fn drawn_ranges(alloc: Global, scenario: &Scenario) -> Result<Vec<Range>, AllocError>
    ensures { IfOk result (λ ranges. ranges.items ≡ drawn_ranges (scene scenario.now)) }
{
    let mut ranges = Vec::new(alloc);
    push_ranges(&mut ranges, &scenario.outputs)?;
    push_ranges(&mut ranges, &scenario.locals)?;
    Ok(ranges)
}

// Adds the ranges of variables.
fn push_ranges(ranges: &mut Vec<Range>, variables: &[Var]) -> Result<(), AllocError>
    ensures { OnOk result (ranges.new.items ≡ ranges.old.items ++
        ranges_of_all (map variable variables.now)) }
{
    for variable in variables {
        ranges.push(variable.range)?;
    }
    Ok(())
}

// The low ends of ranges.
fn lows_of(alloc: Global, ranges: &[Range]) -> Result<Vec<i64>, AllocError>
    ensures { IfOk result (λ lows. lows.items ≡ lows_of ranges.now) }
{
    let mut lows = Vec::new(alloc);
    for range in ranges {
        lows.push(range.low)?;
    }
    Ok(lows)
}
