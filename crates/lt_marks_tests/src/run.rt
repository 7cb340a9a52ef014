//! A run through a body, kept as a term and as marks.

ghost use Rattle.std.specs.Prelude.{◌≡◌, ℕ, IfOk, OnOk, suc};
ghost use Rattle.lt_marks_tests.specs.Runs.{IsRun};
ghost use Rattle.lt_walk.specs.Room.{IsRoomFor};
ghost use Rattle.lt_term.specs.Counted.{IsCounted, IsDoneTo};
ghost use Rattle.lt_term.specs.View.{process};
ghost use Rattle.lt_marks.specs.Tallied.{IsTallied};
ghost use Rattle.lt_marks.specs.View.{body, nodes, standing};
ghost use Rattle.lt_marks.specs.Walk.{IsRoomy};

use crate::guide::Guide;
use crate::shown::shown_place;
use lt_marks::{
    Reached, Track, Walk, body_is_at_start, go_on, node_count, steps_grow_by_one, track_of,
};
use lt_num::Value;
use lt_term::{
    Scenario, Term, Tree, TreeNode, Var, advance, body_is_valid, offers, turns_grow_by_one,
};
use lt_walk::{reach, weights_for};
use std::alloc::Global;
use std::test::Fail;

/// How many steps a run may have.
pub const MOST_STEPS: u64 = 40;

/// A run through a body. What is still to be done is a term, and stands in the body's marks as well.
#[derive(Drop)]
pub struct Run {
    /// What is still to be done, as a term.
    pub term: Term,

    /// The body, with its marks.
    pub track: Track,

    walk: Walk,
    steps: u64,
}

impl Run {
    /// A run at the beginning of a scenario's body.
    pub fn make(alloc: Global, scenario: &Scenario) -> Result<Run, Fail>
        ensures { IfOk result IsRun }
    {
        body_is_at_start(scenario);
        body_is_valid(scenario);
        let track = track_of(alloc, &scenario.body)?;
        let nodes = node_count(&track);
        Ok(Run {
            term: scenario.body.clone()?,
            walk: Walk::make(alloc, nodes, weights_for(alloc, &track)?)?,
            track,
            steps: 0,
        })
    }

    /// What the term offers.
    pub fn tree(&self, alloc: Global, scenario: &Scenario) -> Result<Tree, Fail>
        requires { IsRun self.now }
    {
        turns_grow_by_one();
        Ok(offers(alloc, scenario, &self.term)?)
    }

    /// What stands at a path by the marks, and whether all of the path was gone.
    pub fn found_at(
        &mut self,
        alloc: Global,
        scenario: &Scenario,
        path: &[u32],
    ) -> Result<String, Fail>
        requires { IsRun self.old }
        ensures { IsRun self.new }
    {
        turns_grow_by_one();
        let locals = &scenario.locals;
        let mut guide = Guide::along(path, 0);
        let reached = reach(&mut self.track, locals, &mut self.walk, &(), &mut guide);
        let mut shown = shown_place(alloc, reached, &self.walk)?;
        if !guide.is_at_end() {
            shown.push_str(" too soon")?;
        }
        Ok(shown)
    }

    /// How many nodes stand before a part of the choice at a path by the marks.
    pub fn nodes_before(&mut self, scenario: &Scenario, choice: &[u32], part: u32) -> u32
        requires { IsRun self.old }
        ensures { IsRun self.new }
    {
        turns_grow_by_one();
        let locals = &scenario.locals;
        let mut guide = Guide::along(choice, part);
        reach(&mut self.track, locals, &mut self.walk, &(), &mut guide);
        guide.nodes()
    }

    /// Goes on behind an instant of the tree, by its number among the nodes and by its path.
    pub fn go_behind(
        &mut self,
        alloc: Global,
        scenario: &Scenario,
        place: usize,
        path: &[u32],
        values: &[(u32, Value)],
    ) -> Result<(), Fail>
        requires { IsRun self.old }
        ensures { OnOk result (IsRun self.new) }
    {
        if self.steps >= MOST_STEPS {
            return Err(Fail::new("too many steps"));
        }
        turns_grow_by_one();
        self.term = term_behind(alloc, scenario, &self.term, place, values)?;
        let locals = &scenario.locals;
        mark_behind(&mut self.track, &mut self.walk, locals, path, values)?;
        self.steps += 1;
        Ok(())
    }
}

// What a term becomes behind an instant that it offers.
fn term_behind(
    alloc: Global,
    scenario: &Scenario,
    term: &Term,
    place: usize,
    values: &[(u32, Value)],
) -> Result<Term, Fail>
    requires { IsCounted (process term.now) }
    ensures { IfOk result (λ t. (k : ℕ) → IsDoneTo k (process term.now) →
        IsDoneTo (suc k) (process t)) }
{
    turns_grow_by_one();
    let tree = offers(alloc, scenario, term)?;
    match tree.nodes.get(place) {
        Some(TreeNode::Go { next, .. }) => Ok(advance(alloc, next, values)?),
        _ => Err(Fail::new("no instant of the tree")),
    }
}

// Has the marks go on behind an instant.
fn mark_behind(
    track: &mut Track,
    walk: &mut Walk,
    locals: &[Var],
    path: &[u32],
    values: &[(u32, Value)],
) -> Result<(), Fail>
    requires tallied { IsTallied track.old }
    requires room { IsRoomy (nodes (body track.old)) walk.old }
    requires weights { IsRoomFor (body track.old) walk.old.raised.items }
    requires counted { IsCounted (standing track.old) }
    ensures same_body { body track.new ≡ body track.old }
    ensures tallied { IsTallied track.new }
    ensures room { IsRoomy (nodes (body track.old)) walk.new }
    ensures weights { IsRoomFor (body track.old) walk.new.raised.items }
    ensures done { OnOk result ((k : ℕ) → IsDoneTo k (standing track.old) →
        IsDoneTo (suc k) (standing track.new)) }
{
    steps_grow_by_one();
    match reach(track, locals, walk, &(), &mut Guide::along(path, 0)) {
        Reached::Go => {
            go_on(track, values);
            Ok(())
        }
        _ => Err(Fail::new("no instant of the marks")),
    }
}
