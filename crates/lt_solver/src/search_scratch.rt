//! Scratch for searches, and what the last search leaves to the next one.

ghost use Rattle.std.specs.Prelude.{◌≡◌, ◌<◌, ◌≤◌, ◌^◌, IfOk, ℕ, length, true, vec_capacity};
ghost use Rattle.lt_formula.specs.Limits.{most_variables};
ghost use Rattle.lt_propagation.specs.Ties.{AreTies};
ghost use Rattle.lt_space.specs.CircuitView.{circuit_len};
ghost use Rattle.lt_space.specs.SpaceView.{space_circuit};
ghost use Rattle.lt_solver.specs.inner.Begun.{IsCopied};
ghost use Rattle.lt_solver.specs.inner.Known.{IsKnown, Knows};
ghost use Rattle.lt_solver.specs.inner.Roomy.{IsRoomy};

use crate::classifying::BoxRoom;
use crate::corners::CornerMisses;
use lt_formula::{Memory, Scale};
use lt_num::Interval;
use lt_propagation::find_ties;
use lt_space::Space;
use std::alloc::Global;

// How many gates by their forms are remembered.
const LATEST: usize = 256;

/// Room for searches over some variables.
#[derive(Drop)]
pub(crate) struct SearchScratch {
    /// How places tell the values of each variable.
    pub(crate) scales: Vec<Scale>,

    /// The place of each variable to begin at.
    pub(crate) starts: Vec<i64>,

    /// The box at hand, of places.
    pub(crate) current: Vec<Interval>,

    /// The boxes that are left.
    pub(crate) stack: Vec<Interval>,

    /// Room for what is found of a box.
    pub(crate) boxes: BoxRoom,

    /// Whether the circuit of the last search is kept, with its ties.
    pub(crate) is_kept: bool,

    /// The scope of that search.
    pub(crate) scope: Vec<bool>,

    /// Gates by their forms, of any circuit.
    pub(crate) latest: Vec<u32>,

    /// For each gate an earlier one with the same form, or else itself.
    pub(crate) same: Vec<u32>,

    /// How many first points weren't found to pass, one after the other.
    pub(crate) misses: u32,

    /// The same of corners.
    pub(crate) corner_misses: CornerMisses,

    /// Room to measure needs in, with the hard variables of the last one.
    pub(crate) need: lt_need::NeedScratch,
}

impl SearchScratch {
    /// Room for searches over so many variables, for circuits of up to so many gates: at most as many as have a number.
    ///
    /// # Errors
    ///
    /// Want of memory.
    pub(crate) fn make(alloc: Global, count: usize, gates: usize) -> Result<SearchScratch, Memory>
        requires few { count ≤ most_variables }
        requires few_gates { gates ≤ 2 ^ 32 }
        ensures roomy { IfOk result (λ room.
            IsRoomy count (vec_capacity room.boxes.refuter.kleenes) room) }
        ensures gates { IfOk result (λ room. gates ≤ vec_capacity room.boxes.refuter.kleenes) }
        ensures knows { IfOk result Knows }
    {
        Ok(SearchScratch {
            scales: Vec::with_capacity(alloc, count)?,
            starts: Vec::with_capacity(alloc, count)?,
            current: Vec::with_capacity(alloc, count)?,
            stack: Vec::with_capacity(alloc, count * 42 * count)?,
            boxes: BoxRoom::make(alloc, count, gates)?,
            is_kept: false,
            scope: Vec::with_capacity(alloc, count)?,
            latest: vec![in alloc; 0; LATEST]?,
            same: Vec::with_capacity(alloc, gates)?,
            misses: 0,
            corner_misses: CornerMisses { low: 0, high: 0 },
            need: lt_need::NeedScratch::make(alloc, gates)?,
        })
    }

    /// Whether the last search was for the same formula in the same scope, and what was found out of it is kept.
    pub(crate) fn is_known(&self, space: &Space, scope: &[bool]) -> bool
        ensures { Knows self.now → result ≡ true → IsKnown self.now space.now }
    {
        self.is_kept && self.is_for(space, scope)
    }

    // Whether the circuit of a space is kept with this scope.
    fn is_for(&self, space: &Space, scope: &[bool]) -> bool
        ensures { result ≡ true → IsCopied self.now.boxes.recall space.now }
    {
        are_same_marks(&self.scope, scope) && self.boxes.recall.is_of(space)
    }

    /// Finds out what a search needs to know of its formula, unless that is known.
    pub(crate) fn prepare(&mut self, space: &Space, scope: &[bool], is_known: bool)
        requires ties { is_known ≡ true → AreTies (space_circuit space.now) self.old.same.items }
        requires copied { is_known ≡ true → IsCopied self.old.boxes.recall space.now }
        requires room { circuit_len (space_circuit space.now) ≤ vec_capacity self.old.same }
        requires latest { 0 < length self.old.latest.items }
        ensures ties { AreTies (space_circuit space.now) self.new.same.items }
        ensures due { self.new.boxes.recall.is_due ≡ true → IsCopied self.new.boxes.recall space.now }
        ensures copied { self.new.boxes.recall.is_copied ≡ true → IsCopied self.new.boxes.recall space.now }
        ensures knows { Knows self.old → Knows self.new }
        ensures roomy { (variables gates : ℕ) → IsRoomy variables gates self.old →
            IsRoomy variables gates self.new }
        ensures kleenes { vec_capacity self.new.boxes.refuter.kleenes ≡
            vec_capacity self.old.boxes.refuter.kleenes }
        ensures scales { self.new.scales ≡ self.old.scales }
        ensures starts { self.new.starts ≡ self.old.starts }
        ensures current { self.new.current ≡ self.old.current }
    {
        self.boxes.recall.is_due = is_known;
        self.boxes.recall.is_copied = is_known;
        if is_known {
            self.boxes.refuter.propagator.prepare_again();
            return;
        }
        find_ties(space.circuit(), &mut self.latest, &mut self.same);
        self.boxes
            .refuter
            .propagator
            .prepare(space.circuit(), &self.same, space.root(), &self.scales);
        self.keep(space, scope);
    }

    // Keeps what is found out of a formula, if there is room for that.
    fn keep(&mut self, space: &Space, scope: &[bool])
        requires ties { AreTies (space_circuit space.now) self.old.same.items }
        ensures knows { Knows self.new }
        ensures roomy { (variables gates : ℕ) → IsRoomy variables gates self.old →
            IsRoomy variables gates self.new }
        ensures kleenes { vec_capacity self.new.boxes.refuter.kleenes ≡
            vec_capacity self.old.boxes.refuter.kleenes }
        ensures scales { self.new.scales ≡ self.old.scales }
        ensures starts { self.new.starts ≡ self.old.starts }
        ensures current { self.new.current ≡ self.old.current }
        ensures same { self.new.same ≡ self.old.same }
        ensures due { self.new.boxes.recall.is_due ≡ self.old.boxes.recall.is_due }
        ensures flag { self.new.boxes.recall.is_copied ≡ self.old.boxes.recall.is_copied }
    {
        self.is_kept = false;
        if self.boxes.recall.keep(space) && self.scope.capacity() >= scope.len() {
            self.scope.clear();
            self.scope.extend_from_slice(scope).unwrap();
            self.is_kept = true;
        }
    }
}

// Whether some marks are others.
fn are_same_marks(one: &[bool], other: &[bool]) -> bool
    ensures { result ≡ true → one.now ≡ other.now }
{
    if one.len() != other.len() {
        return false;
    }
    for i in 0..one.len() {
        if one[i] != other[i] {
            return false;
        }
    }
    true
}
