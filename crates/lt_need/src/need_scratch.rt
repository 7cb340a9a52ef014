//! Scratch to measure needs in, taken once.

ghost use Rattle.std.specs.Prelude.{◌≡◌, ◌≤◌, IfOk, length, vec_capacity};
ghost use Rattle.lt_formula.specs.Limits.{most_variables};
ghost use Rattle.lt_need.specs.inner.GatheringView.{HasRoom};

use crate::faces::Face;
use crate::gathering::Gathering;
use std::alloc::{AllocError, Global};

// How many variables a circuit may have: `most_variables`.
const MOST_VARIABLES: usize = 128;

/// Scratch to measure needs in, and the marks of the hard variables that were found last.
#[derive(Drop)]
pub struct NeedScratch {
    /// For how many gates it has room.
    pub(crate) gates: usize,

    /// What each gate stands for.
    pub(crate) faces: Vec<Face>,

    /// How often the conjuncts of each gate count.
    pub(crate) weights: Vec<usize>,

    /// Room to gather atoms in.
    pub(crate) gathering: Gathering,

    /// The first comparison of several variables that has each variable, as the number of its gate.
    pub(crate) owners: Vec<Option<u32>>,

    /// Which variables another one has too.
    pub(crate) shared: Vec<bool>,

    /// Which variables are hard.
    pub(crate) hard: Vec<bool>,
    ghost for_faces: { gates ≤ vec_capacity faces },
    ghost for_weights: { gates ≤ vec_capacity weights },
    ghost for_atoms: { HasRoom gates gathering },
    ghost all_owners: { length owners.items ≡ most_variables },
    ghost all_shared: { length shared.items ≡ most_variables },
    ghost all_hard: { length hard.items ≡ most_variables },
}

impl NeedScratch {
    ghost use Rattle.lt_need.specs.ScratchView.{scratch_gates, scratch_hard};

    /// Room for circuits of up to so many gates.
    ///
    /// # Errors
    ///
    /// Want of memory.
    pub fn make(alloc: Global, gates: usize) -> Result<NeedScratch, AllocError>
        ensures { IfOk result (λ room. scratch_gates room ≡ gates) }
    {
        Ok(NeedScratch {
            gates,
            faces: Vec::with_capacity(alloc, gates)?,
            weights: Vec::with_capacity(alloc, gates)?,
            gathering: Gathering {
                marks: vec![in alloc; false; gates]?,
                reached: Vec::with_capacity(alloc, gates)?,
                found: Vec::with_capacity(alloc, gates)?,
            },
            owners: vec![in alloc; None; MOST_VARIABLES]?,
            shared: vec![in alloc; false; MOST_VARIABLES]?,
            hard: vec![in alloc; false; MOST_VARIABLES]?,
        })
    }

    /// Which variables are hard in the formula that was measured last, by their numbers. Before the first one none is.
    pub fn hard(&self) -> &[bool]
        ensures hard { result.now ≡ scratch_hard self.now }
        ensures len { length result.now ≡ most_variables }
    {
        &self.hard
    }
}
