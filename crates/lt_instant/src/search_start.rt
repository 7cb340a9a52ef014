//! What the search for the solution of an instant is drawn from.

ghost use Rattle.std.specs.Prelude.{◌≤◌, All, IfOk, List, length};
ghost use Rattle.lt_draw.specs.Direction.{most_drawn};
ghost use Rattle.lt_num.specs.Range.{HasPoints};
ghost use Rattle.lt_instant.specs.SearchStartView.{IsSearchStartOf, AreDrawn};

use crate::targets::{find_directions, find_targets};
use lt_draw::{Draw, StepWords};
use lt_num::Range;
use std::alloc::{AllocError, Global};

/// The targets and the directions of all that is drawn: of the outputs, and then of the locals. They are drawn only where
/// they are asked for, and once in an instant.
#[derive(Drop)]
pub(crate) struct SearchStart {
    /// The words that variables have their targets from.
    pub words: Vec<u64>,

    /// The targets in the whole ranges.
    pub targets: Vec<i64>,

    /// The directions: whether each variable goes downward from its target.
    pub down: Vec<bool>,

    // The instant that these are for, once some were drawn.
    instant: Option<DrawnInstant>,
}

// What targets and directions are drawn by: the words of a seed at a step, and a rule.
#[derive(Clone, Copy, PartialEq, Eq)]
struct DrawnInstant {
    seed: u64,
    step: u64,
    draw: Draw,
}

impl SearchStart {
    /// Room for those of so many variables.
    ///
    /// # Errors
    ///
    /// Want of memory.
    pub fn make(alloc: Global, count: usize) -> Result<SearchStart, AllocError>
        ensures { (ranges : List Range) → length ranges ≤ count → IfOk result (IsSearchStartOf ranges) }
    {
        Ok(SearchStart {
            words: Vec::with_capacity(alloc, count)?,
            targets: Vec::with_capacity(alloc, count)?,
            down: Vec::with_capacity(alloc, count)?,
            instant: None,
        })
    }

    /// Draws those of variables of these ranges for an instant, by its words and a rule, unless they were.
    pub fn draw(&mut self, words: &StepWords, draw: Draw, ranges: &[Range])
        requires points { All HasPoints ranges.now }
        requires few { length ranges.now ≤ most_drawn }
        requires start { IsSearchStartOf ranges.now self.old }
        ensures drawn { AreDrawn ranges.now self.new words.now.seed words.now.step draw }
        ensures start { IsSearchStartOf ranges.now self.new }
    {
        let asked = Some(DrawnInstant {
            seed: words.seed(),
            step: words.step(),
            draw,
        });
        if self.instant == asked {
            return;
        }
        find_targets(&mut self.words, &mut self.targets, words, ranges);
        find_directions(&mut self.down, draw, words, ranges.len());
        self.instant = asked;
    }
}
