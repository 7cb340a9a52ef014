//! The check of a trace.

ghost use Rattle.std.specs.Prelude.{◌≡◌, ℕ, Bool, false, true, IfErr, IfOk};
ghost use Rattle.lt_legal.specs.Verdict.{IsVerdict};
ghost use Rattle.lt_term.specs.SceneView.{scene};
ghost use Rattle.lt_trace.specs.Lines.{HasShape};
ghost use Rattle.lt_trace.specs.View.{told};
ghost use Rattle.lt_check.specs.Shape.{trace_shape};
ghost use Rattle.lt_check.specs.inner.ProgressView.{AreEnded, IsSound, IsEndHalt};
ghost use Rattle.lt_check.specs.inner.TermSet.{terms_of};

use crate::ending::may_end;
use crate::progress::{Progress, Stop, begin, step_on};
use lt_instant::solutions_pass;
use lt_legal::{
    Halt, Verdict, legal_leaves_stand, legal_leaves_tell, walk_is_legal, walks_are_walked,
};
use lt_term::{Memory, Scenario};
use lt_trace::{Recorded, RecordedEnd};
use std::alloc::Global;

/// Whether a trace is a legal run of a scenario, by any seed and any rule of drawing. Where that takes a search whose need is
/// over the budget, it may be given up.
///
/// # Errors
///
/// Want of memory.
pub fn check(
    alloc: Global,
    scenario: &Scenario,
    trace: &Recorded,
    budget: u64,
) -> Result<Verdict, Memory>
    requires shape { HasShape (trace_shape (scene scenario.now)) (told trace.now) }
    ensures { IfOk result (IsVerdict (scene scenario.now) budget (told trace.now)) }
{
    // Laws that the proof needs: what a walk finds, and what is live.
    walks_are_walked();
    walk_is_legal();
    legal_leaves_tell();
    legal_leaves_stand();
    solutions_pass();
    let mut progress = begin(alloc, scenario, budget)?;
    let mut number = 0;
    for step in &trace.steps {
        number += 1;
        progress = match step_on(alloc, progress, step, number) {
            Ok(next) => next,
            Err(Stop::Memory) => return Err(Memory),
            Err(Stop::Said(verdict)) => return Ok(verdict),
        };
    }
    match ends_somewhere(alloc, progress, trace.end) {
        Ok(true) => Ok(Verdict::Legal),
        Ok(false) => Ok(Verdict::Illegal { step: number + 1 }),
        Err(Halt::Memory) => Err(Memory),
        Err(Halt::Over(need)) => Ok(Verdict::Budget {
            need,
            step: number + 1,
        }),
    }
}

// Whether a run may end where a check is.
fn ends_somewhere(alloc: Global, progress: Progress<'_>, end: RecordedEnd) -> Result<bool, Halt>
    requires sound { IsSound progress }
    ensures tells { IfOk result (AreEnded progress.entry.moment (terms_of progress.entry.terms.keys) end) }
    ensures halts { IfErr result (IsEndHalt progress.entry.moment (terms_of progress.entry.terms.keys) end) }
{
    let mut searcher = progress.searcher;
    for key in progress.terms.as_slice() {
        let ending = may_end(alloc, &progress.moment, searcher, &key.term, end)?;
        if ending.may_end {
            return Ok(true);
        }
        searcher = ending.searcher;
    }
    Ok(false)
}
