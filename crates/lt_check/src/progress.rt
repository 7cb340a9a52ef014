//! How far a check is.

ghost use Rattle.std.specs.Prelude.{◌≡◌, ◌<◌, ◌≤◌, ◌+◌, ◌^◌, ℕ, Bool, IfErr, IfOk, Some, length, slice_get, take};
ghost use Rattle.lt_term.specs.Tree.{Lasts};
ghost use Rattle.lt_trace.specs.Told.{Told};
ghost use Rattle.lt_trace.specs.View.{step_view};
ghost use Rattle.lt_check.specs.inner.Kinded.{IsKindedStep};
ghost use Rattle.lt_check.specs.inner.MomentView.{followers, moment_scene};
ghost use Rattle.lt_check.specs.inner.ProgressView.{AreHaltedBy, ArePassing, FollowAll, FollowSome, IsBehind, IsSound, IsStepHalt, IsStop};
ghost use Rattle.std.specs.List.{flat_map};
ghost use Rattle.lt_check.specs.inner.Fitting.{IsShownIn};
ghost use Rattle.lt_check.specs.inner.Terms.{with_each};
ghost use Rattle.lt_check.specs.inner.MemoView.{Tells};
ghost use Rattle.lt_check.specs.inner.MomentHolds.{moment_holds};
ghost use Rattle.lt_check.specs.inner.SearcherView.{IsSearcherOf};
ghost use Rattle.lt_check.specs.inner.TermSet.{terms_of};

use crate::following::{Following, follow};
use crate::key::TermKey;
use crate::memo::Memo;
use crate::moment::Moment;
use crate::searcher::Searcher;
use crate::step::ShownStep;
use indexmap::IndexSet;
use lt_instant::solutions_pass;
use lt_legal::{
    Halt, Verdict, legal_leaves_stand, legal_leaves_tell, walk_is_legal, walks_are_walked,
};
use lt_num::test_tells_points;
use lt_same_term::constraints_tell_terms;
use lt_term::{Memory, Scenario, body_is_valid};
use lt_trace::RecordedStep;
use std::alloc::Global;

// How many ways to stand are kept at most.
const MOST_TERMS: usize = 4096;

/// How far a check is: what is known between two steps, and all terms at which a run may stand there.
#[derive(Drop)]
pub(crate) struct Progress<'a> {
    pub moment: Moment<'a>,
    pub searcher: Searcher,

    /// Which constraints hold in a step.
    pub memo: Memo,
    pub terms: IndexSet<TermKey>,
}

/// Why a check ends.
#[derive(Clone, Copy)]
pub(crate) enum Stop {
    /// Memory ran out.
    Memory,

    /// This is said of the trace.
    Said(Verdict),
}

impl From<Memory> for Stop {
    ghost use Rattle.lt_check.specs.declared.progress.Stop.{Stop};

    ghost from_gives = { λ _ stop. stop ≡ Stop.Memory };

    fn from(_error: Memory) -> Stop {
        Stop::Memory
    }
}

/// Before the first step of a trace.
pub(crate) fn begin<'a>(
    alloc: Global,
    scenario: &'a Scenario,
    budget: u64,
) -> Result<Progress<'a>, Memory>
    ensures sound { IfOk result IsSound }
    ensures scenario { IfOk result (λ p. p.moment.scenario.now ≡ scenario.now) }
    ensures begins { IfOk result (λ p. (t : Told) → IsBehind t budget 0 p) }
{
    // Laws that the proof needs: what numbers the body has, and that terms are told by what these stand for.
    body_is_valid(scenario);
    constraints_tell_terms();
    scenario.table.len();
    let mut terms = IndexSet::new(alloc);
    terms.insert(TermKey::new(scenario.body.clone()?))?;
    Ok(Progress {
        moment: Moment::first(alloc, scenario, budget)?,
        searcher: Searcher::make(alloc, scenario)?,
        memo: Memo::make(alloc, scenario.table.len())?,
        terms,
    })
}

/// On behind a step, whose number this is.
pub(crate) fn step_on<'a>(
    alloc: Global,
    progress: Progress<'a>,
    step: &RecordedStep,
    number: u64,
) -> Result<Progress<'a>, Stop>
    requires sound { IsSound progress }
    requires kinded { IsKindedStep (moment_scene progress.moment) (step_view step.now) }
    requires few { progress.moment.past.step < 2 ^ 63 }
    ensures sound { IfOk result IsSound }
    ensures scenario { IfOk result (λ p. p.moment.scenario.now ≡
        progress.entry.moment.scenario.now) }
    ensures goes_on { IfOk result (λ p. (t : Told) (budget k : ℕ) →
        slice_get t.steps k ≡ Some (step_view step.now) → IsBehind t budget k progress.entry →
        IsBehind t budget (k + 1) p) }
    ensures stops { IfErr result (λ stop. (t : Told) (budget k : ℕ) →
        slice_get t.steps k ≡ Some (step_view step.now) → number ≡ k + 1 →
        IsBehind t budget k progress.entry →
        IsStop progress.entry.moment budget t stop) }
{
    // Laws that the proof needs: that terms are told by what their numbers stand for, and which points there are.
    constraints_tell_terms();
    test_tells_points();
    progress.moment.scenario.table.len();
    let mut moment = progress.moment;
    let none = Following::begin(alloc, progress.memo, progress.searcher)?;
    let following = match follow_all(alloc, &moment, none, &progress.terms, step) {
        Ok(following) => following,
        Err(Halt::Memory) => return Err(Stop::Memory),
        Err(Halt::Over(need)) => {
            return Err(Stop::Said(Verdict::Budget { need, step: number }));
        }
    };
    if following.terms.is_empty() {
        return Err(Stop::Said(Verdict::Illegal { step: number }));
    }
    if following.terms.len() > MOST_TERMS {
        return Err(Stop::Said(Verdict::TooMany { step: number }));
    }
    moment.pass(step);
    let searcher = following.searcher;
    let terms = following.terms;
    let finder = following.finder;
    let judge = finder.judge;
    Ok(Progress {
        moment,
        searcher,
        memo: judge.memo,
        terms,
    })
}

// The terms that follow some terms by a step: all of them, or more than are kept.
fn follow_all<'a>(
    alloc: Global,
    moment: &Moment<'_>,
    none: Following<'a>,
    terms: &'a IndexSet<TermKey>,
    step: &RecordedStep,
) -> Result<Following<'a>, Halt>
    requires searcher { IsSearcherOf moment.now.scenario.now none.searcher }
    requires none { length none.terms.keys ≡ 0 }
    requires tells { (holds : Lasts → ℕ → Bool) → Tells holds none.finder.judge.memo }
    requires passing { ArePassing moment.now (terms_of terms.now.keys) }
    requires kinded { IsKindedStep (moment_scene moment.now) (step_view step.now) }
    ensures some { IfOk result (λ following. FollowSome moment.now (step_view step.now)
        (terms_of terms.now.keys) (terms_of following.terms.keys)) }
    ensures all { IfOk result (λ following. length following.terms.keys ≤ 4096 →
        FollowAll moment.now (step_view step.now)
        (terms_of terms.now.keys) (terms_of following.terms.keys)) }
    ensures searcher { IfOk result (λ following.
        IsSearcherOf moment.now.scenario.now following.searcher) }
    ensures halts { IfErr result
        (IsStepHalt moment.now (step_view step.now) (terms_of terms.now.keys)) }
{
    // Laws that the proof needs: what a walk finds, what is live, and which points there are.
    walks_are_walked();
    walk_is_legal();
    legal_leaves_tell();
    legal_leaves_stand();
    solutions_pass();
    test_tells_points();
    let shown = ShownStep::make(alloc, moment.scenario, step)?;
    if !shown.is_possible {
        return Ok(none);
    }
    follow_each(alloc, moment, none, terms.as_slice(), &shown)
}

// Adds the terms that follow some terms by a step that is possible, until there are more than are kept.
fn follow_each<'a>(
    alloc: Global,
    moment: &Moment<'_>,
    following: Following<'a>,
    keys: &'a [TermKey],
    shown: &ShownStep,
) -> Result<Following<'a>, Halt>
    requires searcher { IsSearcherOf moment.now.scenario.now following.searcher }
    requires passing { ArePassing moment.now (terms_of keys.now) }
    requires shown { IsShownIn moment.now.scenario.now shown.now }
    requires tells { Tells (moment_holds moment.now shown.now) following.finder.judge.memo }
    ensures follows { IfOk result (λ new. (count : ℕ) × (count ≤ length keys.now) ×
        (terms_of new.terms.keys ≡ with_each (terms_of following.entry.terms.keys)
        (flat_map (followers moment.now shown.now) (take count (terms_of keys.now)))) ×
        (length new.terms.keys ≤ 4096 → count ≡ length keys.now)) }
    ensures searcher { IfOk result (λ new. IsSearcherOf moment.now.scenario.now new.searcher) }
    ensures halts { IfErr result (λ halt.
        AreHaltedBy moment.now shown.now (terms_of keys.now) halt) }
{
    let mut all = following;
    for key in keys {
        if all.terms.len() > MOST_TERMS {
            return Ok(all);
        }
        all = follow(alloc, moment, all, &key.term, shown)?;
    }
    Ok(all)
}
