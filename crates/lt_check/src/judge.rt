//! What is judged of the leaves and choices of a tree that is unfolded.

ghost use Rattle.std.specs.Prelude.{◌≡◌, ◌≤◌, ◌<◌, IfOk, IfSome, IsTrue, OnOk, length, nat_lt};
ghost use Rattle.std.specs.List.{list_all};
ghost use Rattle.lt_formula.specs.View.{table_len};
ghost use Rattle.lt_marks_laws.specs.Valued.{worths};
ghost use Rattle.lt_term.specs.Mapped.{leaf_passes, weight_passes};
ghost use Rattle.lt_term.specs.SceneView.{numbers_of};
ghost use Rattle.lt_term.specs.Tree.{weights_of};
ghost use Rattle.lt_term.specs.Unfolded.{going};
ghost use Rattle.lt_term.specs.UnfoldedView.{branches_of, parts_count};
ghost use Rattle.lt_term.specs.UnfoldingView.{OfferIsWithin, instant_in, instants_in, rules_in, scope_of};
ghost use Rattle.lt_term.specs.Within.{passes};
ghost use Rattle.lt_instant.specs.inner.DrawContextView.{scene_of, weigher_of};
ghost use Rattle.lt_check.specs.inner.Fitting.{IsShownIn};
ghost use Rattle.lt_check.specs.inner.JudgeView.{context_of, scenario_of, step_of};
ghost use Rattle.lt_check.specs.inner.MemoView.{Tells};
ghost use Rattle.lt_check.specs.inner.QuestionView.{constraint_holds, is_step, kinds_in, leaf_in, outlook_in};
ghost use Rattle.lt_check.specs.inner.SearcherView.{IsSearcherOf};
ghost use Rattle.lt_check.specs.inner.Searches.{is_alive};
ghost use Rattle.lt_check.specs.inner.Weighed.{AreWeighed};

use crate::choice::Choice;
use crate::memo::Memo;
use crate::scopes::has_scope;
use crate::searcher::Searcher;
use crate::step::ShownStep;
use lt_instant::{DrawContext, weigh};
use lt_term::{Last, Memory, Offer, Unfolding, Weight};
use std::alloc::Global;

/// What is asked of what terms offer: whether it is a step.
#[derive(Clone, Copy)]
pub(crate) struct Question<'q> {
    pub alloc: Global,

    /// What is known in the instant.
    pub context: &'q DrawContext<'q>,

    /// The step.
    pub step: &'q ShownStep,
}

/// Judges leaves and choices.
#[derive(Drop)]
pub(crate) struct Judge {
    /// Which constraints hold.
    pub memo: Memo,

    // The constraints of an instant, the locals in scope, and the weights of a choice.
    constraints: Vec<u32>,
    lasts: Vec<(u32, Last)>,
    weights: Vec<Weight>,
}

impl Judge {
    /// One that keeps in this memo which constraints hold.
    pub fn new(alloc: Global, memo: Memo) -> Judge
        ensures { result.memo ≡ memo }
    {
        Judge {
            memo,
            constraints: Vec::new(alloc),
            lasts: Vec::new(alloc),
            weights: Vec::new(alloc),
        }
    }

    /// Whether an instant is the step that is asked of.
    pub fn passes(
        &mut self,
        question: &Question<'_>,
        searcher: &mut Searcher,
        unfolded: &Unfolding<'_>,
        instant: u32,
    ) -> Result<bool, Memory>
        requires searcher { IsSearcherOf (scenario_of question.now) searcher.old }
        requires shown { IsShownIn (scenario_of question.now) (step_of question.now) }
        requires within { instant < instants_in unfolded.now }
        requires numbers { IsTrue (list_all (λ c.
            nat_lt c (table_len (scenario_of question.now).table))
            (instant_in (kinds_in (context_of question.now)) unfolded.now instant).constraints) }
        requires tells { Tells (constraint_holds (context_of question.now) (step_of question.now))
            self.old.memo }
        ensures passes { IfOk result (λ passes. passes ≡
            is_step (context_of question.now) (step_of question.now)
            (outlook_in (context_of question.now)
            (going (instant_in (kinds_in (context_of question.now))
            unfolded.now instant)))) }
        ensures tells { OnOk result (Tells
            (constraint_holds (context_of question.now) (step_of question.now))
            self.new.memo) }
        ensures searcher { IsSearcherOf (scenario_of question.now) searcher.new }
    {
        unfolded.put_instant(instant, &mut self.constraints, &mut self.lasts)?;
        if !has_scope(&self.lasts, &question.step.marks) {
            return Ok(false);
        }
        self.memo.go_to(&self.lasts)?;
        all_hold(
            question,
            searcher,
            &mut self.memo,
            &self.lasts,
            &self.constraints,
        )
    }

    /// Whether a leaf is live; nothing where its search was given up.
    pub fn lives(
        &mut self,
        question: &Question<'_>,
        searcher: &mut Searcher,
        unfolded: &Unfolding<'_>,
        offer: Offer,
    ) -> Result<Option<bool>, Memory>
        requires searcher { IsSearcherOf (scenario_of question.now) searcher.old }
        requires within { OfferIsWithin unfolded.now offer }
        requires numbers { IsTrue (leaf_passes (numbers_of (scenario_of question.now))
            (passes (numbers_of (scenario_of question.now)))
            (leaf_in (context_of question.now) unfolded.now offer)) }
        ensures lives { IfOk result (λ answer. IfSome answer (λ lives. lives ≡
            is_alive (scene_of (context_of question.now))
            (outlook_in (context_of question.now)
            (leaf_in (context_of question.now) unfolded.now offer)))) }
        ensures memo { self.new.memo ≡ self.old.memo }
        ensures searcher { IsSearcherOf (scenario_of question.now) searcher.new }
    {
        match offer {
            Offer::Nothing => Ok(Some(false)),
            Offer::Vanish | Offer::Raise(_) => Ok(Some(true)),
            Offer::Go(instant) => self.can_hold(question, searcher, unfolded, instant),
        }
    }

    // Whether the constraints of an instant have a fault, or values make them true; nothing where their search was given up.
    fn can_hold(
        &mut self,
        question: &Question<'_>,
        searcher: &mut Searcher,
        unfolded: &Unfolding<'_>,
        instant: u32,
    ) -> Result<Option<bool>, Memory>
        requires searcher { IsSearcherOf (scenario_of question.now) searcher.old }
        requires within { instant < instants_in unfolded.now }
        requires numbers { IsTrue (list_all (λ c.
            nat_lt c (table_len (scenario_of question.now).table))
            (instant_in (kinds_in (context_of question.now)) unfolded.now instant).constraints) }
        ensures holds { IfOk result (λ answer. IfSome answer (λ lives. lives ≡
            is_alive (scene_of (context_of question.now)) (outlook_in (context_of question.now)
            (going (instant_in (kinds_in (context_of question.now)) unfolded.now instant))))) }
        ensures memo { self.new.memo ≡ self.old.memo }
        ensures searcher { IsSearcherOf (scenario_of question.now) searcher.new }
    {
        unfolded.put_instant(instant, &mut self.constraints, &mut self.lasts)?;
        let context = question.context;
        match searcher.load(question.alloc, context, &self.constraints, &self.lasts)? {
            Ok(()) => match searcher.search(context.scenario, &self.lasts, context.budget) {
                Ok(can_hold) => Ok(Some(can_hold)),
                Err(_) => Ok(None),
            },
            Err(_) => Ok(Some(true)),
        }
    }

    /// Finds what the weights of a choice are worth, and whether they have no fault.
    pub fn weigh(
        &mut self,
        question: &Question<'_>,
        searcher: &mut Searcher,
        unfolded: &Unfolding<'_>,
        choice: Choice<'_>,
    ) -> Result<bool, Memory>
        requires searcher { IsSearcherOf (scenario_of question.now) searcher.old }
        requires rules { choice.rules ≤ rules_in unfolded.now }
        requires numbers { IsTrue (list_all (weight_passes (numbers_of (scenario_of question.now)))
            (weights_of (branches_of (kinds_in (context_of question.now)) choice.parts))) }
        ensures weighs { IfOk result (AreWeighed (worths (weigher_of (context_of question.now))
            (scope_of unfolded.now choice.entry.rules)
            (weights_of (branches_of (kinds_in (context_of question.now)) choice.entry.parts)))
            searcher.new.weights.items) }
        ensures few { OnOk result (length searcher.new.weights.items ≤
            parts_count choice.entry.parts) }
        ensures memo { self.new.memo ≡ self.old.memo }
        ensures searcher { IsSearcherOf (scenario_of question.now) searcher.new }
    {
        choice.parts.put_weights(&mut self.weights)?;
        unfolded.put_scope(choice.rules, &mut self.lasts)?;
        searcher.weights.clear();
        searcher.weights.reserve(self.weights.len())?;
        let weighed = weigh(
            question.context,
            &self.weights,
            &self.lasts,
            &mut searcher.earlier,
            &mut searcher.weights,
        );
        match weighed {
            Ok(()) => Ok(true),
            Err(_) => Ok(false),
        }
    }
}

// Whether constraints hold where the step shows the values.
fn all_hold(
    question: &Question<'_>,
    searcher: &mut Searcher,
    memo: &mut Memo,
    lasts: &[(u32, Last)],
    constraints: &[u32],
) -> Result<bool, Memory>
    requires searcher { IsSearcherOf (scenario_of question.now) searcher.old }
    requires shown { IsShownIn (scenario_of question.now) (step_of question.now) }
    requires numbers { IsTrue (list_all (λ c. nat_lt c (table_len (scenario_of question.now).table))
        constraints.now) }
    requires tells { Tells (constraint_holds (context_of question.now) (step_of question.now))
        memo.old }
    requires lasts { memo.old.lasts.items ≡ lasts.now }
    ensures holds { IfOk result (λ all. all ≡
        list_all (constraint_holds (context_of question.now) (step_of question.now) lasts.now)
        constraints.now) }
    ensures tells { OnOk result (Tells
        (constraint_holds (context_of question.now) (step_of question.now))
        memo.new) }
    ensures searcher { IsSearcherOf (scenario_of question.now) searcher.new }
{
    for constraint in constraints {
        if !holds(question, searcher, memo, lasts, *constraint)? {
            return Ok(false);
        }
    }
    Ok(true)
}

// Whether a constraint holds where the step shows the values.
fn holds(
    question: &Question<'_>,
    searcher: &mut Searcher,
    memo: &mut Memo,
    lasts: &[(u32, Last)],
    constraint: u32,
) -> Result<bool, Memory>
    requires searcher { IsSearcherOf (scenario_of question.now) searcher.old }
    requires shown { IsShownIn (scenario_of question.now) (step_of question.now) }
    requires number { constraint < table_len (scenario_of question.now).table }
    requires tells { Tells (constraint_holds (context_of question.now) (step_of question.now))
        memo.old }
    requires lasts { memo.old.lasts.items ≡ lasts.now }
    ensures holds { IfOk result (λ holds. holds ≡
        constraint_holds (context_of question.now) (step_of question.now) lasts.now constraint) }
    ensures tells { OnOk result (Tells
        (constraint_holds (context_of question.now) (step_of question.now)) memo.new) }
    ensures lasts { memo.new.lasts.items ≡ memo.old.lasts.items }
    ensures searcher { IsSearcherOf (scenario_of question.now) searcher.new }
{
    if let Some(told) = memo.told(constraint) {
        return Ok(told);
    }
    let found = find(question, searcher, lasts, constraint)?;
    memo.keep(constraint, found);
    Ok(found)
}

// The same, found anew.
fn find(
    question: &Question<'_>,
    searcher: &mut Searcher,
    lasts: &[(u32, Last)],
    constraint: u32,
) -> Result<bool, Memory>
    requires searcher { IsSearcherOf (scenario_of question.now) searcher.old }
    requires shown { IsShownIn (scenario_of question.now) (step_of question.now) }
    requires number { constraint < table_len (scenario_of question.now).table }
    ensures holds { IfOk result (λ holds. holds ≡
        constraint_holds (context_of question.now) (step_of question.now) lasts.now constraint) }
    ensures searcher { IsSearcherOf (scenario_of question.now) searcher.new }
{
    let context = question.context;
    match searcher.load(question.alloc, context, &[constraint], lasts)? {
        Ok(()) => Ok(searcher.holds(context.scenario, &question.step.raws)),
        Err(_) => Ok(false),
    }
}
