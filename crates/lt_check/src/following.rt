//! The terms that follow by a step.

ghost use Rattle.std.specs.Prelude.{◌≡◌, ◌<◌, ℕ, All, Bool, IfErr, IfOk, IsTrue, OnOk, Some, false, length, map, slice_get, slice_index_or};
ghost use Rattle.std.specs.List.{flat_map};
ghost use Rattle.lt_instant.specs.Solved.{values_of};
ghost use Rattle.lt_term.specs.SceneView.{numbers_of};
ghost use Rattle.lt_term.specs.Tree.{Lasts, flattened, leaf_node};
ghost use Rattle.lt_term.specs.TreeView.{tree_node};
ghost use Rattle.lt_term.specs.Unfolded.{going};
ghost use Rattle.lt_term.specs.UnfoldingView.{instant_in, instants_in};
ghost use Rattle.lt_term.specs.View.{process};
ghost use Rattle.lt_term.specs.Within.{passes};
ghost use Rattle.lt_num.specs.declared.value.Value.TheVariants as value;
ghost use Rattle.lt_check.specs.inner.FinderView.{found_of};
ghost use Rattle.lt_check.specs.inner.Fitting.{IsShownIn};
ghost use Rattle.lt_check.specs.inner.Followers.{next_by};
ghost use Rattle.lt_check.specs.inner.JudgeView.{context_of, step_of};
ghost use Rattle.lt_check.specs.inner.LookView.{IsReady};
ghost use Rattle.lt_check.specs.inner.MemoView.{Tells};
ghost use Rattle.lt_check.specs.inner.MomentHolds.{moment_holds};
ghost use Rattle.lt_check.specs.inner.MomentView.{IsFollowedBy, IsFollowingHalt, is_large, tree_at};
ghost use Rattle.lt_check.specs.inner.QuestionView.{kinds_in};
ghost use Rattle.lt_check.specs.inner.SearcherView.{IsSearcherOf};
ghost use Rattle.lt_check.specs.inner.TermSet.{terms_of};
ghost use Rattle.lt_check.specs.inner.Terms.{with_each};

use crate::counted::is_counted;
use crate::finder::Finder;
use crate::judge::Question;
use crate::key::TermKey;
use crate::looking::Look;
use crate::memo::Memo;
use crate::moment::Moment;
use crate::searcher::Searcher;
use crate::sought::Sought;
use crate::step::ShownStep;
use indexmap::IndexSet;
use lt_legal::Halt;
use lt_num::Value;
use lt_term::{Last, Memory, Term, TreeNode, advance, offers, size};
use std::alloc::{AllocError, Global};

// How many nodes a tree has at most.
const MOST_NODES: u64 = 65_536;

/// The terms that follow so far, and what leaves are found and searched with.
#[derive(Drop)]
pub(crate) struct Following<'a> {
    pub finder: Finder<'a>,
    pub searcher: Searcher,
    pub terms: IndexSet<TermKey>,
}

impl<'a> Following<'a> {
    /// No terms yet, behind a step or before the first one.
    pub fn begin(alloc: Global, memo: Memo, searcher: Searcher) -> Result<Following<'a>, Memory>
        ensures searcher { IfOk result (λ f. f.searcher ≡ searcher) }
        ensures none { IfOk result (λ f. length f.terms.keys ≡ 0) }
        ensures tells { IfOk result (λ f. (holds : Lasts → ℕ → Bool) →
            Tells holds f.finder.judge.memo) }
    {
        let mut memo = memo;
        memo.forget()?;
        Ok(Following {
            finder: Finder::new(alloc, memo),
            searcher,
            terms: IndexSet::new(alloc),
        })
    }
}

/// Adds the terms that follow one term by a step.
pub(crate) fn follow<'a>(
    alloc: Global,
    moment: &Moment<'_>,
    following: Following<'a>,
    term: &'a Term,
    step: &ShownStep,
) -> Result<Following<'a>, Halt>
    requires searcher { IsSearcherOf moment.now.scenario.now following.searcher }
    requires shown { IsShownIn moment.now.scenario.now step.now }
    requires tells { Tells (moment_holds moment.now step.now) following.finder.judge.memo }
    requires passes { IsTrue (passes (numbers_of moment.now.scenario.now) (process term.now)) }
    ensures follows { IfOk result (λ new. IsFollowedBy moment.now step.now (process term.now)
        (terms_of following.entry.terms.keys) (terms_of new.terms.keys)) }
    ensures searcher { IfOk result (λ new. IsSearcherOf moment.now.scenario.now new.searcher) }
    ensures tells { IfOk result (λ new. Tells (moment_holds moment.now step.now)
        new.finder.judge.memo) }
    ensures halts { IfErr result (IsFollowingHalt moment.now step.now (process term.now)) }
{
    if is_too_large(alloc, moment, term)? {
        return Ok(following);
    }
    // A run never stands at a term with more turns done.
    if !is_counted(term) {
        return Err(Halt::Memory);
    }
    let context = moment.context();
    let question = Question {
        alloc,
        context: &context,
        step,
    };
    let mut finder = following.finder;
    let mut searcher = following.searcher;
    let mut terms = following.terms;
    if !finder.find(&question, &mut searcher, term)? {
        let so_far = Following {
            finder,
            searcher,
            terms,
        };
        return follow_by_look(alloc, moment, so_far, term, step);
    }
    put_nexts(&question, &finder, &mut terms)?;
    Ok(Following {
        finder,
        searcher,
        terms,
    })
}

// The same by a look at the whole tree.
fn follow_by_look<'a>(
    alloc: Global,
    moment: &Moment<'_>,
    following: Following<'a>,
    term: &Term,
    step: &ShownStep,
) -> Result<Following<'a>, Halt>
    requires searcher { IsSearcherOf moment.now.scenario.now following.searcher }
    requires shown { IsShownIn moment.now.scenario.now step.now }
    requires passes { IsTrue (passes (numbers_of moment.now.scenario.now) (process term.now)) }
    requires small { is_large moment.now (process term.now) ≡ false }
    ensures follows { IfOk result (λ new. IsFollowedBy moment.now step.now (process term.now)
        (terms_of following.entry.terms.keys) (terms_of new.terms.keys)) }
    ensures searcher { IfOk result (λ new. IsSearcherOf moment.now.scenario.now new.searcher) }
    ensures memo { IfOk result (λ new. new.finder.judge.memo ≡ following.entry.finder.judge.memo) }
    ensures halts { IfErr result (IsFollowingHalt moment.now step.now (process term.now)) }
{
    let mut look = look_at(alloc, moment, following.searcher, term)?;
    let leaves = look.find(Sought::Step(step))?;
    let mut terms = following.terms;
    for leaf in &leaves {
        put_next_of_leaf(alloc, &look.tree.nodes, *leaf, &step.locals, &mut terms)?;
    }
    Ok(Following {
        finder: following.finder,
        searcher: look.searcher,
        terms,
    })
}

// Adds what comes after the instants that are found.
fn put_nexts(
    question: &Question<'_>,
    finder: &Finder<'_>,
    terms: &mut IndexSet<TermKey>,
) -> Result<(), Memory>
    requires { All (λ n. n < instants_in finder.now.unfolded) finder.now.found.items }
    ensures { OnOk result (terms_of terms.new.keys ≡ with_each (terms_of terms.old.keys)
        (flat_map (λ l. next_by (step_of question.now).locals.items (Some (leaf_node l)))
        (found_of (context_of question.now) finder.now))) }
{
    for instant in &finder.found {
        put_next(question, finder, *instant, terms)?;
    }
    Ok(())
}

// Adds what comes after an instant that is found.
fn put_next(
    question: &Question<'_>,
    finder: &Finder<'_>,
    instant: u32,
    terms: &mut IndexSet<TermKey>,
) -> Result<(), Memory>
    requires { instant < instants_in finder.now.unfolded }
    ensures { OnOk result (terms_of terms.new.keys ≡ with_each (terms_of terms.old.keys)
        (next_by (step_of question.now).locals.items (Some (leaf_node
        (going (instant_in (kinds_in (context_of question.now)) finder.now.unfolded instant)))))) }
{
    let next = finder
        .unfolded
        .next(question.alloc, question.context.scenario, instant)?;
    let mut constraints = Vec::new(question.alloc);
    let mut lasts = Vec::new(question.alloc);
    finder
        .unfolded
        .put_instant(instant, &mut constraints, &mut lasts)?;
    let values = values_of(question.alloc, &lasts, &question.step.locals)?;
    let term = advance(question.alloc, &next, &values)?;
    terms.insert(TermKey::new(term))?;
    Ok(())
}

/// Whether what a term offers has too many nodes.
pub(crate) fn is_too_large(alloc: Global, moment: &Moment<'_>, term: &Term) -> Result<bool, Memory>
    ensures { IfOk result (λ large. large ≡ is_large moment.now (process term.now)) }
{
    Ok(size(alloc, term)? > MOST_NODES)
}

/// A look at what a term offers.
pub(crate) fn look_at<'a>(
    alloc: Global,
    moment: &'a Moment<'a>,
    searcher: Searcher,
    term: &'a Term,
) -> Result<Look<'a>, Memory>
    requires searcher { IsSearcherOf moment.now.scenario.now searcher }
    requires passes { IsTrue (passes (numbers_of moment.now.scenario.now) (process term.now)) }
    requires small { is_large moment.now (process term.now) ≡ false }
    ensures ready { IfOk result IsReady }
    ensures scenario { IfOk result (λ look. look.context.scenario.now ≡ moment.now.scenario.now) }
    ensures past { IfOk result (λ look. look.context.past.now ≡ moment.now.past) }
    ensures inputs { IfOk result (λ look. look.context.inputs.now ≡ moment.now.inputs.items) }
    ensures budget { IfOk result (λ look. look.context.budget ≡ moment.now.budget) }
    ensures term { IfOk result (λ look. look.term.now ≡ term.now) }
    ensures nodes { IfOk result (λ look. map tree_node look.tree.nodes.items ≡
        flattened (tree_at moment.now (process term.now))) }
{
    // A run never stands at a term with more turns done: none does that `offers` takes no more.
    if !is_counted(term) {
        return Err(Memory);
    }
    let tree = offers(alloc, moment.scenario, term)?;
    Ok(Look {
        alloc,
        context: moment.context(),
        searcher,
        term,
        tree,
    })
}

// Adds what comes after a leaf.
fn put_next_of_leaf(
    alloc: Global,
    nodes: &[TreeNode],
    leaf: u32,
    locals: &[Value],
    terms: &mut IndexSet<TermKey>,
) -> Result<(), Memory>
    ensures { OnOk result (terms_of terms.new.keys ≡ with_each (terms_of terms.old.keys)
        (next_by locals.now (slice_get (map tree_node nodes.now) leaf))) }
{
    let Some(TreeNode::Go { lasts, next, .. }) = nodes.get(leaf as usize) else {
        return Ok(());
    };
    let values = values_of(alloc, lasts, locals)?;
    let term = advance(alloc, next, &values)?;
    terms.insert(TermKey::new(term))?;
    Ok(())
}

// The locals in scope with their values.
fn values_of(
    alloc: Global,
    lasts: &[(u32, Last)],
    locals: &[Value],
) -> Result<Vec<(u32, Value)>, AllocError>
    ensures { IfOk result (λ values. values.items ≡ values_of lasts.now locals.now) }
{
    let mut values = Vec::with_capacity(alloc, lasts.len())?;
    for (local, _) in lasts {
        values.push_reserved((*local, value_at(locals, *local)));
    }
    Ok(values)
}

// The value of a local by its number, and false where there is none.
fn value_at(locals: &[Value], number: u32) -> Value
    ensures { result ≡ slice_index_or locals.now number (value.Bool false) }
{
    match locals.get(number as usize) {
        Some(value) => *value,
        None => Value::Bool(false),
    }
}
