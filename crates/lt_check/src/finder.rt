//! The instants of a term that are a step and may be taken, found without the whole tree.

ghost use Rattle.std.specs.Prelude.{◌≡◌, ◌<◌, ◌++◌, true, All, IfOk, IfSome, IsTrue, OnOk, map};
ghost use Rattle.lt_term.specs.Counted.{IsCounted};
ghost use Rattle.lt_term.specs.Offers.{offers_of};
ghost use Rattle.lt_term.specs.SceneView.{numbers_of};
ghost use Rattle.lt_term.specs.Tree.{leaf};
ghost use Rattle.lt_term.specs.UnfoldingView.{OfferIsWithin, instants_in};
ghost use Rattle.lt_term.specs.View.{process};
ghost use Rattle.lt_term.specs.Within.{passes};
ghost use Rattle.lt_check.specs.inner.ChoiceView.{ChoiceIsWithin};
ghost use Rattle.lt_check.specs.inner.Fitting.{IsShownIn};
ghost use Rattle.lt_check.specs.inner.JudgeView.{context_of, scenario_of, step_of};
ghost use Rattle.lt_check.specs.inner.MemoView.{Tells};
ghost use Rattle.lt_check.specs.inner.QuestionView.{constraint_holds, kinds_in, leaf_in, lives_in, step_leaves};
ghost use Rattle.lt_check.specs.inner.SearcherView.{IsSearcherOf};
ghost use Rattle.lt_check.specs.inner.TaskView.{visit_task};
ghost use Rattle.lt_check.specs.inner.Visited.{check, visit};

use crate::choice::{Choice, push_parts};
use crate::judge::{Judge, Question};
use crate::memo::Memo;
use crate::searcher::Searcher;
use lt_term::{Later, Memory, Offer, Root, Term, Unfolding};
use std::alloc::{AllocError, Global};

/// What is still to be done.
#[derive(Clone, Copy)]
enum Task<'a> {
    /// To visit a tree.
    Visit(Later<'a>),

    /// To visit the right tree of an order where nothing was found in the left one: so many were found before that.
    Right {
        left: Later<'a>,
        right: Later<'a>,
        found: usize,
    },

    /// To let go what was found in the right tree of an order where the left one lives: so many were found before that.
    Check {
        left: Later<'a>,
        found: usize,
    },
}

/// Finds instants in what terms offer, one term after another.
#[derive(Drop)]
pub(crate) struct Finder<'a> {
    /// What is unfolded of the tree of a term.
    pub unfolded: Unfolding<'a>,

    /// What judges leaves and choices.
    pub judge: Judge,

    /// The numbers of the instants that are found.
    pub found: Vec<u32>,
    tasks: Vec<Task<'a>>,

    // The parts of a choice.
    parts: Vec<Later<'a>>,

    // The trees that may live.
    waiting: Vec<Later<'a>>,
}

impl<'a> Finder<'a> {
    ghost use Rattle.lt_check.specs.inner.ChoiceTree.{choice_tree};
    ghost use Rattle.lt_check.specs.inner.FinderView.{GoesOn, GoesOnIf, IsFinding, IsFit, IsLifeOf, NumbersPass, Stays, TaskIsFit, found_of, todo_of, tree_in};

    /// One that keeps in this memo which constraints hold.
    pub fn new(alloc: Global, memo: Memo) -> Finder<'a>
        ensures { result.judge.memo ≡ memo }
    {
        Finder {
            unfolded: Unfolding::new(alloc),
            judge: Judge::new(alloc, memo),
            found: Vec::new(alloc),
            tasks: Vec::new(alloc),
            parts: Vec::new(alloc),
            waiting: Vec::new(alloc),
        }
    }

    /// Finds the instants of a term that are the step and may be taken, or else a search was given up.
    pub fn find(
        &mut self,
        question: &Question<'_>,
        searcher: &mut Searcher,
        term: &'a Term,
    ) -> Result<bool, Memory>
        requires searcher { IsSearcherOf (scenario_of question.now) searcher.old }
        requires shown { IsShownIn (scenario_of question.now) (step_of question.now) }
        requires tells { Tells (constraint_holds (context_of question.now) (step_of question.now))
            self.old.judge.memo }
        requires counted { IsCounted (process term.now) }
        requires passes { IsTrue (passes (numbers_of (scenario_of question.now))
            (process term.now)) }
        ensures finds { IfOk result (λ done. done ≡ true →
            found_of (context_of question.now) self.new ≡
            step_leaves (context_of question.now) (step_of question.now)
            (offers_of (kinds_in (context_of question.now)) (process term.now))) }
        ensures found { OnOk result (All (λ n. n < instants_in self.new.unfolded)
            self.new.found.items) }
        ensures tells { OnOk result (Tells
            (constraint_holds (context_of question.now) (step_of question.now))
            self.new.judge.memo) }
        ensures searcher { IsSearcherOf (scenario_of question.now) searcher.new }
    {
        self.found.clear();
        self.tasks.clear();
        let tree = self.unfolded.of(term);
        self.tasks.push(Task::Visit(tree))?;
        while let Some(task) = self.tasks.pop() {
            if !self.go_on(question, searcher, task)? {
                return Ok(false);
            }
        }
        Ok(true)
    }

    // Does one task, or else a search was given up.
    fn go_on(
        &mut self,
        question: &Question<'_>,
        searcher: &mut Searcher,
        task: Task<'a>,
    ) -> Result<bool, Memory>
        requires searcher { IsSearcherOf (scenario_of question.now) searcher.old }
        requires shown { IsShownIn (scenario_of question.now) (step_of question.now) }
        requires ready { IsFinding (context_of question.now) (step_of question.now) self.old }
        requires fit { TaskIsFit (context_of question.now) self.old.unfolded task }
        ensures goes_on { IfOk result (GoesOnIf (context_of question.now) (step_of question.now)
            self.old self.new
            (todo_of (context_of question.now) self.old.unfolded task.entry)) }
        ensures ready { OnOk result (IsFinding (context_of question.now) (step_of question.now)
            self.new) }
        ensures searcher { IsSearcherOf (scenario_of question.now) searcher.new }
    {
        match task {
            Task::Visit(tree) => {
                self.visit(question, searcher, tree)?;
                Ok(true)
            }
            Task::Right { left, right, found } => {
                if self.found.len() > found {
                    return Ok(true);
                }
                self.tasks.push(Task::Check { left, found })?;
                self.tasks.push(Task::Visit(right))?;
                Ok(true)
            }
            Task::Check { left, found } => self.check(question, searcher, left, found),
        }
    }

    // Visits a tree.
    fn visit(
        &mut self,
        question: &Question<'_>,
        searcher: &mut Searcher,
        tree: Later<'a>,
    ) -> Result<(), Memory>
        requires searcher { IsSearcherOf (scenario_of question.now) searcher.old }
        requires shown { IsShownIn (scenario_of question.now) (step_of question.now) }
        requires ready { IsFinding (context_of question.now) (step_of question.now) self.old }
        requires fit { IsFit (context_of question.now) self.old.unfolded tree }
        ensures goes_on { OnOk result (GoesOn (context_of question.now) (step_of question.now)
            self.old self.new
            (visit (tree_in (context_of question.now) self.old.unfolded tree.entry))) }
        ensures searcher { IsSearcherOf (scenario_of question.now) searcher.new }
    {
        match self.unfolded.unfold(tree)? {
            Root::Leaf(offer) => self.visit_leaf(question, searcher, offer),
            Root::Order(left, right) => {
                let found = self.found.len();
                self.tasks.push(Task::Right { left, right, found })?;
                self.tasks.push(Task::Visit(left))?;
                Ok(())
            }
            Root::Choice(parts, rules) => {
                self.visit_parts(question, searcher, Choice { parts, rules })
            }
        }
    }

    // Visits a leaf.
    fn visit_leaf(
        &mut self,
        question: &Question<'_>,
        searcher: &mut Searcher,
        offer: Offer,
    ) -> Result<(), Memory>
        requires searcher { IsSearcherOf (scenario_of question.now) searcher.old }
        requires shown { IsShownIn (scenario_of question.now) (step_of question.now) }
        requires ready { IsFinding (context_of question.now) (step_of question.now) self.old }
        requires within { OfferIsWithin self.old.unfolded offer }
        requires passes { NumbersPass (context_of question.now)
            (leaf (leaf_in (context_of question.now) self.old.unfolded offer)) }
        ensures goes_on { OnOk result (GoesOn (context_of question.now) (step_of question.now)
            self.old self.new
            (visit (leaf (leaf_in (context_of question.now) self.old.unfolded offer)))) }
        ensures searcher { IsSearcherOf (scenario_of question.now) searcher.new }
    {
        let Offer::Go(instant) = offer else {
            return Ok(());
        };
        if !self
            .judge
            .passes(question, searcher, &self.unfolded, instant)?
        {
            return Ok(());
        }
        self.found.push(instant)?;
        Ok(())
    }

    // Lets the parts of a choice wait that have a positive weight.
    fn visit_parts(
        &mut self,
        question: &Question<'_>,
        searcher: &mut Searcher,
        choice: Choice<'a>,
    ) -> Result<(), Memory>
        requires searcher { IsSearcherOf (scenario_of question.now) searcher.old }
        requires shown { IsShownIn (scenario_of question.now) (step_of question.now) }
        requires ready { IsFinding (context_of question.now) (step_of question.now) self.old }
        requires within { ChoiceIsWithin self.old.unfolded choice }
        requires passes { NumbersPass (context_of question.now)
            (choice_tree (context_of question.now) self.old.unfolded choice) }
        ensures goes_on { OnOk result (GoesOn (context_of question.now) (step_of question.now)
            self.old self.new
            (visit (choice_tree (context_of question.now) self.old.unfolded choice.entry))) }
        ensures searcher { IsSearcherOf (scenario_of question.now) searcher.new }
    {
        if !self
            .judge
            .weigh(question, searcher, &self.unfolded, choice)?
        {
            return Ok(());
        }
        self.parts.clear();
        push_parts(
            &mut self.unfolded,
            choice,
            &searcher.weights,
            &mut self.parts,
        )?;
        push_visits(&mut self.tasks, &self.parts)?;
        Ok(())
    }

    // Lets go what was found in the right tree of an order where the left one lives, or else a search was given up.
    fn check(
        &mut self,
        question: &Question<'_>,
        searcher: &mut Searcher,
        left: Later<'a>,
        found: usize,
    ) -> Result<bool, Memory>
        requires searcher { IsSearcherOf (scenario_of question.now) searcher.old }
        requires shown { IsShownIn (scenario_of question.now) (step_of question.now) }
        requires ready { IsFinding (context_of question.now) (step_of question.now) self.old }
        requires fit { IsFit (context_of question.now) self.old.unfolded left }
        ensures goes_on { IfOk result (GoesOnIf (context_of question.now) (step_of question.now)
            self.old self.new
            (check (tree_in (context_of question.now) self.old.unfolded left.entry) found)) }
        ensures ready { OnOk result (IsFinding (context_of question.now) (step_of question.now)
            self.new) }
        ensures searcher { IsSearcherOf (scenario_of question.now) searcher.new }
    {
        if self.found.len() <= found {
            return Ok(true);
        }
        let Some(lives) = self.lives(question, searcher, left)? else {
            return Ok(false);
        };
        if !lives {
            return Ok(true);
        }
        self.found.truncate(found);
        Ok(true)
    }

    // Whether a live leaf can be reached in a tree; nothing where a search was given up.
    fn lives(
        &mut self,
        question: &Question<'_>,
        searcher: &mut Searcher,
        tree: Later<'a>,
    ) -> Result<Option<bool>, Memory>
        requires searcher { IsSearcherOf (scenario_of question.now) searcher.old }
        requires fit { IsFit (context_of question.now) self.old.unfolded tree }
        ensures lives { IfOk result (λ answer. IfSome answer (λ lives. lives ≡
            lives_in (context_of question.now)
            (tree_in (context_of question.now) self.old.unfolded tree.entry))) }
        ensures stays { OnOk result (Stays self.old self.new) }
        ensures searcher { IsSearcherOf (scenario_of question.now) searcher.new }
    {
        self.waiting.clear();
        self.waiting.push(tree)?;
        while let Some(later) = self.waiting.pop() {
            match self.root_lives(question, searcher, later)? {
                Some(false) => {}
                Some(true) => return Ok(Some(true)),
                None => return Ok(None),
            }
        }
        Ok(Some(false))
    }

    // Whether a tree is a live leaf; nothing where its search was given up. The trees below its root wait, if it has such.
    fn root_lives(
        &mut self,
        question: &Question<'_>,
        searcher: &mut Searcher,
        tree: Later<'a>,
    ) -> Result<Option<bool>, Memory>
        requires searcher { IsSearcherOf (scenario_of question.now) searcher.old }
        requires fit { IsFit (context_of question.now) self.old.unfolded tree }
        requires waiting { All (IsFit (context_of question.now) self.old.unfolded)
            self.old.waiting.items }
        ensures lives { IfOk result (IsLifeOf (context_of question.now)
            (tree_in (context_of question.now) self.old.unfolded tree.entry) self.old self.new) }
        ensures stays { OnOk result (Stays self.old self.new) }
        ensures searcher { IsSearcherOf (scenario_of question.now) searcher.new }
    {
        match self.unfolded.unfold(tree)? {
            Root::Leaf(offer) => self.judge.lives(question, searcher, &self.unfolded, offer),
            Root::Order(left, right) => {
                self.waiting.push(right)?;
                self.waiting.push(left)?;
                Ok(Some(false))
            }
            Root::Choice(parts, rules) => {
                self.choice_lives(question, searcher, Choice { parts, rules })
            }
        }
    }

    // The same of a choice: it is live where a weight has a fault.
    fn choice_lives(
        &mut self,
        question: &Question<'_>,
        searcher: &mut Searcher,
        choice: Choice<'a>,
    ) -> Result<Option<bool>, Memory>
        requires searcher { IsSearcherOf (scenario_of question.now) searcher.old }
        requires within { ChoiceIsWithin self.old.unfolded choice }
        requires passes { NumbersPass (context_of question.now)
            (choice_tree (context_of question.now) self.old.unfolded choice) }
        requires waiting { All (IsFit (context_of question.now) self.old.unfolded)
            self.old.waiting.items }
        ensures lives { IfOk result (IsLifeOf (context_of question.now)
            (choice_tree (context_of question.now) self.old.unfolded choice.entry) self.old
            self.new) }
        ensures stays { OnOk result (Stays self.old self.new) }
        ensures searcher { IsSearcherOf (scenario_of question.now) searcher.new }
    {
        if !self
            .judge
            .weigh(question, searcher, &self.unfolded, choice)?
        {
            return Ok(Some(true));
        }
        push_parts(
            &mut self.unfolded,
            choice,
            &searcher.weights,
            &mut self.waiting,
        )?;
        Ok(Some(false))
    }
}

// Lets trees wait for a visit.
fn push_visits<'a>(tasks: &mut Vec<Task<'a>>, trees: &[Later<'a>]) -> Result<(), AllocError>
    ensures { OnOk result (tasks.new.items ≡ tasks.old.items ++ map visit_task trees.now) }
{
    for tree in trees {
        tasks.push(Task::Visit(*tree))?;
    }
    Ok(())
}
