//! A look at what one term offers.

ghost use Rattle.std.specs.Prelude.{◌≡◌, IfErr, IfOk};

use crate::asking::Asking;
use crate::leaves::leaves_from;
use crate::searcher::Searcher;
use crate::seeing::see;
use crate::sought::Sought;
use lt_instant::DrawContext;
use lt_legal::{Alive, Halt};
use lt_term::{Term, Tree};
use std::alloc::Global;

/// What one term offers in an instant, and what its leaves are searched with.
#[derive(Drop)]
pub(crate) struct Look<'a> {
    pub alloc: Global,

    /// What is known in the instant.
    pub context: DrawContext<'a>,

    /// What loads and searches.
    pub searcher: Searcher,

    /// The term.
    pub term: &'a Term,

    /// What it offers.
    pub tree: Tree,
}

impl Look<'_> {
    ghost use Rattle.lt_check.specs.inner.Fitting.{IsSoughtIn};
    ghost use Rattle.lt_check.specs.inner.Finding.{found_in};
    ghost use Rattle.lt_check.specs.inner.LookView.{IsFindingHalt, IsReady, look_lives, look_tree, look_worth};
    ghost use Rattle.lt_check.specs.inner.AskingView.{MayGiveUpOf};
    ghost use Rattle.lt_legal.specs.Asked.{IsHaltOf};
    ghost use Rattle.lt_check.specs.inner.SoughtView.{wanted};
    ghost use Rattle.lt_instant.specs.inner.DrawContextView.{scene_of};

    /// The numbers of the leaves that may be taken and are sought, the last ones first.
    ///
    /// # Errors
    ///
    /// Want of memory, or a search that was given up.
    pub fn find(&mut self, sought: Sought<'_>) -> Result<Vec<u32>, Halt>
        requires ready { IsReady self.old }
        requires sought { IsSoughtIn self.old.context.scenario.now sought }
        ensures ready { IsReady self.new }
        ensures finds { IfOk result (λ leaves. leaves.items ≡
            found_in (scene_of self.old.context) (look_worth self.old)
            (wanted (scene_of self.old.context) sought.entry) (look_tree self.old)) }
        ensures halts { IfErr result (IsFindingHalt self.old
            (wanted (scene_of self.old.context) sought.entry)) }
        ensures context { self.new.context ≡ self.old.context }
        ensures term { self.new.term.now ≡ self.old.term.now }
        ensures tree { self.new.tree ≡ self.old.tree }
    {
        let nodes = see(
            self.alloc,
            &self.context,
            &mut self.searcher,
            &self.tree.nodes,
            sought,
        )?;
        let mut asking = Asking {
            alloc: self.alloc,
            context: &self.context,
            term: self.term,
            tree: &self.tree,
        };
        leaves_from(self.alloc, &nodes, 0, &mut asking)
    }

    /// Whether a live leaf can be reached.
    ///
    /// # Errors
    ///
    /// Want of memory, or a search that was given up.
    pub fn is_live(&self) -> Result<bool, Halt>
        requires { IsReady self.now }
        ensures tells { IfOk result (λ lives. lives ≡ look_lives self.now) }
        ensures halts { IfErr result (IsHaltOf (MayGiveUpOf self.now.context self.now.term.now 0)) }
    {
        let mut asking = Asking {
            alloc: self.alloc,
            context: &self.context,
            term: self.term,
            tree: &self.tree,
        };
        asking.is_live(0)
    }
}
