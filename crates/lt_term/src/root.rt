//! The root of a tree, and the trees below it that are not unfolded yet.

ghost use Rattle.std.specs.Prelude.{◌≡◌, ◌++◌, ◌+◌, List, OnOk, length, map};
ghost use Rattle.lt_num.specs.declared.kind.Kind.{Kind};
ghost use Rattle.lt_term.specs.Tree.{expression, weights_of};
ghost use Rattle.lt_term.specs.TreeView.{weight};
ghost use Rattle.lt_term.specs.UnfoldedView.{branches_of, parts_count, term_of};
ghost use Rattle.lt_term.specs.View.{process};

use crate::memory::Memory;
use crate::term::Term;
use crate::tree::Weight;
use std::rc::Rc;

/// A leaf of a tree.
#[derive(Clone, Copy)]
pub enum Offer {
    /// Nothing can be done.
    Nothing,

    /// The term is over, and takes no instant.
    Vanish,

    /// An exception is raised.
    Raise(u32),

    /// An instant, by number.
    Go(u32),
}

/// A tree that is not unfolded yet: that of a term, under rules by number. With no term it is over.
#[derive(Clone, Copy)]
pub struct Later<'a> {
    pub(crate) term: Option<&'a Term>,
    pub(crate) rules: u32,
}

impl<'a> Later<'a> {
    /// The tree of a term, under rules.
    pub(crate) fn of(term: &'a Term, rules: u32) -> Later<'a>
        ensures term { term_of result ≡ process term.now }
        ensures rules { result.rules ≡ rules }
    {
        Later {
            term: Some(term),
            rules,
        }
    }
}

/// The parts of a choice.
#[derive(Clone, Copy)]
pub enum Parts<'a> {
    /// Terms, drawn by weight.
    Among(&'a Vec<(u32, Term)>),

    /// One more turn of a counted loop, and its end.
    Turns {
        counter: u32,
        done: u64,
        body: &'a Rc<Term>,
    },
}

impl<'a> Parts<'a> {
    /// Writes the weights of the parts over what is in a list.
    pub fn put_weights(self, weights: &mut Vec<Weight>) -> Result<(), Memory>
        ensures weights { OnOk result ((kinds : List Kind) →
            map weight weights.new.items ≡ weights_of (branches_of kinds self.entry)) }
        ensures count { OnOk result (length weights.new.items ≡ parts_count self.entry) }
    {
        weights.clear();
        match self {
            Parts::Among(parts) => put_expressions(parts, weights),
            Parts::Turns { counter, done, .. } => {
                weights.push(Weight::More { counter, done })?;
                weights.push(Weight::Stop { counter, done })?;
                Ok(())
            }
        }
    }
}

// Puts the weights of terms behind others.
fn put_expressions(parts: &Vec<(u32, Term)>, weights: &mut Vec<Weight>) -> Result<(), Memory>
    ensures weights { OnOk result (map weight weights.new.items ≡ map weight weights.old.items ++
        map (λ p. expression p.0) parts.now.items) }
    ensures count { OnOk result (length weights.new.items ≡
        length weights.old.items + length parts.now.items) }
{
    for (number, _) in parts {
        weights.push(Weight::Exp(*number))?;
    }
    Ok(())
}

/// The root of a tree.
#[derive(Clone, Copy)]
pub enum Root<'a> {
    /// A leaf: the whole tree.
    Leaf(Offer),

    /// The left one of two trees, or the right one where nothing can be done in the left one.
    Order(Later<'a>, Later<'a>),

    /// One of the parts, under rules by number.
    Choice(Parts<'a>, u32),
}
