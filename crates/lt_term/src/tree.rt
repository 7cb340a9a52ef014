//! Trees of what can be done in one instant.

use crate::last::Last;
use crate::term::Term;
use std::rc::Rc;

/// The weight of a tree to choose.
#[derive(Clone, Copy)]
pub enum Weight {
    /// What an expression says.
    Exp(u32),

    /// How many turns of a counter are left, of which so many are done.
    More { counter: u32, done: u64 },

    /// 1 where so many turns of a counter are enough, and else 0.
    Stop { counter: u32, done: u64 },
}

/// A node of a tree.
#[derive(Drop)]
pub enum TreeNode {
    /// A leaf at which nothing can be done.
    None,

    /// A leaf: the term is over, and takes no instant.
    Vanish,

    /// A leaf: an exception is raised.
    Raise(u32),

    /// The left one of two trees, or the right one where nothing can be done in the left one. The nodes
    /// of the left one follow this node, and then come those of the right one.
    Pri,

    /// One of as many trees as weights, whose nodes follow this node in turn, and the locals in scope of
    /// the weights.
    Any {
        weights: Vec<Weight>,
        lasts: Vec<(u32, Last)>,
    },

    /// A leaf: one instant in which these expressions hold, the locals in scope, and what comes after it.
    Go {
        constraints: Vec<u32>,
        lasts: Vec<(u32, Last)>,
        next: Rc<Term>,
    },
}

/// What a term offers in one instant.
#[derive(Drop)]
pub struct Tree {
    /// The nodes in preorder: each before those below it, and the left ones before the right ones.
    pub nodes: Vec<TreeNode>,
}
