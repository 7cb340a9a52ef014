//! The diagram itself, whose branches have numbers.

ghost use Rattle.std.specs.Prelude.{◌≡◌, ◌+◌, ◌<◌, IfSome, IfNone, length, nat_eq};
ghost use Rattle.lt_diagram.specs.Branches.{AreOnce, AreSound};

use crate::branch::Branch;

/// A decision diagram: branches, and the number that it begins at, which is 0 for false, 1 for true, or n + 2 for the branch
/// at place n, as the sides of branches are. A side stands before its branch and asks a greater flag, the two sides of a
/// branch differ, and each branch stands there once. Not every branch need be on a way down from the beginning.
#[derive(Drop)]
pub struct Diagram {
    nodes: Vec<Branch>,
    root: u32,
    ghost root_within: { root < length nodes.items + 2 },
    ghost sound: { AreSound nodes.items },
    ghost once: { AreOnce nodes.items },
}

impl Diagram {
    ghost use Rattle.lt_diagram.specs.Branches.{IsFrom};
    ghost use Rattle.lt_diagram.specs.DiagramView.{IsBranch, NamesBelow, branches_of, number_choice};
    ghost use Rattle.lt_diagram.specs.inner.Ways.{StartsAfter, decided};

    /// The diagram of these branches, which begins at this number.
    pub(crate) fn new(nodes: Vec<Branch>, root: u32) -> Diagram
        requires root { root < length nodes.items + 2 }
        requires sound { AreSound nodes.items }
        requires once { AreOnce nodes.items }
        ensures branches { branches_of result ≡ nodes.items }
        ensures root { result.root ≡ root }
    {
        Diagram { nodes, root }
    }

    /// The number that the diagram begins at.
    pub(crate) fn root(&self) -> u32
        ensures root { result ≡ self.now.root }
        ensures within { result < length (branches_of self.now) + 2 }
    {
        self.root
    }

    /// The branch of a number; 0 and 1 have none.
    pub(crate) fn branch(&self, number: u32) -> Option<Branch>
        requires { number < length (branches_of self.now) + 2 }
        ensures some { IfSome result (λ branch. IsBranch self.now number branch) }
        ensures none { IfNone result (number < 2) }
        ensures truth { IfNone result (number_choice self.now number ≡ decided (nat_eq number 1)) }
    {
        if number < 2 {
            return None;
        }
        Some(self.nodes[number as usize - 2])
    }

    /// The branch of a number, if it asks this flag. The number stands for what asks none below it.
    pub(crate) fn asked(&self, number: u32, atom: usize) -> Option<Branch>
        requires number { number < length (branches_of self.now) + 2 }
        requires from { IsFrom atom (branches_of self.now) number }
        ensures some { IfSome result (λ branch. IsBranch self.now number branch) }
        ensures asks { IfSome result (λ branch. branch.atom ≡ atom) }
        ensures none { IfNone result (StartsAfter atom (number_choice self.now number)) }
        ensures greater { IfNone result (IsFrom (atom + 1) (branches_of self.now) number) }
    {
        let branch = self.branch(number)?;
        if branch.atom as usize == atom {
            Some(branch)
        } else {
            None
        }
    }

    /// The truth that a number stands for, where no flag is left to be asked.
    pub(crate) fn truth(&self, number: u32, atoms: usize) -> bool
        requires number { number < length (branches_of self.now) + 2 }
        requires from { IsFrom atoms (branches_of self.now) number }
        requires below { NamesBelow atoms self.now }
        ensures { number_choice self.now number ≡ decided result }
    {
        number == 1
    }
}
