//! Branches that grow, a formula's parts before the whole.

ghost use Rattle.std.specs.Prelude.{◌≡◌, ◌+◌, ◌<◌, ◌≤◌, ◌^◌, [], IfOk, IsTrue, OnOk, length};
ghost use Rattle.lt_diagram.specs.Branches.{AreBelow, AreSound};
ghost use Rattle.lt_diagram.specs.Limits.{most_flags};

use crate::branch::Branch;
use crate::trio::{Trio, picked};
use indexmap::IndexSet;
use lt_formula::Memory;
use lt_space::{Atom, Formula};
use std::alloc::Global;

// How many branches there may be at most: their numbers then fit `u32`. Memory ends long before.
const MOST_BRANCHES: usize = 1 << 31;

/// The branches of a diagram over so many flags, as far as they were needed. Each stands there once, behind its sides.
#[derive(Drop)]
pub(crate) struct Growing {
    flags: usize,
    branches: IndexSet<Branch>,
    ghost few_flags: { flags ≤ most_flags },
    ghost few: { length branches.keys ≤ 2 ^ 31 },
    ghost sound: { AreSound branches.keys },
    ghost below: { AreBelow flags branches.keys },
}

impl Growing {
    ghost use Rattle.lt_diagram.specs.Branches.{AreOnce, IsFrom};
    ghost use Rattle.lt_diagram.specs.Flags.{are_flags, is_flag};
    ghost use Rattle.lt_diagram.specs.inner.Grown.{Chooses, Grows, IsBehind, IsTrio, IsTrioBehind, Joins, Stands};
    ghost use Rattle.lt_diagram.specs.inner.GrowingView.{grown};
    ghost use Rattle.lt_space.specs.Formula.{atom as of_atom};
    ghost use Rattle.lt_space.specs.FormulaView.{formula_view};

    /// No branches, over at most 16 flags.
    pub(crate) fn new(alloc: Global, flags: usize) -> Growing
        requires { flags ≤ most_flags }
        ensures none { grown result ≡ [] }
        ensures flags { result.flags ≡ flags }
    {
        Growing {
            flags,
            branches: IndexSet::new(alloc),
        }
    }

    /// The branches that there are.
    pub(crate) fn branches(&self) -> &[Branch]
        ensures branches { result.now ≡ grown self.now }
        ensures sound { AreSound result.now }
        ensures once { AreOnce result.now }
        ensures below { AreBelow self.now.flags result.now }
    {
        self.branches.as_slice()
    }

    /// A number that stands for what a formula says, with new branches where it needs them.
    pub(crate) fn grow(&mut self, formula: &Formula) -> Result<u32, Memory>
        requires { IsTrue (are_flags self.old.flags (formula_view formula.now)) }
        ensures grows { Grows (grown self.old) (grown self.new) }
        ensures flags { self.new.flags ≡ self.old.flags }
        ensures stands { IfOk result (λ number.
            Stands (grown self.new) (formula_view formula.now) number) }
    {
        match formula {
            Formula::Truth(truth) => Ok(u32::from(*truth)),
            Formula::Atom(atom) => self.grow_atom(atom),
            Formula::Not(part) => {
                let part = self.grow(part)?;
                self.choose_of(part, 0, 1)
            }
            Formula::And(left, right) => {
                let left = self.grow(left)?;
                let right = self.grow(right)?;
                self.choose_of(left, right, 0)
            }
            Formula::Or(left, right) => {
                let left = self.grow(left)?;
                let right = self.grow(right)?;
                self.choose_of(left, 1, right)
            }
            Formula::Xor(left, right) => {
                let left = self.grow(left)?;
                let right = self.grow(right)?;
                let denied = self.choose_of(right, 0, 1)?;
                self.choose_of(left, denied, right)
            }
            Formula::If(condition, first, second) => {
                let condition = self.grow(condition)?;
                let first = self.grow(first)?;
                let second = self.grow(second)?;
                self.choose_of(condition, first, second)
            }
        }
    }

    // A number that stands for an atom, which is a flag; a comparison would count as false.
    fn grow_atom(&mut self, atom: &Atom) -> Result<u32, Memory>
        requires { IsTrue (is_flag self.old.flags atom.now) }
        ensures grows { Grows (grown self.old) (grown self.new) }
        ensures flags { self.new.flags ≡ self.old.flags }
        ensures stands { IfOk result (λ number. Stands (grown self.new) (of_atom atom.now) number) }
    {
        match atom {
            Atom::Flag(flag) => self.join(*flag, 0, 1),
            Atom::Compare(..) => Ok(0),
        }
    }

    // A number that stands for the first of two numbers where the condition is true, and else for the second.
    fn choose_of(&mut self, condition: u32, first: u32, second: u32) -> Result<u32, Memory>
        requires condition { condition < length (grown self.old) + 2 }
        requires first { first < length (grown self.old) + 2 }
        requires second { second < length (grown self.old) + 2 }
        ensures grows { Grows (grown self.old) (grown self.new) }
        ensures flags { self.new.flags ≡ self.old.flags }
        ensures chooses { IfOk result (λ number.
            Chooses (grown self.old) (grown self.new) 0
            (record { condition = condition; first = first; second = second }) number) }
    {
        let trio = Trio {
            condition,
            first,
            second,
        };
        self.choose(trio, 0)
    }

    // The same of a choice that asks no flag below this one: where the flag is false, and where it is true.
    fn choose(&mut self, trio: Trio, atom: u32) -> Result<u32, Memory>
        requires { IsTrio (grown self.old) atom trio }
        ensures grows { Grows (grown self.old) (grown self.new) }
        ensures flags { self.new.flags ≡ self.old.flags }
        ensures chooses { IfOk result (λ number.
            Chooses (grown self.old) (grown self.new) atom trio number) }
    {
        if let Some(number) = picked(trio) {
            return Ok(number);
        }
        let off = self.trio_behind(trio, atom, false);
        let on = self.trio_behind(trio, atom, true);
        if off == on {
            return self.choose(off, atom + 1);
        }
        let no = self.choose(off, atom + 1)?;
        let yes = self.choose(on, atom + 1)?;
        self.join(atom, no, yes)
    }

    // What a choice is where a flag has this truth.
    fn trio_behind(&self, trio: Trio, atom: u32, truth: bool) -> Trio
        requires { IsTrio (grown self.now) atom trio }
        ensures { IsTrioBehind (grown self.now) atom truth trio result }
    {
        Trio {
            condition: self.number_behind(trio.condition, atom, truth),
            first: self.number_behind(trio.first, atom, truth),
            second: self.number_behind(trio.second, atom, truth),
        }
    }

    // What a number that asks no flag below this one is where that has this truth.
    fn number_behind(&self, number: u32, atom: u32, truth: bool) -> u32
        requires within { number < length (grown self.now) + 2 }
        requires from { IsFrom atom (grown self.now) number }
        ensures { IsBehind (grown self.now) atom truth number result }
    {
        if number < 2 {
            return number;
        }
        let branch = self.branches.as_slice()[number as usize - 2];
        if branch.atom != atom {
            return number;
        }
        if truth { branch.yes } else { branch.no }
    }

    // A number for a branch with these sides: that of the side where both are the same, and else that of the branch, which
    // is put behind the others unless it is among them.
    fn join(&mut self, atom: u32, no: u32, yes: u32) -> Result<u32, Memory>
        requires atom { atom < self.old.flags }
        requires no { no < length (grown self.old) + 2 }
        requires yes { yes < length (grown self.old) + 2 }
        requires no_from { IsFrom (atom + 1) (grown self.old) no }
        requires yes_from { IsFrom (atom + 1) (grown self.old) yes }
        ensures grows { Grows (grown self.old) (grown self.new) }
        ensures flags { self.new.flags ≡ self.old.flags }
        ensures joins { IfOk result (λ number.
            Joins (grown self.old) (grown self.new) atom no yes number) }
    {
        if no == yes {
            return Ok(no);
        }
        if self.branches.len() >= MOST_BRANCHES {
            return Err(Memory);
        }
        let (place, _) = self.branches.insert_full(Branch { atom, no, yes })?;
        Ok(place as u32 + 2)
    }
}
