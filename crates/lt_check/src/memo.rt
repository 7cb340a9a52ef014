//! Which constraints hold in a step, as far as it was asked.

ghost use Rattle.std.specs.Prelude.{◌≡◌, ◌≤◌, ℕ, All, Bool, true, IfOk, OnOk};
ghost use Rattle.lt_term.specs.Tree.{Lasts};

use lt_term::{Last, Memory};
use std::alloc::{AllocError, Global};

/// Which constraints hold where a step shows the values, as far as it was asked: by number, and where these locals are in scope.
/// It is told anew once the step or the last value of a local changes.
#[derive(Drop)]
pub(crate) struct Memo {
    // When each was told, and what.
    told: Vec<(u64, bool)>,

    // What was told before this counts no more.
    time: u64,

    // The locals in scope.
    lasts: Vec<(u32, Last)>,
    ghost past: { All (λ entry. entry.0 ≤ time) told.items },
}

impl Memo {
    ghost use Rattle.lt_check.specs.inner.MemoView.{Tells, told_of};

    /// One for so many constraints, of which nothing is told.
    pub fn make(alloc: Global, count: usize) -> Result<Memo, Memory> {
        Ok(Memo {
            told: vec![in alloc; (0, false); count]?,
            time: 1,
            lasts: Vec::new(alloc),
        })
    }

    /// Forgets all.
    ///
    /// # Errors
    ///
    /// What was told can't be told from what is: no run gets so far.
    pub fn forget(&mut self) -> Result<(), Memory>
        ensures { OnOk result ((holds : Lasts → ℕ → Bool) → Tells holds self.new) }
    {
        if self.time == u64::MAX {
            return Err(Memory);
        }
        self.time += 1;
        Ok(())
    }

    /// Goes on to where these locals are in scope.
    pub fn go_to(&mut self, lasts: &[(u32, Last)]) -> Result<(), Memory>
        ensures lasts { OnOk result (self.new.lasts.items ≡ lasts.now) }
        ensures tells { OnOk result ((holds : Lasts → ℕ → Bool) → Tells holds self.old →
            Tells holds self.new) }
    {
        if are_same(&self.lasts, lasts) {
            return Ok(());
        }
        self.forget()?;
        put(&mut self.lasts, lasts)?;
        Ok(())
    }

    /// What is told of a constraint, if anything is.
    pub fn told(&self, constraint: u32) -> Option<bool>
        ensures { result ≡ told_of self.now constraint }
    {
        match self.told.get(constraint as usize) {
            Some((time, holds)) => {
                if *time == self.time {
                    Some(*holds)
                } else {
                    None
                }
            }
            None => None,
        }
    }

    /// Keeps whether a constraint holds.
    pub fn keep(&mut self, constraint: u32, holds: bool)
        ensures lasts { self.new.lasts.items ≡ self.old.lasts.items }
        ensures tells { (are : Lasts → ℕ → Bool) → holds ≡ are self.old.lasts.items constraint →
            Tells are self.old → Tells are self.new }
    {
        let number = constraint as usize;
        if number < self.told.len() {
            self.told[number] = (self.time, holds);
        }
    }
}

// Writes locals over what is in a list.
fn put(lasts: &mut Vec<(u32, Last)>, from: &[(u32, Last)]) -> Result<(), AllocError>
    ensures { OnOk result (lasts.new.items ≡ from.now) }
{
    lasts.clear();
    for last in from {
        lasts.push(*last)?;
    }
    Ok(())
}

// Whether these are the same locals, with the same last values.
fn are_same(one: &[(u32, Last)], other: &[(u32, Last)]) -> bool
    ensures { result ≡ true → one.now ≡ other.now }
{
    if one.len() != other.len() {
        return false;
    }
    for (number, (local, last)) in one.iter().enumerate() {
        let (other_local, other_last) = other[number];
        if *local != other_local || !is_same(*last, other_last) {
            return false;
        }
    }
    true
}

// Whether these are the same last values.
fn is_same(one: Last, other: Last) -> bool
    ensures { result ≡ true → one ≡ other }
{
    match one {
        Last::First => matches!(other, Last::First),
        Last::Kept(value) => match other {
            Last::First => false,
            Last::Kept(kept) => value == kept,
        },
    }
}
