//! What waits for a leaf of a part of a term.

ghost use Rattle.std.specs.Prelude.{◌≡◌, ◌≤◌, ℕ, IsTrue, OnOk, length};
ghost use Rattle.lt_term.specs.Unfolded.{Instant, with_local_of};
ghost use Rattle.lt_term.specs.UnfoldedView.{rule_of, scope_at};
ghost use Rattle.lt_term.specs.inner.Linked.{are_linked};

use crate::last::Last;
use crate::memory::Memory;
use crate::term::Term;
use std::rc::Rc;

/// What the rule of a term makes of a leaf of its part.
#[derive(Clone, Copy)]
pub(crate) enum Waiting<'a> {
    /// The second part of a sequence comes after it.
    Seq(&'a Rc<Term>),

    /// A loop over this part begins anew after it.
    Turn(&'a Rc<Term>),

    /// A counted loop over this part begins anew after it, with one more turn done.
    Again {
        counter: u32,
        done: u64,
        body: &'a Rc<Term>,
    },

    /// The other side stands beside it.
    Par(&'a Rc<Term>),

    /// An instant of the first side, by number, is joined with it.
    Joined(u32),

    /// An expression holds with it.
    Assert(u32),

    /// A local is in scope.
    Exist {
        local: u32,
        last: Last,
    },

    /// A handler waits for an exception.
    Catch {
        exception: u32,
        handler: &'a Rc<Term>,
    },

    /// Another term stands for where nothing can be done.
    Try(&'a Rc<Term>),
}

/// A rule, and the number of the one outside of it; 0 where there is none.
#[derive(Clone, Copy)]
pub(crate) struct Link<'a> {
    pub(crate) rule: Waiting<'a>,
    pub(crate) outer: u32,
}

/// Writes the locals in scope of a tree under rules over what is in a list, the outermost first.
pub(crate) fn put_scope(
    links: &[Link],
    rules: u32,
    locals: &mut Vec<(u32, Last)>,
) -> Result<(), Memory>
    requires linked { IsTrue (are_linked 1 links.now) }
    requires within { rules ≤ length links.now }
    ensures { OnOk result (locals.new.items ≡ scope_at links.now rules) }
{
    locals.clear();
    let mut number = rules;
    while number > 0 {
        let link = links[number as usize - 1];
        put_local(link.rule, locals)?;
        number = link.outer;
    }
    Ok(())
}

// Puts the local of a rule, if it has one, before others.
fn put_local(rule: Waiting, locals: &mut Vec<(u32, Last)>) -> Result<(), Memory>
    ensures { OnOk result ((at : ℕ → Instant ℕ) → locals.new.items ≡
        with_local_of (rule_of at rule.entry) locals.old.items) }
{
    if let Waiting::Exist { local, last } = rule {
        locals.insert(0, (local, last))?;
    }
    Ok(())
}
