//! Instants by number, each of what it is made of.

ghost use Rattle.std.specs.Prelude.{◌≡◌, ◌<◌, ◌++◌, ℕ, IfOk, IsTrue, List, OnOk, length};
ghost use Rattle.lt_num.specs.declared.kind.Kind.{Kind};
ghost use Rattle.lt_term.specs.Process.{eps};
ghost use Rattle.lt_term.specs.Unfolded.{Instant, instant_by};
ghost use Rattle.lt_term.specs.UnfoldedView.{instant_at, rule_of};
ghost use Rattle.lt_term.specs.View.{kinds_of, process};
ghost use Rattle.lt_term.specs.inner.Linked.{are_made, is_sound};

use crate::last::Last;
use crate::memory::Memory;
use crate::next::{asserted, caught, scoped, sequence, side_by_side, tried};
use crate::offering::{once_more, one_more_done};
use crate::rules::start_of;
use crate::term::Term;
use crate::variable::Var;
use crate::waiting::Waiting;
use std::alloc::Global;
use std::rc::Rc;

/// What an instant is made of.
#[derive(Clone, Copy)]
pub(crate) enum Made<'a> {
    /// An expression that holds in it, and nothing after it.
    Con(u32),

    /// An earlier instant, by number, and what a rule makes of it.
    Under { inner: u32, rule: Waiting<'a> },
}

/// Puts the constraints of an instant and its locals behind others.
#[cycle(put_instant)]
pub(crate) fn put_instant(
    instants: &[Made],
    number: u32,
    constraints: &mut Vec<u32>,
    locals: &mut Vec<(u32, Last)>,
) -> Result<(), Memory>
    requires made { IsTrue (are_made 0 instants.now) }
    requires within { number < length instants.now }
    ensures constraints { OnOk result ((kinds : List Kind) → constraints.new.items ≡
        constraints.old.items ++ (instant_at kinds instants.now number).constraints) }
    ensures locals { OnOk result ((kinds : List Kind) → locals.new.items ≡
        locals.old.items ++ (instant_at kinds instants.now number).locals) }
{
    match instants[number as usize] {
        Made::Con(constraint) => {
            constraints.push(constraint)?;
            Ok(())
        }
        Made::Under { inner, rule } => match rule {
            Waiting::Joined(first) => {
                put_instant(instants, first, constraints, locals)?;
                put_instant(instants, inner, constraints, locals)
            }
            Waiting::Assert(constraint) => {
                constraints.push(constraint)?;
                put_instant(instants, inner, constraints, locals)
            }
            Waiting::Exist { local, last } => {
                locals.push((local, last))?;
                put_instant(instants, inner, constraints, locals)
            }
            _ => put_instant(instants, inner, constraints, locals),
        },
    }
}

/// What comes after an instant.
#[cycle(next_of)]
pub(crate) fn next_of(
    alloc: Global,
    locals: &[Var],
    instants: &[Made],
    nothing: &Rc<Term>,
    number: u32,
) -> Result<Rc<Term>, Memory>
    requires made { IsTrue (are_made 0 instants.now) }
    requires within { number < length instants.now }
    requires nothing { process nothing.now.value ≡ eps }
    ensures { IfOk result (λ t. process t.value ≡
        (instant_at (kinds_of locals.now) instants.now number).next) }
{
    match instants[number as usize] {
        Made::Con(_) => Ok(nothing.clone()?),
        Made::Under { inner, rule } => {
            let next = next_of(alloc, locals, instants, nothing, inner)?;
            if let Waiting::Joined(first) = rule {
                let other = next_of(alloc, locals, instants, nothing, first)?;
                Ok(side_by_side(alloc, &other, next)?)
            } else {
                after(alloc, locals, rule, next)
            }
        }
    }
}

// What comes after an instant that a rule makes of one.
fn after(alloc: Global, locals: &[Var], rule: Waiting, next: Rc<Term>) -> Result<Rc<Term>, Memory>
    // It names no other instant.
    requires { IsTrue (is_sound 0 rule) }
    ensures { IfOk result (λ t. (at : ℕ → Instant ℕ) (i : Instant ℕ) →
        i.next ≡ process next.value → process t.value ≡
        (instant_by (kinds_of locals.now) (rule_of at rule.entry) i).next) }
{
    match rule {
        Waiting::Seq(second) => Ok(sequence(alloc, next, second)?),
        Waiting::Turn(body) => {
            let again = once_more(alloc, body)?;
            Ok(sequence(alloc, next, &again)?)
        }
        Waiting::Again {
            counter,
            done,
            body,
        } => {
            let again = one_more_done(alloc, counter, done, body)?;
            Ok(sequence(alloc, next, &again)?)
        }
        Waiting::Assert(constraint) => Ok(asserted(alloc, constraint, next)?),
        Waiting::Exist { local, last } => {
            let start = start_of(locals, local);
            Ok(scoped(alloc, start, local, last, next)?)
        }
        Waiting::Catch { exception, handler } => Ok(caught(alloc, exception, next, handler)?),
        Waiting::Try(otherwise) => Ok(tried(alloc, next, otherwise)?),
        Waiting::Par(_) | Waiting::Joined(_) => Ok(next),
    }
}
