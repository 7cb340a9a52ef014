//! Going on from an instant.

ghost use Rattle.std.specs.Prelude.{◌≡◌, ℕ, IfOk};
ghost use Rattle.lt_formula.specs.Expression.{Expression};
ghost use Rattle.lt_term.specs.Advanced.{advanced, advanced_each, next_last, value_among};
ghost use Rattle.lt_term.specs.Counted.{IsDoneTo};
ghost use Rattle.lt_term.specs.Process.{with_constraints};
ghost use Rattle.lt_term.specs.View.{choices, process};
ghost use Rattle.lt_term.specs.Within.{Tests, passes};
ghost use Rattle.lt_term.specs.inner.Entered.{has_value, is_entered, is_entered_anywhere};
ghost use Rattle.lt_term.specs.inner.Renewed.{choices_of, first_of, part_of, second_of, term_of};

use crate::last::Last;
use crate::memory::Memory;
use crate::next::shared;
use crate::term::Term;
use lt_num::Value;
use std::alloc::{AllocError, Global};
use std::rc::Rc;

// Two parts, of which at least one is new.
#[derive(Drop)]
struct Both {
    first: Rc<Term>,
    second: Rc<Term>,
}

/// A term with the values of an instant in each scope that is entered: the first of these values that is its local's.
/// A local that is not among them keeps its value, and a scope that is not entered stays so. Parts in which no scope is
/// entered are shared with the term.
pub fn advance(alloc: Global, term: &Term, values: &[(u32, Value)]) -> Result<Term, Memory>
    ensures numbers { IfOk result (λ t. process t ≡ advanced values.now (process term.now)) }
    // It is the one of the rules, too, with whatever the numbers of constraints stand for.
    ensures expressions { IfOk result (λ t. (meaning : ℕ → Expression) →
        with_constraints meaning (process t) ≡
        advanced values.now (with_constraints meaning (process term.now))) }
    ensures passes { IfOk result (λ t. (tests : Tests ℕ) →
        passes tests (process t) ≡ passes tests (process term.now)) }
    ensures done { IfOk result (λ t. (k : ℕ) → IsDoneTo k (process term.now) →
        IsDoneTo k (process t)) }
{
    let next = renewed(alloc, term, values)?;
    Ok(next)
}

// The term with the values.
#[cycle(advance)]
fn renewed(alloc: Global, term: &Term, values: &[(u32, Value)]) -> Result<Term, AllocError>
    ensures { IfOk result (λ t. process t ≡ advanced values.now (process term.now)) }
{
    match go_on(alloc, term, values)? {
        None => term.clone(),
        Some(next) => Ok(next),
    }
}

// The term with the values, and nothing where no scope of it is entered.
#[cycle(advance)]
fn go_on(alloc: Global, term: &Term, values: &[(u32, Value)]) -> Result<Option<Term>, AllocError>
    ensures { IfOk result (λ t. process (term_of term.now t) ≡
        advanced values.now (process term.now)) }
{
    match term {
        Term::Eps | Term::Dead | Term::Con(_) | Term::Raise(_) => Ok(None),
        Term::Seq(first, second) => match go_on_both(alloc, first, second, values)? {
            None => Ok(None),
            Some(both) => Ok(Some(Term::Seq(both.first, both.second))),
        },
        Term::Loop(body) => match go_on_part(alloc, body, values)? {
            None => Ok(None),
            Some(body) => Ok(Some(Term::Loop(body))),
        },
        Term::Count {
            counter,
            done,
            body,
        } => match go_on_part(alloc, body, values)? {
            None => Ok(None),
            Some(body) => Ok(Some(Term::Count {
                counter: *counter,
                done: *done,
                body,
            })),
        },
        Term::Any(parts) => match go_on_each(alloc, parts, values)? {
            None => Ok(None),
            Some(parts) => Ok(Some(Term::Any(parts))),
        },
        Term::Pri(first, second) => match go_on_both(alloc, first, second, values)? {
            None => Ok(None),
            Some(both) => Ok(Some(Term::Pri(both.first, both.second))),
        },
        Term::Par(first, second) => match go_on_both(alloc, first, second, values)? {
            None => Ok(None),
            Some(both) => Ok(Some(Term::Par(both.first, both.second))),
        },
        Term::Assert(constraint, body) => match go_on_part(alloc, body, values)? {
            None => Ok(None),
            Some(body) => Ok(Some(Term::Assert(*constraint, body))),
        },
        Term::Exist { local, last, body } => {
            let new_body = go_on_part(alloc, body, values)?;
            match (*last, new_body) {
                (Last::First, None) => Ok(None),
                (last, new_body) => Ok(Some(Term::Exist {
                    local: *local,
                    last: next_last(last, *local, values),
                    body: new_or_old(new_body, body)?,
                })),
            }
        }
        Term::Catch {
            exception,
            body,
            otherwise,
        } => match go_on_both(alloc, body, otherwise, values)? {
            None => Ok(None),
            Some(both) => Ok(Some(Term::Catch {
                exception: *exception,
                body: both.first,
                otherwise: both.second,
            })),
        },
        Term::Try { body, otherwise } => match go_on_both(alloc, body, otherwise, values)? {
            None => Ok(None),
            Some(both) => Ok(Some(Term::Try {
                body: both.first,
                otherwise: both.second,
            })),
        },
    }
}

// A part with the values, and nothing where no scope of it is entered.
#[cycle(advance)]
fn go_on_part(
    alloc: Global,
    part: &Rc<Term>,
    values: &[(u32, Value)],
) -> Result<Option<Rc<Term>>, AllocError>
    ensures { IfOk result (λ t. process (part_of part.now.value t) ≡
        advanced values.now (process part.now.value)) }
{
    match go_on(alloc, part, values)? {
        None => Ok(None),
        Some(next) => Ok(Some(shared(alloc, next)?)),
    }
}

// Two parts with the values, and nothing where no scope of them is entered.
#[cycle(advance)]
fn go_on_both(
    alloc: Global,
    first: &Rc<Term>,
    second: &Rc<Term>,
    values: &[(u32, Value)],
) -> Result<Option<Both>, AllocError>
    ensures first { IfOk result (λ b. process (first_of first.now.value b) ≡
        advanced values.now (process first.now.value)) }
    ensures second { IfOk result (λ b. process (second_of second.now.value b) ≡
        advanced values.now (process second.now.value)) }
{
    let new_first = go_on_part(alloc, first, values)?;
    let new_second = go_on_part(alloc, second, values)?;
    both_of(first, new_first, second, new_second)
}

// Two parts, where at least one is new, and else nothing.
fn both_of(
    first: &Rc<Term>,
    new_first: Option<Rc<Term>>,
    second: &Rc<Term>,
    new_second: Option<Rc<Term>>,
) -> Result<Option<Both>, AllocError>
    ensures first { IfOk result (λ b. process (first_of first.now.value b) ≡
        process (part_of first.now.value new_first)) }
    ensures second { IfOk result (λ b. process (second_of second.now.value b) ≡
        process (part_of second.now.value new_second)) }
{
    match (new_first, new_second) {
        (None, None) => Ok(None),
        (new_first, new_second) => Ok(Some(Both {
            first: new_or_old(new_first, first)?,
            second: new_or_old(new_second, second)?,
        })),
    }
}

// The parts of a choice with the values, and nothing where no scope of them is entered.
#[cycle(advance)]
fn go_on_each(
    alloc: Global,
    parts: &Vec<(u32, Term)>,
    values: &[(u32, Value)],
) -> Result<Option<Vec<(u32, Term)>>, AllocError>
    ensures { IfOk result (λ v. choices (choices_of parts.now.items v) ≡
        advanced_each values.now (choices parts.now.items)) }
{
    if !is_entered_anywhere(parts) {
        return Ok(None);
    }
    let mut made = Vec::new(alloc);
    for (weight, part) in parts {
        made.push((*weight, renewed(alloc, part, values)?))?;
    }
    Ok(Some(made))
}

// A new part, if there is one, or else the old one.
fn new_or_old(new: Option<Rc<Term>>, old: &Rc<Term>) -> Result<Rc<Term>, AllocError>
    ensures { IfOk result (λ t. process t.value ≡ process (part_of old.now.value new)) }
{
    match new {
        None => old.clone(),
        Some(part) => Ok(part),
    }
}

// Whether a scope of a term is entered.
#[cycle(entered)]
fn is_entered(term: &Term) -> bool
    ensures { result ≡ is_entered (process term.now) }
{
    match term {
        Term::Eps | Term::Dead | Term::Con(_) | Term::Raise(_) => false,
        Term::Seq(first, second) | Term::Pri(first, second) | Term::Par(first, second) => {
            is_entered(first) || is_entered(second)
        }
        Term::Loop(body) | Term::Count { body, .. } | Term::Assert(_, body) => is_entered(body),
        Term::Any(parts) => is_entered_anywhere(parts),
        Term::Exist { last, body, .. } => has_value(*last) || is_entered(body),
        Term::Catch {
            body,
            otherwise,
            ..
        } => is_entered(body) || is_entered(otherwise),
        Term::Try { body, otherwise } => is_entered(body) || is_entered(otherwise),
    }
}

// Whether a scope of a part of a choice is entered.
#[cycle(entered)]
fn is_entered_anywhere(parts: &Vec<(u32, Term)>) -> bool
    ensures { result ≡ is_entered_anywhere (choices parts.now.items) }
{
    for (_, part) in parts {
        if is_entered(part) {
            return true;
        }
    }
    false
}

// Whether a local had a value.
fn has_value(last: Last) -> bool
    ensures { result ≡ has_value last }
{
    match last {
        Last::First => false,
        Last::Kept(_) => true,
    }
}

// The last value of a local after the instant.
fn next_last(last: Last, local: u32, values: &[(u32, Value)]) -> Last
    ensures { result ≡ next_last values.now local last }
{
    match last {
        Last::First => Last::First,
        Last::Kept(value) => Last::Kept(value_among(values, local, value)),
    }
}

// The value of a local among these, or the one that it has.
fn value_among(values: &[(u32, Value)], local: u32, value: Value) -> Value
    ensures { result ≡ value_among values.now local value }
{
    for (other, found) in values {
        if *other == local {
            return *found;
        }
    }
    value
}
