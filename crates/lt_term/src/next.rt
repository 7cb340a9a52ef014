//! What comes after an instant: round a term that is over there is nothing.
//!
//! The parts of what comes next are shared with the term that it comes from.

ghost use Rattle.std.specs.Prelude.{◌≡◌, IfOk};
ghost use Rattle.lt_term.specs.Next.{asserting, beside, catching, followed_by, kept, trying, with_scope};
ghost use Rattle.lt_term.specs.View.{process};

use crate::last::Last;
use crate::term::Term;
use lt_num::Value;
use std::alloc::{AllocError, Global};
use std::rc::Rc;

/// A term as a part of others.
pub(crate) fn shared(alloc: Global, term: Term) -> Result<Rc<Term>, AllocError>
    ensures { IfOk result (λ t. t.value ≡ term) }
{
    Ok(Rc::new(alloc, term)?)
}

/// What is left of a first term, and then the second.
pub(crate) fn sequence(
    alloc: Global,
    first: Rc<Term>,
    second: &Rc<Term>,
) -> Result<Rc<Term>, AllocError>
    ensures { IfOk result (λ t. process t.value ≡
        followed_by (process first.value) (process second.now.value)) }
{
    let second = second.clone()?;
    match &*first {
        Term::Eps => Ok(second),
        _ => shared(alloc, Term::Seq(first, second)),
    }
}

/// Two terms at once.
pub(crate) fn side_by_side(
    alloc: Global,
    first: &Rc<Term>,
    second: Rc<Term>,
) -> Result<Rc<Term>, AllocError>
    ensures { IfOk result (λ t. process t.value ≡
        beside (process first.now.value) (process second.value)) }
{
    let first = first.clone()?;
    match (&*first, &*second) {
        (Term::Eps, _) => Ok(second),
        (_, Term::Eps) => Ok(first),
        (_, _) => shared(alloc, Term::Par(first, second)),
    }
}

/// What is left of a term under a constraint.
pub(crate) fn asserted(
    alloc: Global,
    constraint: u32,
    body: Rc<Term>,
) -> Result<Rc<Term>, AllocError>
    ensures { IfOk result (λ t. process t.value ≡ asserting constraint (process body.value)) }
{
    match &*body {
        Term::Eps => Ok(body),
        _ => shared(alloc, Term::Assert(constraint, body)),
    }
}

/// What is left of a term with a local variable, which keeps the start where it had no value.
pub(crate) fn scoped(
    alloc: Global,
    start: Value,
    local: u32,
    last: Last,
    body: Rc<Term>,
) -> Result<Rc<Term>, AllocError>
    ensures { IfOk result (λ t. process t.value ≡
        with_scope local (kept start last) (process body.value)) }
{
    let last = kept_value(start, last);
    match &*body {
        Term::Eps => Ok(body),
        _ => shared(alloc, Term::Exist { local, last, body }),
    }
}

// What a local keeps until its next value is known.
fn kept_value(start: Value, last: Last) -> Last
    ensures { result ≡ kept start last }
{
    match last {
        Last::First => Last::Kept(start),
        Last::Kept(value) => Last::Kept(value),
    }
}

/// What is left of a term with a handler.
pub(crate) fn caught(
    alloc: Global,
    exception: u32,
    body: Rc<Term>,
    handler: &Rc<Term>,
) -> Result<Rc<Term>, AllocError>
    ensures { IfOk result (λ t. process t.value ≡
        catching exception (process body.value) (process handler.now.value)) }
{
    match &*body {
        Term::Eps => Ok(body),
        _ => {
            let otherwise = handler.clone()?;
            let caught = Term::Catch {
                exception,
                body,
                otherwise,
            };
            shared(alloc, caught)
        }
    }
}

/// What is left of a term with another one for where nothing can be done.
pub(crate) fn tried(
    alloc: Global,
    body: Rc<Term>,
    otherwise: &Rc<Term>,
) -> Result<Rc<Term>, AllocError>
    ensures { IfOk result (λ t. process t.value ≡
        trying (process body.value) (process otherwise.now.value)) }
{
    match &*body {
        Term::Eps => Ok(body),
        _ => {
            let otherwise = otherwise.clone()?;
            shared(alloc, Term::Try { body, otherwise })
        }
    }
}
