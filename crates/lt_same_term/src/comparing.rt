//! Whether two terms are the same.

ghost use Rattle.std.specs.Prelude.{◌≡◌, ◌≤◌, length};
ghost use Rattle.lt_term.specs.View.{choices, process};
ghost use Rattle.lt_same_term.specs.Alike.{alike, choices_alike, head_eq, head_of, many_alike, one_alike, parts_of, two_alike};

use crate::head::{head_of, same_head};
use crate::parts::{Parts, parts_of};
use lt_term::Term;

/// Whether two terms are the same.
#[cycle(same)]
pub fn same(one: &Term, other: &Term) -> bool
    ensures { result ≡ alike (process one.now) (process other.now) }
{
    if !same_head(head_of(one), head_of(other)) {
        return false;
    }
    match one {
        Term::Eps | Term::Dead | Term::Con(_) | Term::Raise(_) => true,
        Term::Seq(first, second) => same_two(first, second, other),
        Term::Loop(body) => same_one(body, other),
        Term::Count { body, .. } => same_one(body, other),
        Term::Any(all) => same_each(all, other),
        Term::Pri(first, second) => same_two(first, second, other),
        Term::Par(first, second) => same_two(first, second, other),
        Term::Assert(_, body) => same_one(body, other),
        Term::Exist { body, .. } => same_one(body, other),
        Term::Catch {
            body,
            otherwise,
            ..
        } => same_two(body, otherwise, other),
        Term::Try { body, otherwise } => same_two(body, otherwise, other),
    }
}

// Whether this is the one part of a term.
#[cycle(same)]
fn same_one(body: &Term, other: &Term) -> bool
    ensures { result ≡ one_alike (λ t. alike (process body.now) t) (parts_of (process other.now)) }
{
    match parts_of(other) {
        Parts::One(part) => same(body, part),
        _ => false,
    }
}

// Whether these are the two parts of a term.
#[cycle(same)]
fn same_two(first: &Term, second: &Term, other: &Term) -> bool
    ensures { result ≡ two_alike (λ t. alike (process first.now) t)
        (λ t. alike (process second.now) t) (parts_of (process other.now)) }
{
    match parts_of(other) {
        Parts::Two(one, two) => same(first, one) && same(second, two),
        _ => false,
    }
}

// Whether these are the parts of a choice.
#[cycle(same)]
fn same_each(all: &[(u32, Term)], other: &Term) -> bool
    ensures { result ≡ many_alike (λ cs. choices_alike (choices all.now) cs)
        (parts_of (process other.now)) }
{
    match parts_of(other) {
        Parts::Many(others) => same_parts(all, others),
        _ => false,
    }
}

// Whether parts of choices are the same.
#[cycle(same)]
fn same_parts(all: &[(u32, Term)], others: &[(u32, Term)]) -> bool
    ensures { result ≡ choices_alike (choices all.now) (choices others.now) }
{
    let mut rest = others;
    for (weight, part) in all {
        let Some((first, more)) = rest.split_first() else {
            return false;
        };
        if *weight != first.0 {
            return false;
        }
        if !same(part, &first.1) {
            return false;
        }
        rest = more;
    }
    rest.is_empty()
}
