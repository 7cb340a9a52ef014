//! A number of 64 bits for a term.

ghost use Rattle.std.specs.Prelude.{◌≡◌, ◌<◌, ◌^◌};
ghost use Rattle.lt_term.specs.View.{choices, process};
ghost use Rattle.lt_same_term.specs.Hash.{hash_of, last_number, stirred, with_choices, with_head, with_term};

use crate::head::{Head, head_of};
use lt_term::{Last, Term};

// An odd number, so that no bit of a hash is lost before the next number comes in.
const FACTOR: u64 = 6_364_136_223_846_793_005;

/// A number that a term determines: the same term has the same one.
pub fn hash_of(term: &Term) -> u64
    ensures { result ≡ hash_of (process term.now) }
{
    with_term(term, 0)
}

// A hash with a term more.
#[cycle(with_term)]
fn with_term(term: &Term, hash: u64) -> u64
    ensures { result ≡ with_term hash (process term.now) }
{
    let hash = with_head(hash, head_of(term));
    match term {
        Term::Eps | Term::Dead | Term::Con(_) | Term::Raise(_) => hash,
        Term::Seq(first, second) => with_term(second, with_term(first, hash)),
        Term::Loop(body) => with_term(body, hash),
        Term::Count { body, .. } => with_term(body, hash),
        Term::Any(all) => with_parts(all, hash),
        Term::Pri(first, second) => with_term(second, with_term(first, hash)),
        Term::Par(first, second) => with_term(second, with_term(first, hash)),
        Term::Assert(_, body) => with_term(body, hash),
        Term::Exist { body, .. } => with_term(body, hash),
        Term::Catch {
            body,
            otherwise,
            ..
        } => with_term(otherwise, with_term(body, hash)),
        Term::Try { body, otherwise } => with_term(otherwise, with_term(body, hash)),
    }
}

// A hash with the parts of a choice more.
#[cycle(with_term)]
fn with_parts(parts: &[(u32, Term)], hash: u64) -> u64
    ensures { result ≡ with_choices hash (choices parts.now) }
{
    let mut all = hash;
    for (weight, part) in parts {
        all = with_term(part, stirred(all, u64::from(*weight)));
    }
    all
}

// A hash with a head more.
fn with_head(hash: u64, head: Head) -> u64
    ensures { result ≡ with_head hash head }
{
    let kind = stirred(hash, u64::from(head.kind));
    let number = stirred(kind, u64::from(head.number));
    let done = stirred(number, head.done);
    stirred(done, last_number(head.last))
}

// A number for what a local was.
fn last_number(last: Last) -> u64
    ensures { result ≡ last_number last }
{
    match last {
        Last::First => 0,
        Last::Kept(value) => value.raw().unsigned_abs(),
    }
}

// A hash with one number more.
fn stirred(hash: u64, number: u64) -> u64
    ensures { result ≡ stirred hash number }
{
    hash.wrapping_mul(FACTOR).wrapping_add(number)
}
