//! What a term is but for its parts.

ghost use Rattle.std.specs.Prelude.{◌≡◌};
ghost use Rattle.lt_term.specs.View.{process};
ghost use Rattle.lt_same_term.specs.Alike.{head_eq, head_of, last_eq, value_eq};

use lt_num::Value;
use lt_term::{Last, Term};

/// What a term is but for its parts: its kind, and up to two numbers and a value.
#[derive(Clone, Copy)]
pub struct Head {
    pub kind: u32,
    pub number: u32,
    pub done: u64,
    pub last: Last,
}

/// The head of a term.
pub fn head_of(term: &Term) -> Head
    ensures { result ≡ head_of (process term.now) }
{
    match term {
        Term::Eps => plain(0, 0),
        Term::Dead => plain(1, 0),
        Term::Con(constraint) => plain(2, *constraint),
        Term::Raise(exception) => plain(3, *exception),
        Term::Seq(..) => plain(4, 0),
        Term::Loop(_) => plain(5, 0),
        Term::Count { counter, done, .. } => Head {
            kind: 6,
            number: *counter,
            done: *done,
            last: Last::First,
        },
        Term::Any(_) => plain(7, 0),
        Term::Pri(..) => plain(8, 0),
        Term::Par(..) => plain(9, 0),
        Term::Assert(constraint, _) => plain(10, *constraint),
        Term::Exist { local, last, .. } => Head {
            kind: 11,
            number: *local,
            done: 0,
            last: *last,
        },
        Term::Catch { exception, .. } => plain(12, *exception),
        Term::Try { .. } => plain(13, 0),
    }
}

// A head with one number.
fn plain(kind: u32, number: u32) -> Head
    ensures { result ≡ record { kind = kind; number = number; done = 0; last = Last.First } }
{
    Head {
        kind,
        number,
        done: 0,
        last: Last::First,
    }
}

// Whether two heads are the same.
pub(crate) fn same_head(one: Head, other: Head) -> bool
    ensures { result ≡ head_eq one other }
{
    one.kind == other.kind
        && one.number == other.number
        && one.done == other.done
        && same_last(one.last, other.last)
}

// Whether two values of the instant before are the same.
fn same_last(one: Last, other: Last) -> bool
    ensures { result ≡ last_eq one other }
{
    match one {
        Last::First => match other {
            Last::First => true,
            Last::Kept(_) => false,
        },
        Last::Kept(value) => match other {
            Last::First => false,
            Last::Kept(kept) => same_value(value, kept),
        },
    }
}

// Whether two values are the same.
fn same_value(one: Value, other: Value) -> bool
    ensures { result ≡ value_eq one other }
{
    match one {
        Value::Bool(truth) => match other {
            Value::Bool(kept) => { if truth { kept } else { !kept } }
            Value::Num(_) => false,
        },
        Value::Num(raw) => match other {
            Value::Bool(_) => false,
            Value::Num(kept) => raw == kept,
        },
    }
}
