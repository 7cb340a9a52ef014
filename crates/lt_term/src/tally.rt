//! How many nodes the tree of a term has, without the tree.

ghost use Rattle.std.specs.Prelude.{◌≡◌, ◌+◌, ◌*◌, ◌++◌, List, nat_eq, if◌then◌else◌, sum_by, IfOk};
ghost use Rattle.lt_num.specs.declared.kind.Kind.{Kind};
ghost use Rattle.lt_term.specs.Offers.{offers_of};
ghost use Rattle.lt_term.specs.Size.{Weights, capped, each_one, weight_of, with_raise};
ghost use Rattle.lt_term.specs.Tree.{size};
ghost use Rattle.lt_term.specs.View.{process};
ghost use Rattle.lt_term.specs.inner.Alike.{IsAlike, count_in, scaled, without};
ghost use Rattle.lt_term.specs.inner.TallyView.{tally_weight};

use crate::memory::Memory;
use crate::term::Term;
use std::alloc::{AllocError, Global};

// One more than the greatest number of nodes that a tree may have: greater numbers count as this one.
const MOST: u64 = 65_537;

// How many nodes of each kind a tree has. Each number is exact up to `MOST`.
#[derive(Drop)]
struct Tally {
    // Choices of either kind, and leaves at which nothing can be done.
    others: u64,

    // Leaves that vanish.
    vanishes: u64,

    // Leaves that go on.
    goes: u64,

    // Leaves that raise an exception; one exception may stand here more than once.
    raises: Vec<(u32, u64)>,
}

/// How many nodes the tree of a term has: 65,537 where there are more. It is found from the numbers of leaves
/// of the parts.
pub fn size(alloc: Global, term: &Term) -> Result<u64, Memory>
    ensures { IfOk result (λ n. (kinds : List Kind) →
        n ≡ capped (size (offers_of kinds (process term.now)))) }
{
    let tally = tally_of(alloc, term)?;
    Ok(total(&tally))
}

// A sum, up to the greatest number that counts.
fn sum(a: u64, b: u64) -> u64
    ensures { result ≡ capped (a + b) }
{
    a.saturating_add(b).min(MOST)
}

// A product, up to the greatest number that counts.
fn product(a: u64, b: u64) -> u64
    ensures { result ≡ capped (a * b) }
{
    a.saturating_mul(b).min(MOST)
}

// All nodes together.
fn total(tally: &Tally) -> u64
    ensures { result ≡ capped (tally_weight each_one tally.now) }
{
    let mut all = sum(sum(tally.others, tally.vanishes), tally.goes);
    for (_, number) in &tally.raises {
        all = sum(all, *number);
    }
    all
}

// One node that is no leaf that vanishes, goes on or raises.
fn one_other(alloc: Global) -> Tally
    ensures { (w : Weights) → tally_weight w result ≡ w.other }
{
    Tally {
        others: 1,
        vanishes: 0,
        goes: 0,
        raises: Vec::new(alloc),
    }
}

// One leaf that vanishes.
fn one_vanish(alloc: Global) -> Tally
    ensures { (w : Weights) → tally_weight w result ≡ w.vanish }
{
    Tally {
        others: 0,
        vanishes: 1,
        goes: 0,
        raises: Vec::new(alloc),
    }
}

// One leaf that goes on.
fn one_go(alloc: Global) -> Tally
    ensures { (w : Weights) → tally_weight w result ≡ w.go }
{
    Tally {
        others: 0,
        vanishes: 0,
        goes: 1,
        raises: Vec::new(alloc),
    }
}

// One leaf that raises an exception.
fn one_raise(alloc: Global, exception: u32) -> Result<Tally, AllocError>
    ensures { IfOk result (λ k. (w : Weights) → tally_weight w k ≡ w.raise exception) }
{
    let mut raises = Vec::new(alloc);
    raises.push((exception, 1))?;
    Ok(Tally {
        others: 0,
        vanishes: 0,
        goes: 0,
        raises,
    })
}

// So many copies of a part beside the rest.
fn with_copies(rest: Tally, copies: u64, part: &Tally) -> Result<Tally, AllocError>
    ensures { IfOk result (λ k. (w : Weights) →
        IsAlike (tally_weight w k) (tally_weight w rest + copies * tally_weight w part.now)) }
{
    let raises = with_more_raises(rest.raises, copies, &part.raises)?;
    Ok(Tally {
        others: sum(rest.others, product(copies, part.others)),
        vanishes: sum(rest.vanishes, product(copies, part.vanishes)),
        goes: sum(rest.goes, product(copies, part.goes)),
        raises,
    })
}

// So many copies of some leaves that raise exceptions, after others.
fn with_more_raises(
    mut raises: Vec<(u32, u64)>,
    copies: u64,
    more: &Vec<(u32, u64)>,
) -> Result<Vec<(u32, u64)>, AllocError>
    ensures { IfOk result (λ rs. rs.items ≡ raises.items ++ scaled copies more.now.items) }
{
    for (exception, number) in more {
        raises.push((*exception, product(copies, *number)))?;
    }
    Ok(raises)
}

// Both of two.
fn both(first: Tally, second: &Tally) -> Result<Tally, AllocError>
    ensures { IfOk result (λ k. (w : Weights) →
        IsAlike (tally_weight w k) (tally_weight w first + tally_weight w second.now)) }
{
    with_copies(first, 1, second)
}

// A choice above some trees.
fn with_choice(mut below: Tally) -> Tally
    ensures { (w : Weights) → IsAlike (tally_weight w result) (w.other + tally_weight w below) }
{
    below.others = sum(below.others, 1);
    below
}

// A first part, with a second one for each of its leaves that vanish.
fn followed(mut first: Tally, second: &Tally) -> Result<Tally, AllocError>
    ensures { IfOk result (λ k. (w : Weights) →
        IsAlike (tally_weight w k)
        (tally_weight (record w { vanish = tally_weight w second.now }) first)) }
{
    let copies = first.vanishes;
    first.vanishes = 0;
    with_copies(first, copies, second)
}

// A choice between one more turn, in which a leaf that vanishes does nothing, and the end.
fn repeated(mut body: Tally) -> Tally
    ensures { (w : Weights) →
        IsAlike (tally_weight w result)
        (w.other + (tally_weight (record w { vanish = w.other }) body + w.vanish)) }
{
    body.others = sum(sum(body.others, body.vanishes), 1);
    body.vanishes = 1;
    body
}

// Two sides at once: the second one for each leaf of the first that vanishes or goes on, and in the latter case
// its leaves that vanish go on. What the second one raises is put down once for all these leaves, so that it doesn't
// grow with each side.
fn beside(mut first: Tally, mut second: Tally) -> Result<Tally, AllocError>
    ensures { IfOk result (λ k. (w : Weights) →
        IsAlike (tally_weight w k)
        (tally_weight
        (record w {
          vanish = tally_weight w second;
          go = tally_weight (record w { vanish = w.go })
              second;
        }) first)) }
{
    let over = first.vanishes;
    let going = first.goes;
    let ending = second.vanishes;
    first.vanishes = 0;
    first.goes = 0;
    second.vanishes = 0;
    let mut all = with_copies(first, sum(over, going), &second)?;
    all.vanishes = sum(all.vanishes, product(over, ending));
    all.goes = sum(all.goes, product(going, ending));
    Ok(all)
}

// A part, with its handler for each of its leaves that raise an exception.
fn caught(exception: u32, mut body: Tally, handler: &Tally) -> Result<Tally, AllocError>
    ensures { IfOk result (λ k. (w : Weights) →
        IsAlike (tally_weight w k)
        (tally_weight (with_raise w exception (tally_weight w handler.now)) body)) }
{
    let copies = raised(&body, exception);
    let raises = others_raised(&body, exception)?;
    body.raises = raises;
    with_copies(body, copies, handler)
}

// How many leaves raise an exception.
fn raised(tally: &Tally, exception: u32) -> u64
    ensures { result ≡ capped (count_in exception tally.now.raises.items) }
{
    let mut all = 0;
    for (other, number) in &tally.raises {
        all = sum(all, number_of(*other, exception, *number));
    }
    all
}

// A number of leaves, where the exception that they raise is this one, and else 0.
fn number_of(other: u32, exception: u32, number: u64) -> u64
    ensures { result ≡ (if nat_eq other exception then number else 0) }
{
    if other == exception { number } else { 0 }
}

// The leaves that raise other exceptions.
fn others_raised(tally: &Tally, exception: u32) -> Result<Vec<(u32, u64)>, AllocError>
    ensures { IfOk result (λ rs. rs.items ≡ without exception tally.now.raises.items) }
{
    let mut kept = Vec::new(*tally.raises.allocator());
    for (other, number) in &tally.raises {
        if *other != exception {
            kept.push((*other, *number))?;
        }
    }
    Ok(kept)
}

// The nodes of the tree of a term.
#[cycle(tally)]
fn tally_of(alloc: Global, term: &Term) -> Result<Tally, AllocError>
    ensures { IfOk result (λ k. (w : Weights) →
        IsAlike (tally_weight w k) (weight_of w (process term.now))) }
{
    match term {
        Term::Eps => Ok(one_vanish(alloc)),
        Term::Dead => Ok(one_other(alloc)),
        Term::Con(_) => Ok(one_go(alloc)),
        Term::Raise(exception) => one_raise(alloc, *exception),
        Term::Seq(first, second) => {
            let (first, second) = tallies_of(alloc, first, second)?;
            followed(first, &second)
        }
        Term::Loop(body) => {
            let body = tally_of(alloc, body)?;
            Ok(repeated(body))
        }
        Term::Count { body, .. } => {
            let body = tally_of(alloc, body)?;
            Ok(repeated(body))
        }
        Term::Any(parts) => {
            let below = tally_of_each(alloc, parts)?;
            Ok(with_choice(below))
        }
        Term::Pri(first, second) => tally_of_either(alloc, first, second),
        Term::Par(first, second) => {
            let (first, second) = tallies_of(alloc, first, second)?;
            beside(first, second)
        }
        Term::Assert(_, body) => tally_of(alloc, body),
        Term::Exist { body, .. } => tally_of(alloc, body),
        Term::Catch {
            exception,
            body,
            otherwise,
        } => {
            let (body, handler) = tallies_of(alloc, body, otherwise)?;
            caught(*exception, body, &handler)
        }
        Term::Try { body, otherwise } => tally_of_either(alloc, body, otherwise),
    }
}

// The nodes of the trees of two terms, each by itself.
#[cycle(tally)]
fn tallies_of(alloc: Global, first: &Term, second: &Term) -> Result<(Tally, Tally), AllocError>
    ensures first { IfOk result (λ ks. (w : Weights) →
        IsAlike (tally_weight w ks.0) (weight_of w (process first.now))) }
    ensures second { IfOk result (λ ks. (w : Weights) →
        IsAlike (tally_weight w ks.1) (weight_of w (process second.now))) }
{
    let first = tally_of(alloc, first)?;
    let second = tally_of(alloc, second)?;
    Ok((first, second))
}

// The nodes of the trees of two terms, and a choice above them.
#[cycle(tally)]
fn tally_of_either(alloc: Global, first: &Term, second: &Term) -> Result<Tally, AllocError>
    ensures { IfOk result (λ k. (w : Weights) →
        IsAlike (tally_weight w k)
        (w.other + (weight_of w (process first.now) + weight_of w (process second.now)))) }
{
    let (first, second) = tallies_of(alloc, first, second)?;
    let below = both(first, &second)?;
    Ok(with_choice(below))
}

// The nodes of the trees of the parts of a choice.
#[cycle(tally)]
fn tally_of_each(alloc: Global, parts: &Vec<(u32, Term)>) -> Result<Tally, AllocError>
    ensures { IfOk result (λ k. (w : Weights) →
        IsAlike (tally_weight w k) (sum_by (λ p. weight_of w (process p.1)) parts.now.items)) }
{
    let mut all = nothing(alloc);
    for (_, part) in parts {
        let tally = tally_of(alloc, part)?;
        all = both(all, &tally)?;
    }
    Ok(all)
}

// No node.
fn nothing(alloc: Global) -> Tally
    ensures { (w : Weights) → tally_weight w result ≡ 0 }
{
    Tally {
        others: 0,
        vanishes: 0,
        goes: 0,
        raises: Vec::new(alloc),
    }
}
