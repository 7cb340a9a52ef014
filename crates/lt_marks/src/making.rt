//! Tracks of terms.

ghost use Rattle.std.specs.Prelude.{◌≡◌, All, IfOk};
ghost use Rattle.lt_term.specs.View.{choices, process};
ghost use Rattle.lt_marks.specs.Start.{IsAtStart, IsUnbegun};
ghost use Rattle.lt_marks.specs.Tallied.{AreTallied, HasTalliedParts, IsTallied};
ghost use Rattle.lt_marks.specs.View.{body, choices_of, standing};

use crate::extent::Extent;
use crate::extents::begin;
use crate::track::{Mark, Marks, Parts, Track};
use lt_term::Term;
use lt_tree_size::Tally;
use std::alloc::{AllocError, Global};

// How large something is of which that isn't known yet.
const UNKNOWN: Extent = Extent {
    tally: Tally {
        nodes: 1,
        vanishes: 0,
        goes: 0,
    },
    raised: 0,
};

// The marks of a term that hasn't begun.
const UNBEGUN: Marks = Marks {
    at: Mark::Fresh,
    next: Mark::Fresh,
    whole: UNKNOWN,
    rest: UNKNOWN,
};

/// A term with marks, at its beginning. This alone takes memory.
pub fn track_of(alloc: Global, term: &Term) -> Result<Track, AllocError>
    requires { IsAtStart (process term.now) }
    ensures same_body { IfOk result (λ t. body t ≡ process term.now) }
    ensures begins { IfOk result (λ t. standing t ≡ body t) }
    ensures tallied { IfOk result (λ t. IsTallied t) }
{
    Ok(Box::into_inner(boxed(alloc, term)?))
}

// The same in a box.
#[cycle(make)]
fn boxed(alloc: Global, term: &Term) -> Result<Box<Track>, AllocError>
    requires { IsAtStart (process term.now) }
    ensures same_body { IfOk result (λ t. body t.value ≡ process term.now) }
    ensures begins { IfOk result (λ t. standing t.value ≡ body t.value) }
    ensures tallied { IfOk result (λ t. IsTallied t.value) }
{
    let mut track = untallied(alloc, term)?;
    begin(&mut track);
    Ok(track)
}

// The same, but for how large what the term offers is.
#[cycle(make)]
fn untallied(alloc: Global, term: &Term) -> Result<Box<Track>, AllocError>
    requires { IsAtStart (process term.now) }
    ensures same_body { IfOk result (λ t. body t.value ≡ process term.now) }
    ensures unbegun { IfOk result (λ t. IsUnbegun t.value) }
    ensures parts { IfOk result (λ t. HasTalliedParts t.value) }
{
    match term {
        Term::Eps => nothing(alloc),
        Term::Dead => deadlock(alloc),
        Term::Con(constraint) => Ok(Box::new(alloc, Track::Con(UNBEGUN, *constraint))?),
        Term::Raise(exception) => raise(alloc, *exception),
        Term::Seq(first, second) => {
            let first = boxed(alloc, first)?;
            let second = boxed(alloc, second)?;
            Ok(Box::new(alloc, Track::Seq(UNBEGUN, first, second))?)
        }
        Term::Loop(body) => {
            let body = boxed(alloc, body)?;
            Ok(Box::new(alloc, Track::Loop(UNBEGUN, body))?)
        }
        Term::Count { counter, body, .. } => {
            let body = boxed(alloc, body)?;
            Ok(Box::new(alloc, Track::Count(UNBEGUN, *counter, body))?)
        }
        Term::Any(parts) => {
            let parts = parts_of(alloc, parts)?;
            Ok(Box::new(alloc, Track::Any(UNBEGUN, parts))?)
        }
        Term::Pri(first, second) => {
            let first = boxed(alloc, first)?;
            let second = boxed(alloc, second)?;
            Ok(Box::new(alloc, Track::Pri(UNBEGUN, first, second))?)
        }
        Term::Par(first, second) => {
            let first = boxed(alloc, first)?;
            let second = boxed(alloc, second)?;
            Ok(Box::new(alloc, Track::Par(UNBEGUN, first, second))?)
        }
        Term::Assert(constraint, body) => {
            let body = boxed(alloc, body)?;
            Ok(Box::new(alloc, Track::Assert(UNBEGUN, *constraint, body))?)
        }
        Term::Exist { local, body, .. } => {
            let body = boxed(alloc, body)?;
            Ok(Box::new(alloc, Track::Exist(UNBEGUN, *local, body))?)
        }
        Term::Catch {
            exception,
            body,
            otherwise,
        } => {
            let body = boxed(alloc, body)?;
            let otherwise = boxed(alloc, otherwise)?;
            Ok(Box::new(alloc, Track::Catch(UNBEGUN, *exception, body, otherwise))?)
        }
        Term::Try { body, otherwise } => {
            let body = boxed(alloc, body)?;
            let otherwise = boxed(alloc, otherwise)?;
            Ok(Box::new(alloc, Track::Try(UNBEGUN, body, otherwise))?)
        }
    }
}

// Terms without marks. They are marked `inline(never)` for the stack: else each level of a term has room for a track.

// Nothing.
#[inline(never)]
fn nothing(alloc: Global) -> Result<Box<Track>, AllocError>
    ensures { IfOk result (λ t. t.value ≡ Track.Eps) }
{
    Ok(Box::new(alloc, Track::Eps)?)
}

// A deadlock.
#[inline(never)]
fn deadlock(alloc: Global) -> Result<Box<Track>, AllocError>
    ensures { IfOk result (λ t. t.value ≡ Track.Dead) }
{
    Ok(Box::new(alloc, Track::Dead)?)
}

// An exception.
#[inline(never)]
fn raise(alloc: Global, exception: u32) -> Result<Box<Track>, AllocError>
    ensures { IfOk result (λ t. t.value ≡ Track.Raise exception) }
{
    Ok(Box::new(alloc, Track::Raise(exception))?)
}

// The parts of a weighted choice with marks, one behind the other.
#[cycle(make)]
#[inline(never)]
fn parts_of(alloc: Global, parts: &Vec<(u32, Term)>) -> Result<Box<Parts>, AllocError>
    requires { All (λ p. IsAtStart (process p.1)) parts.now.items }
    ensures same_choices { IfOk result (λ ps. choices_of ps.value ≡ choices parts.now.items) }
    ensures tallied { IfOk result (λ ps. AreTallied ps.value) }
{
    let mut made = Box::new(alloc, Parts::End)?;
    let mut left = parts.len();
    while left > 0 {
        left -= 1;
        let (weight, part) = &parts[left];
        let track = boxed(alloc, part)?;
        made = Box::new(alloc, Parts::Part(*weight, track, made))?;
    }
    Ok(made)
}
