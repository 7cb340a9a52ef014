//! What leaves weigh that raise an exception.

ghost use Rattle.std.specs.Prelude.{◌≤◌, ◌^◌, IfOk};
ghost use Rattle.lt_walk.specs.Room.{EachHandlesBelow, HandlesBelow, IsRoomFor};
ghost use Rattle.lt_marks.specs.View.{body, choices_of};

use lt_marks::{Parts, Track};
use std::alloc::{AllocError, Global};

/// Room for what leaves weigh that raise an exception, by the number of the exception: each weighs 1.
pub fn weights_for(alloc: Global, track: &Track) -> Result<Vec<u32>, AllocError>
    ensures { IfOk result (λ weights. IsRoomFor (body track.now) weights.items) }
{
    let exceptions = exceptions_in(track) as usize;
    Ok(vec![in alloc; 1; exceptions]?)
}

// One more than the greatest exception that a term handles.
#[cycle(exceptions)]
#[tactic(auto, using(crate::proofs::Handlers::below_greater))]
fn exceptions_in(track: &Track) -> u64
    ensures few { result ≤ 2 ^ 32 }
    ensures below { HandlesBelow result (body track.now) }
{
    match track {
        Track::Eps | Track::Dead | Track::Con(_, _) | Track::Raise(_) => 0,
        Track::Loop(_, body)
        | Track::Count(_, _, body)
        | Track::Assert(_, _, body)
        | Track::Exist(_, _, body) => exceptions_in(body),
        Track::Seq(_, first, second)
        | Track::Pri(_, first, second)
        | Track::Par(_, first, second)
        | Track::Try(_, first, second) => exceptions_in(first).max(exceptions_in(second)),
        Track::Any(_, parts) => exceptions_among(parts),
        Track::Catch(_, exception, body, otherwise) => {
            let inside = exceptions_in(body).max(exceptions_in(otherwise));
            inside.max(u64::from(*exception) + 1)
        }
    }
}

// The same of terms to choose from.
#[cycle(exceptions)]
#[tactic(auto, using(crate::proofs::Handlers::below_greater, crate::proofs::Handlers::each_below_greater))]
fn exceptions_among(parts: &Parts) -> u64
    ensures few { result ≤ 2 ^ 32 }
    ensures below { EachHandlesBelow result (choices_of parts.now) }
{
    match parts {
        Parts::End => 0,
        Parts::Part(_, part, rest) => exceptions_in(part).max(exceptions_among(rest)),
    }
}
