//! How many nodes tracks have.

ghost use Rattle.std.specs.Prelude.{◌≡◌, ◌<◌, ◌^◌};
ghost use Rattle.lt_marks.specs.View.{body, choices_of, nodes, nodes_of_each};

use crate::track::{Parts, Track};

/// How many nodes a track has, each alternative counted for one more: a walk in it needs room for as many. That few
/// enough are there for a body of a scenario, [`body_is_at_start`](crate::body_is_at_start) says.
#[cycle(nodes)]
pub fn node_count(track: &Track) -> usize
    requires { nodes (body track.now) < 2 ^ 64 }
    ensures { result ≡ nodes (body track.now) }
{
    match track {
        Track::Eps | Track::Dead | Track::Con(_, _) | Track::Raise(_) => 1,
        Track::Seq(_, first, second) => node_count(first) + node_count(second) + 1,
        Track::Loop(_, body) => node_count(body) + 1,
        Track::Count(_, _, body) => node_count(body) + 2,
        Track::Any(_, parts) => part_count(parts) + 1,
        Track::Pri(_, first, second) => node_count(first) + node_count(second) + 1,
        Track::Par(_, first, second) => node_count(first) + node_count(second) + 1,
        Track::Assert(_, _, body) => node_count(body) + 1,
        Track::Exist(_, _, body) => node_count(body) + 1,
        Track::Catch(_, _, body, otherwise) => node_count(body) + node_count(otherwise) + 1,
        Track::Try(_, body, otherwise) => node_count(body) + node_count(otherwise) + 1,
    }
}

// Those of terms to choose from.
#[cycle(nodes)]
fn part_count(parts: &Box<Parts>) -> usize
    requires { nodes_of_each (choices_of parts.now.value) < 2 ^ 64 }
    ensures { result ≡ nodes_of_each (choices_of parts.now.value) }
{
    count_among(parts)
}

// The same, of terms that aren't behind a box.
#[cycle(nodes)]
fn count_among(parts: &Parts) -> usize
    requires { nodes_of_each (choices_of parts.now) < 2 ^ 64 }
    ensures { result ≡ nodes_of_each (choices_of parts.now) }
{
    match parts {
        Parts::End => 1,
        Parts::Part(_, part, rest) => node_count(part) + part_count(rest) + 1,
    }
}
