//! Whether a term is over.

ghost use Rattle.std.specs.Prelude.{◌≡◌, slice_index_or};
ghost use Rattle.lt_term.specs.Process.{dead};
ghost use Rattle.lt_marks.specs.Over.{is_over};
ghost use Rattle.lt_marks.specs.View.{standing, standing_each};

use crate::track::{Mark, Parts, Track};

/// Whether a run has nothing more to do in a term.
#[cycle(over)]
pub fn is_over(track: &Track) -> bool
    ensures { result ≡ is_over (standing track.now) }
{
    match track {
        Track::Eps => true,
        Track::Dead | Track::Raise(_) | Track::Loop(_, _) | Track::Count(_, _, _) => false,
        Track::Con(marks, _) => matches!(marks.at, Mark::Over),
        Track::Seq(marks, first, second) => match marks.at {
            Mark::Inside => is_over(first) && matches!(**second, Track::Eps),
            Mark::Second => is_over(second),
            _ => false,
        },
        Track::Any(marks, parts) => match marks.at {
            Mark::Chosen(k) => is_part_over(parts, k),
            _ => false,
        },
        Track::Pri(marks, first, second) => match marks.at {
            Mark::Inside => is_over(first),
            Mark::Second => is_over(second),
            _ => false,
        },
        Track::Par(marks, first, second) => match marks.at {
            Mark::Inside => is_over(first),
            Mark::Second => is_over(second),
            Mark::Both => is_over(first) && is_over(second),
            _ => false,
        },
        Track::Assert(marks, _, body) => match marks.at {
            Mark::Inside => is_over(body),
            _ => false,
        },
        Track::Exist(marks, _, body) => match marks.at {
            Mark::Scoped(_) => is_over(body),
            _ => false,
        },
        Track::Catch(marks, _, body, otherwise) => match marks.at {
            Mark::Inside => is_over(body),
            Mark::Second => is_over(otherwise),
            _ => false,
        },
        Track::Try(marks, body, otherwise) => match marks.at {
            Mark::Inside => is_over(body),
            Mark::Second => is_over(otherwise),
            _ => false,
        },
    }
}

// The same of one of some terms.
#[cycle(over)]
fn is_part_over(parts: &Parts, k: u32) -> bool
    ensures { result ≡ is_over (slice_index_or (standing_each parts.now) k dead) }
{
    match parts {
        Parts::End => false,
        Parts::Part(_, part, rest) => {
            if k == 0 {
                is_over(part)
            } else {
                is_part_over(rest, k - 1)
            }
        }
    }
}
