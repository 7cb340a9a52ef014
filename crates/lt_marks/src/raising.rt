//! How many leaves of what tracks offer raise an exception.

ghost use Rattle.std.specs.Prelude.{◌≡◌, ◌≤◌, slice_index_or};
ghost use Rattle.lt_term.specs.Process.{any, dead};
ghost use Rattle.lt_marks.specs.Tallied.{AreTallied, IsRaisedBy, IsTallied};
ghost use Rattle.lt_marks.specs.View.{begun, choices_of, standing_each};

use crate::extents::part_tally;
use crate::over::is_over;
use crate::track::{Mark, Parts, Track};
use lt_tree_size::{raised_beside, raised_in_either, raised_in_turn, raised_past};

// How many leaves of what a term offers at its beginning, or of what is still to be done, raise an exception; 65,537 where there
// are more. It goes through the term once: a handler in it keeps how many leaves raise its own.
#[cycle(raises)]
fn raises(track: &Track, is_fresh: bool, exception: u32) -> u32
    requires { IsTallied track.now }
    ensures few { result ≤ 65537 }
    ensures is { IsRaisedBy result exception (begun is_fresh track.now) }
{
    match track {
        Track::Eps | Track::Dead | Track::Con(_, _) => 0,
        Track::Raise(raised) => { if *raised == exception { 1 } else { 0 } }
        Track::Seq(marks, first, second) => match marks.standing(is_fresh) {
            Mark::Second => part_raises(second, false, exception),
            now => {
                let is_new = now.is_new();
                let raised = part_raises(first, is_new, exception);
                raised_in_turn(
                    part_tally(first, is_new),
                    raised,
                    part_raises(second, true, exception),
                )
            }
        },
        Track::Loop(marks, body) => match marks.standing(is_fresh) {
            Mark::Inside => {
                let raised = part_raises(body, false, exception);
                raised_in_turn(
                    part_tally(body, false),
                    raised,
                    part_raises(body, true, exception),
                )
            }
            _ => part_raises(body, true, exception),
        },
        Track::Count(marks, _, body) => match marks.standing(is_fresh) {
            Mark::Counted(_) => {
                let raised = part_raises(body, false, exception);
                raised_in_turn(
                    part_tally(body, false),
                    raised,
                    part_raises(body, true, exception),
                )
            }
            _ => part_raises(body, true, exception),
        },
        Track::Any(marks, parts) => match marks.standing(is_fresh) {
            Mark::Chosen(place) => chosen_raises(parts, place, exception),
            _ => choice_raises(parts, exception),
        },
        Track::Pri(marks, first, second) => match marks.standing(is_fresh) {
            Mark::Inside => part_raises(first, false, exception),
            Mark::Second => part_raises(second, false, exception),
            _ => {
                let raised = part_raises(first, true, exception);
                raised_in_either(raised, part_raises(second, true, exception))
            }
        },
        Track::Par(marks, first, second) => match marks.standing(is_fresh) {
            Mark::Inside => part_raises(first, false, exception),
            Mark::Second => part_raises(second, false, exception),
            now => {
                let are_new = now.are_new();
                let raised = part_raises(first, are_new, exception);
                raised_beside(
                    part_tally(first, are_new),
                    raised,
                    part_raises(second, are_new, exception),
                )
            }
        },
        Track::Assert(marks, _, body) => {
            part_raises(body, marks.standing(is_fresh).is_new(), exception)
        }
        Track::Exist(marks, _, body) => {
            part_raises(body, marks.standing(is_fresh).is_outside(), exception)
        }
        Track::Catch(marks, handled, body, otherwise) => match marks.standing(is_fresh) {
            Mark::Second => part_raises(otherwise, false, exception),
            now => {
                let raised = part_raises(body, now.is_new(), exception);
                raised_past(
                    raised,
                    exception == *handled,
                    marks.extent(is_fresh).raised,
                    part_raises(otherwise, true, exception),
                )
            }
        },
        Track::Try(marks, body, otherwise) => match marks.standing(is_fresh) {
            Mark::Second => part_raises(otherwise, false, exception),
            now => {
                let is_new = now.is_new();
                if !is_new && is_over(body) {
                    return 0;
                }
                let raised = part_raises(body, is_new, exception);
                raised_in_either(raised, part_raises(otherwise, true, exception))
            }
        },
    }
}

/// How many leaves of what a part of a term offers, at its beginning or where the run stands, raise an exception: 65,537 where
/// there are more. It goes through the part once.
#[cycle(raises)]
pub fn part_raises(part: &Box<Track>, is_fresh: bool, exception: u32) -> u32
    requires { IsTallied part.now.value }
    ensures few { result ≤ 65537 }
    ensures is { IsRaisedBy result exception (begun is_fresh part.now.value) }
{
    raises(part, is_fresh, exception)
}

// The same of what is still to be done in one of some terms.
#[cycle(raises)]
fn chosen_raises(parts: &Box<Parts>, place: u32, exception: u32) -> u32
    requires { AreTallied parts.now.value }
    ensures few { result ≤ 65537 }
    ensures is { IsRaisedBy result exception
        (slice_index_or (standing_each parts.now.value) place dead) }
{
    raises_at(parts, place, exception)
}

// The same, of terms that aren't behind a box.
#[cycle(raises)]
fn raises_at(parts: &Parts, place: u32, exception: u32) -> u32
    requires { AreTallied parts.now }
    ensures few { result ≤ 65537 }
    ensures is { IsRaisedBy result exception (slice_index_or (standing_each parts.now) place dead) }
{
    match parts {
        Parts::End => 0,
        Parts::Part(_, part, rest) => {
            if place == 0 {
                part_raises(part, false, exception)
            } else {
                chosen_raises(rest, place - 1, exception)
            }
        }
    }
}

// The same of a choice among some terms.
#[cycle(raises)]
fn choice_raises(parts: &Box<Parts>, exception: u32) -> u32
    requires { AreTallied parts.now.value }
    ensures few { result ≤ 65537 }
    ensures is { IsRaisedBy result exception (any (choices_of parts.now.value)) }
{
    raises_among(parts, exception)
}

// The same, of terms that aren't behind a box.
#[cycle(raises)]
fn raises_among(parts: &Parts, exception: u32) -> u32
    requires { AreTallied parts.now }
    ensures few { result ≤ 65537 }
    ensures is { IsRaisedBy result exception (any (choices_of parts.now)) }
{
    match parts {
        Parts::End => 0,
        Parts::Part(_, part, rest) => {
            let raised = part_raises(part, true, exception);
            raised_in_either(raised, choice_raises(rest, exception))
        }
    }
}
