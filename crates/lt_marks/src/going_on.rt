//! The term behind a leaf.

ghost use Rattle.std.specs.Prelude.{◌≡◌, slice_index_or, true};
ghost use Rattle.lt_term.specs.Process.{dead};
ghost use Rattle.lt_term.specs.Advanced.{advanced, next_last, value_among};
ghost use Rattle.lt_marks.specs.Tallied.{AreTallied, HasTalliedParts, IsTallied, IsWhole, extent_of};
ghost use Rattle.lt_marks.specs.View.{body, choices_of, next, next_each, standing, standing_each};

use crate::extents::settle;
use crate::track::{Mark, Parts, Track};
use lt_num::Value;
use lt_term::Last;

/// Goes on behind the leaf that was reached last, with these values of locals in the scopes that
/// are entered.
pub fn go_on(track: &mut Track, values: &[(u32, Value)])
    requires { IsTallied track.old }
    ensures same_body { body track.new ≡ body track.old }
    ensures goes_on { standing track.new ≡ advanced values.now (next track.old) }
    ensures tallied { IsTallied track.new }
{
    step(track, values);
    settle(track);
}

// Goes on, but for how large what is then offered is.
#[cycle(going)]
#[tactic(auto, using(crate::proofs::Advances::goes))]
fn step(track: &mut Track, values: &[(u32, Value)])
    requires { IsTallied track.old }
    ensures same_body { body track.new ≡ body track.old }
    ensures goes_on { standing track.new ≡ advanced values.now (next track.old) }
    ensures parts { HasTalliedParts track.new }
    ensures whole { extent_of true track.new ≡ extent_of true track.old }
{
    match track {
        Track::Eps | Track::Dead | Track::Raise(_) => {}
        Track::Con(marks, _) => marks.at = marks.next,
        Track::Seq(marks, first, second) => {
            marks.at = marks.next;
            match marks.next {
                Mark::Inside => go_on_in(first, values),
                Mark::Second => go_on_in(second, values),
                _ => {}
            }
        }
        Track::Loop(marks, body) => {
            marks.at = marks.next;
            if let Mark::Inside = marks.next {
                go_on_in(body, values);
            }
        }
        Track::Count(marks, _, body) => {
            marks.at = marks.next;
            if let Mark::Counted(_) = marks.next {
                go_on_in(body, values);
            }
        }
        Track::Any(marks, parts) => {
            marks.at = marks.next;
            if let Mark::Chosen(place) = marks.next {
                go_on_in_part(parts, place, values);
            }
        }
        Track::Pri(marks, first, second) => {
            marks.at = marks.next;
            match marks.next {
                Mark::Inside => go_on_in(first, values),
                Mark::Second => go_on_in(second, values),
                _ => {}
            }
        }
        Track::Par(marks, first, second) => {
            marks.at = marks.next;
            match marks.next {
                Mark::Inside => go_on_in(first, values),
                Mark::Second => go_on_in(second, values),
                Mark::Both => {
                    go_on_in(first, values);
                    go_on_in(second, values);
                }
                _ => {}
            }
        }
        Track::Assert(marks, _, body) => {
            marks.at = marks.next;
            if let Mark::Inside = marks.next {
                go_on_in(body, values);
            }
        }
        Track::Exist(marks, local, body) => match marks.next {
            Mark::Scoped(last) => {
                marks.at = Mark::Scoped(next_last(last, *local, values));
                go_on_in(body, values);
            }
            other => marks.at = other,
        },
        Track::Catch(marks, _, body, otherwise) => {
            marks.at = marks.next;
            match marks.next {
                Mark::Inside => go_on_in(body, values),
                Mark::Second => go_on_in(otherwise, values),
                _ => {}
            }
        }
        Track::Try(marks, body, otherwise) => {
            marks.at = marks.next;
            match marks.next {
                Mark::Inside => go_on_in(body, values),
                Mark::Second => go_on_in(otherwise, values),
                _ => {}
            }
        }
    }
}

// Goes on in a part of a term.
#[cycle(going)]
fn go_on_in(part: &mut Box<Track>, values: &[(u32, Value)])
    requires { IsTallied part.old.value }
    ensures same_body { body part.new.value ≡ body part.old.value }
    ensures goes_on { standing part.new.value ≡ advanced values.now (next part.old.value) }
    ensures tallied { IsTallied part.new.value }
{
    step(part, values);
    settle(part);
}

// Goes on in one of some terms.
#[cycle(going)]
fn go_on_part(parts: &mut Parts, place: u32, values: &[(u32, Value)])
    requires { AreTallied parts.old }
    ensures same_choices { choices_of parts.new ≡ choices_of parts.old }
    ensures tallied { AreTallied parts.new }
    ensures goes_on { slice_index_or (standing_each parts.new) place dead ≡
        advanced values.now (slice_index_or (next_each parts.old) place dead) }
{
    match parts {
        Parts::End => {}
        Parts::Part(_, part, rest) => {
            if place == 0 {
                go_on_in(part, values);
            } else {
                go_on_in_part(rest, place - 1, values);
            }
        }
    }
}

// The same, behind a box.
#[cycle(going)]
fn go_on_in_part(parts: &mut Box<Parts>, place: u32, values: &[(u32, Value)])
    requires { AreTallied parts.old.value }
    ensures same_choices { choices_of parts.new.value ≡ choices_of parts.old.value }
    ensures tallied { AreTallied parts.new.value }
    ensures goes_on { slice_index_or (standing_each parts.new.value) place dead ≡
        advanced values.now (slice_index_or (next_each parts.old.value) place dead) }
{
    go_on_part(parts, place, values);
}

// The last value of a local behind the instant.
fn next_last(last: Last, local: u32, values: &[(u32, Value)]) -> Last
    ensures { result ≡ next_last values.now local last }
{
    match last {
        Last::First => Last::First,
        Last::Kept(value) => Last::Kept(value_among(values, local, value)),
    }
}

// The value of a local among these, or the one that it has.
fn value_among(values: &[(u32, Value)], local: u32, value: Value) -> Value
    ensures { result ≡ value_among values.now local value }
{
    for (other, found) in values {
        if *other == local {
            return *found;
        }
    }
    value
}
