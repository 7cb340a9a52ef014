//! How large what tracks offer is.

ghost use Rattle.std.specs.Prelude.{◌≡◌, ◌≤◌, ℕ, List, false, slice_index_or, true};
ghost use Rattle.lt_num.specs.declared.kind.Kind.{Kind};
ghost use Rattle.lt_term.specs.Offers.{offers_of};
ghost use Rattle.lt_term.specs.Process.{any, count, dead, loop};
ghost use Rattle.lt_term.specs.Size.{capped};
ghost use Rattle.lt_term.specs.Tree.{size};
ghost use Rattle.lt_marks.specs.Start.{IsUnbegun};
ghost use Rattle.lt_marks.specs.Tallied.{AreTallied, HasTalliedParts, IsRaisedWhile, IsTallied, IsTallyOf, IsWhole, extent_in, extent_of, keeping, with_extent};
ghost use Rattle.lt_marks.specs.View.{begun, body, choices_of, standing, standing_each};

use crate::extent::Extent;
use crate::over::is_over;
use crate::raising::part_raises;
use crate::track::{Mark, Marks, Parts, Track};
use lt_tree_size::{
    Tally, beside, caught, either, followed, one_go, one_other, one_vanish, rows, with_part,
};

impl Marks {
    /// How large what it offers is, at its beginning or where the run stands.
    pub fn extent(&self, is_fresh: bool) -> Extent
        ensures { result ≡ extent_in is_fresh self.now }
    {
        if is_fresh { self.whole } else { self.rest }
    }

    /// Keeps how large what it offers is, at its beginning or where the run stands.
    pub(crate) fn keep(&mut self, is_fresh: bool, extent: Extent)
        ensures { self.new ≡ with_extent is_fresh extent self.old }
    {
        if is_fresh {
            self.whole = extent;
        } else {
            self.rest = extent;
        }
    }
}

/// How many nodes the tree of what is still to be done has: 65,537 where there are more.
pub fn size(track: &Track) -> u32
    requires { IsTallied track.now }
    ensures { (kinds : List Kind) → result ≡ capped (size (offers_of kinds (standing track.now))) }
{
    rows();
    tally_of(track, false).nodes
}

/// The tally of what a term offers at its beginning, or of what is still to be done, as it is kept.
pub(crate) fn tally_of(track: &Track, is_fresh: bool) -> Tally
    requires { IsTallied track.now }
    ensures { IsTallyOf result (begun is_fresh track.now) }
{
    match track {
        Track::Eps => one_vanish(),
        Track::Dead => one_other(),
        Track::Raise(_) => one_other(),
        Track::Con(marks, _) => marks.extent(is_fresh).tally,
        Track::Seq(marks, _, _) => marks.extent(is_fresh).tally,
        Track::Loop(marks, _) => marks.extent(is_fresh).tally,
        Track::Count(marks, _, _) => marks.extent(is_fresh).tally,
        Track::Any(marks, _) => marks.extent(is_fresh).tally,
        Track::Pri(marks, _, _) => marks.extent(is_fresh).tally,
        Track::Par(marks, _, _) => marks.extent(is_fresh).tally,
        Track::Assert(marks, _, _) => marks.extent(is_fresh).tally,
        Track::Exist(marks, _, _) => marks.extent(is_fresh).tally,
        Track::Catch(marks, _, _, _) => marks.extent(is_fresh).tally,
        Track::Try(marks, _, _) => marks.extent(is_fresh).tally,
    }
}

/// Keeps how large what a term offers is: at its beginning, or where a run stands.
pub(crate) fn keep(track: &mut Track, is_fresh: bool, extent: Extent)
    ensures { track.new ≡ keeping is_fresh extent track.old }
{
    match track {
        Track::Eps | Track::Dead | Track::Raise(_) => {}
        Track::Con(marks, _) => marks.keep(is_fresh, extent),
        Track::Seq(marks, _, _) => marks.keep(is_fresh, extent),
        Track::Loop(marks, _) => marks.keep(is_fresh, extent),
        Track::Count(marks, _, _) => marks.keep(is_fresh, extent),
        Track::Any(marks, _) => marks.keep(is_fresh, extent),
        Track::Pri(marks, _, _) => marks.keep(is_fresh, extent),
        Track::Par(marks, _, _) => marks.keep(is_fresh, extent),
        Track::Assert(marks, _, _) => marks.keep(is_fresh, extent),
        Track::Exist(marks, _, _) => marks.keep(is_fresh, extent),
        Track::Catch(marks, _, _, _) => marks.keep(is_fresh, extent),
        Track::Try(marks, _, _) => marks.keep(is_fresh, extent),
    }
}

/// How large what a term offers is, by what its parts keep.
pub(crate) fn extent_of(track: &Track, is_fresh: bool) -> Extent
    requires parts { HasTalliedParts track.now }
    requires whole { is_fresh ≡ false → IsWhole (extent_of true track.now) (body track.now) }
    ensures tally { IsTallyOf result.tally (begun is_fresh track.now) }
    ensures raised { IsRaisedWhile is_fresh result.raised track.now }
{
    let raised = raised_in(track, is_fresh);
    let tally = tally_by(track, is_fresh, raised);
    Extent { tally, raised }
}

// How many leaves of the part of a term with a handler raise its exception.
fn raised_in(track: &Track, is_fresh: bool) -> u32
    requires { HasTalliedParts track.now }
    ensures few { result ≤ 65537 }
    ensures is { IsRaisedWhile is_fresh result track.now }
{
    match track {
        Track::Catch(marks, exception, body, _) => match marks.standing(is_fresh) {
            Mark::Second => 0,
            now => part_raises(body, now.is_new(), *exception),
        },
        _ => 0,
    }
}

// The tally of what a term offers. Of a term with a handler so many leaves of the part raise the exception.
fn tally_by(track: &Track, is_fresh: bool, raised: u32) -> Tally
    requires parts { HasTalliedParts track.now }
    requires whole { is_fresh ≡ false → IsWhole (extent_of true track.now) (body track.now) }
    requires few { raised ≤ 65537 }
    requires raised { IsRaisedWhile is_fresh raised track.now }
    ensures { IsTallyOf result (begun is_fresh track.now) }
{
    match track {
        Track::Eps => one_vanish(),
        Track::Dead => one_other(),
        Track::Raise(_) => one_other(),
        Track::Con(marks, _) => match marks.standing(is_fresh) {
            Mark::Over => one_vanish(),
            _ => one_go(),
        },
        Track::Seq(marks, first, second) => match marks.standing(is_fresh) {
            Mark::Second => part_tally(second, false),
            now => followed(part_tally(first, now.is_new()), part_tally(second, true)),
        },
        Track::Loop(marks, body) => match marks.standing(is_fresh) {
            Mark::Inside => followed(part_tally(body, false), marks.whole.tally),
            _ => loop_tally(body),
        },
        Track::Count(marks, _, body) => match marks.standing(is_fresh) {
            Mark::Counted(_) => followed(part_tally(body, false), count_tally(body)),
            _ => count_tally(body),
        },
        Track::Any(marks, parts) => match marks.standing(is_fresh) {
            Mark::Chosen(place) => chosen_tally(parts, place),
            _ => choice_tally(parts),
        },
        Track::Pri(marks, first, second) => match marks.standing(is_fresh) {
            Mark::Inside => part_tally(first, false),
            Mark::Second => part_tally(second, false),
            _ => either(part_tally(first, true), part_tally(second, true)),
        },
        Track::Par(marks, first, second) => match marks.standing(is_fresh) {
            Mark::Inside => part_tally(first, false),
            Mark::Second => part_tally(second, false),
            now => {
                let are_new = now.are_new();
                beside(part_tally(first, are_new), part_tally(second, are_new))
            }
        },
        Track::Assert(marks, _, body) => part_tally(body, marks.standing(is_fresh).is_new()),
        Track::Exist(marks, _, body) => part_tally(body, marks.standing(is_fresh).is_outside()),
        Track::Catch(marks, _, body, otherwise) => match marks.standing(is_fresh) {
            Mark::Second => part_tally(otherwise, false),
            now => {
                let part = part_tally(body, now.is_new());
                caught(part, raised, part_tally(otherwise, true))
            }
        },
        Track::Try(marks, body, otherwise) => match marks.standing(is_fresh) {
            Mark::Second => part_tally(otherwise, false),
            now => {
                let is_new = now.is_new();
                if !is_new && is_over(body) {
                    return one_vanish();
                }
                either(part_tally(body, is_new), part_tally(otherwise, true))
            }
        },
    }
}

/// The tally of what a part of a term offers, as it is kept.
pub fn part_tally(part: &Box<Track>, is_fresh: bool) -> Tally
    requires { IsTallied part.now.value }
    ensures { IsTallyOf result (begun is_fresh part.now.value) }
{
    tally_of(part, is_fresh)
}

/// The tally of a loop that begins a turn.
pub fn loop_tally(again: &Box<Track>) -> Tally
    requires { IsTallied again.now.value }
    ensures { IsTallyOf result (loop (body again.now.value)) }
{
    either(followed(part_tally(again, true), one_other()), one_vanish())
}

/// The tally of a counted loop that begins a turn.
pub fn count_tally(again: &Box<Track>) -> Tally
    requires { IsTallied again.now.value }
    ensures { (i done : ℕ) → IsTallyOf result (count i done (body again.now.value)) }
{
    let turn = followed(part_tally(again, true), one_other());
    let end = with_part(one_vanish(), one_other());
    with_part(turn, end)
}

// The tally of what is still to be done in one of some terms.
#[cycle(chosen)]
fn chosen_tally(parts: &Box<Parts>, place: u32) -> Tally
    requires { AreTallied parts.now.value }
    ensures { IsTallyOf result (slice_index_or (standing_each parts.now.value) place dead) }
{
    tally_at(parts, place)
}

// The same, of terms that aren't behind a box.
#[cycle(chosen)]
fn tally_at(parts: &Parts, place: u32) -> Tally
    requires { AreTallied parts.now }
    ensures { IsTallyOf result (slice_index_or (standing_each parts.now) place dead) }
{
    match parts {
        Parts::End => one_other(),
        Parts::Part(_, part, rest) => {
            if place == 0 {
                part_tally(part, false)
            } else {
                chosen_tally(rest, place - 1)
            }
        }
    }
}

// The tally of a choice among some terms.
#[cycle(choice)]
fn choice_tally(parts: &Box<Parts>) -> Tally
    requires { AreTallied parts.now.value }
    ensures { IsTallyOf result (any (choices_of parts.now.value)) }
{
    tally_among(parts)
}

// The same, of terms that aren't behind a box.
#[cycle(choice)]
fn tally_among(parts: &Parts) -> Tally
    requires { AreTallied parts.now }
    ensures { IsTallyOf result (any (choices_of parts.now)) }
{
    match parts {
        Parts::End => one_other(),
        Parts::Part(_, part, rest) => with_part(part_tally(part, true), choice_tally(rest)),
    }
}

/// Finds out how large what a term that hasn't begun offers is, and keeps it: what is still to be done is all of it. It is
/// marked `inline(never)` for the stack of those that make a track, level by level.
#[inline(never)]
pub(crate) fn begin(track: &mut Track)
    requires parts { HasTalliedParts track.old }
    requires unbegun { IsUnbegun track.old }
    ensures same_body { body track.new ≡ body track.old }
    ensures begins { standing track.new ≡ body track.new }
    ensures tallied { IsTallied track.new }
{
    let whole = extent_of(track, true);
    keep(track, true, whole);
    keep(track, false, whole);
}

/// Finds out how large what a term offers where a run stands is, and keeps it.
pub(crate) fn settle(track: &mut Track)
    requires parts { HasTalliedParts track.old }
    requires whole { IsWhole (extent_of true track.old) (body track.old) }
    ensures same_body { body track.new ≡ body track.old }
    ensures same_standing { standing track.new ≡ standing track.old }
    ensures tallied { IsTallied track.new }
{
    let rest = extent_of(track, false);
    keep(track, false, rest);
}
