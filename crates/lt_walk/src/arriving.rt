//! The walk to a leaf of what is offered.

ghost use Rattle.std.specs.Prelude.{◌≡◌, ◌≤◌, ◌+◌, ℕ, [], length, slice_index_or, suc};
ghost use Rattle.lt_walk.specs.Asked.{Arrives};
ghost use Rattle.lt_walk.specs.Room.{EachHandlesBelow, HandlesBelow};
ghost use Rattle.lt_walk.specs.inner.Context.{AreWeights};
ghost use Rattle.lt_walk.specs.inner.Underway.{IsUnderway, Walks};
ghost use Rattle.lt_term.specs.Counted.{IsCounted};
ghost use Rattle.lt_term.specs.Next.{followed_by};
ghost use Rattle.lt_term.specs.Offers.{TermTree, offers_of};
ghost use Rattle.lt_term.specs.Process.{count, dead, loop};
ghost use Rattle.lt_term.specs.View.{kinds_of};
ghost use Rattle.lt_marks.specs.Still.{still, still_each};
ghost use Rattle.lt_marks.specs.Tallied.{AreTallied, IsTallied};
ghost use Rattle.lt_marks.specs.View.{begun, begun_each, body, choices_of, next, next_each, nodes, nodes_of_each, standing, standing_each};
ghost use Rattle.lt_marks.specs.Walk.{HasRoom, capacities};

use crate::chooser::Chooser;
use crate::choosing::{choose_part, choose_side, choose_turn};
use crate::leaf_weights::LeafWeights;
use crate::weighing::{weigh, weigh_loop, weight_at};
use lt_marks::{Mark, Parts, Reached, Track, Walk, is_over, kept};
use lt_term::Var;

/// Walks in what a term offers, from where it stands or from its beginning, where its chooser leads.
#[cycle(arrive)]
pub(crate) fn arrive<M, C: Chooser<M>>(
    track: &mut Track,
    is_fresh: bool,
    locals: &[Var],
    walk: &mut Walk,
    leaf_weights: LeafWeights,
    context: &M,
    chooser: &mut C,
) -> Reached
    requires room { HasRoom (nodes (body track.old)) walk.old }
    requires counted { IsCounted (begun is_fresh track.old) }
    requires tallied { IsTallied track.old }
    requires weights { AreWeights walk.old.raised.items }
    requires handlers { HandlesBelow (length walk.old.raised.items) (body track.old) }
    requires none { walk.old.weights.items ≡ [] }
    requires underway { (whole : TermTree ℕ) × (most : ℕ) ×
        IsUnderway (C.is_at chooser.old context.now) whole most
        (C.come chooser.old) walk.old.scope.items leaf_weights.vanish leaf_weights.go walk.old.raised.items
        (offers_of (kinds_of locals.now) (begun is_fresh track.old)) }
    ensures same_body { body track.new ≡ body track.old }
    ensures same_standing { standing track.new ≡ standing track.old }
    ensures still { still track.new ≡ still track.old }
    ensures same_capacities { capacities walk.new ≡ capacities walk.old }
    ensures same_raised { walk.new.raised.items ≡ walk.old.raised.items }
    ensures few_constraints { length walk.new.constraints.items ≤
        length walk.old.constraints.items + nodes (body track.old) }
    ensures few_lasts { length walk.new.lasts.items ≤
        length walk.old.lasts.items + nodes (body track.old) }
    ensures few_scope { length walk.new.scope.items ≤
        length walk.old.scope.items + nodes (body track.old) }
    ensures walks { Walks (offers_of (kinds_of locals.now) (begun is_fresh track.old))
        (C.come chooser.old) walk.old result (C.come chooser.new) walk.new
        (next track.new) }
    ensures arrives { (whole : TermTree ℕ) (most : ℕ) →
        IsUnderway (C.is_at chooser.old context.now) whole most
        (C.come chooser.old) walk.old.scope.items leaf_weights.vanish leaf_weights.go walk.old.raised.items
        (offers_of (kinds_of locals.now) (begun is_fresh track.old)) →
        Arrives (C.is_at chooser.new context.now whole most)
        (C.has_stopped chooser.new context.now whole most) result }
    ensures ends { Arrives (Unit {0}) (C.left chooser.new ≡ []) result }
{
    match track {
        Track::Eps => Reached::Vanish,
        Track::Dead => Reached::Nothing,
        Track::Con(marks, constraint) => match marks.standing(is_fresh) {
            Mark::Over => Reached::Vanish,
            _ => {
                marks.next = Mark::Over;
                walk.meet(*constraint);
                Reached::Go
            }
        },
        Track::Raise(exception) => Reached::Raised(*exception),
        Track::Seq(marks, first, second) => match marks.standing(is_fresh) {
            Mark::Second => {
                marks.next = Mark::Second;
                enter(second, false, locals, walk, leaf_weights, context, chooser)
            }
            now => {
                marks.next = Mark::Inside;
                let inside = LeafWeights {
                    vanish: weigh(second, true, leaf_weights, &walk.raised),
                    go: leaf_weights.go,
                };
                match enter(first, now.is_new(), locals, walk, inside, context, chooser) {
                    Reached::Vanish => {
                        marks.next = Mark::Second;
                        enter(second, true, locals, walk, leaf_weights, context, chooser)
                    }
                    other => other,
                }
            }
        },
        Track::Loop(marks, body) => {
            let now = marks.standing(is_fresh);
            marks.next = Mark::Inside;
            match now {
                Mark::Inside => {
                    let inside = LeafWeights {
                        vanish: weigh_loop(body, leaf_weights, &walk.raised),
                        go: leaf_weights.go,
                    };
                    match enter(body, false, locals, walk, inside, context, chooser) {
                        Reached::Vanish => turn(body, locals, walk, leaf_weights, context, chooser),
                        other => other,
                    }
                }
                _ => turn(body, locals, walk, leaf_weights, context, chooser),
            }
        }
        Track::Count(marks, counter, body) => match marks.standing(is_fresh) {
            Mark::Counted(done) => {
                marks.next = Mark::Counted(done);
                let inside = LeafWeights {
                    vanish: weigh_loop(body, leaf_weights, &walk.raised),
                    go: leaf_weights.go,
                };
                match enter(body, false, locals, walk, inside, context, chooser) {
                    Reached::Vanish => {
                        marks.next = Mark::Counted(done + 1);
                        counted_turn(
                            body,
                            *counter,
                            done,
                            locals,
                            walk,
                            leaf_weights,
                            context,
                            chooser,
                        )
                    }
                    other => other,
                }
            }
            _ => {
                marks.next = Mark::Counted(1);
                counted_turn(
                    body,
                    *counter,
                    0,
                    locals,
                    walk,
                    leaf_weights,
                    context,
                    chooser,
                )
            }
        },
        Track::Any(marks, parts) => match marks.standing(is_fresh) {
            Mark::Chosen(place) => {
                marks.next = Mark::Chosen(place);
                enter_part(
                    parts,
                    place,
                    false,
                    locals,
                    walk,
                    leaf_weights,
                    context,
                    chooser,
                )
            }
            _ => match choose_part(parts, walk, leaf_weights, context, chooser) {
                None => Reached::Weighted,
                Some(place) => {
                    marks.next = Mark::Chosen(place);
                    enter_part(
                        parts,
                        place,
                        true,
                        locals,
                        walk,
                        leaf_weights,
                        context,
                        chooser,
                    )
                }
            },
        },
        Track::Pri(marks, first, second) => match marks.standing(is_fresh) {
            Mark::Inside => {
                marks.next = Mark::Inside;
                enter(first, false, locals, walk, leaf_weights, context, chooser)
            }
            Mark::Second => {
                marks.next = Mark::Second;
                enter(second, false, locals, walk, leaf_weights, context, chooser)
            }
            _ => match choose_side(first, true, walk, leaf_weights, context, chooser) {
                None => Reached::Ordered,
                Some(0) => {
                    marks.next = Mark::Inside;
                    enter(first, true, locals, walk, leaf_weights, context, chooser)
                }
                Some(_) => {
                    marks.next = Mark::Second;
                    enter(second, true, locals, walk, leaf_weights, context, chooser)
                }
            },
        },
        Track::Par(marks, first, second) => match marks.standing(is_fresh) {
            Mark::Inside => {
                marks.next = Mark::Inside;
                enter(first, false, locals, walk, leaf_weights, context, chooser)
            }
            Mark::Second => {
                marks.next = Mark::Second;
                enter(second, false, locals, walk, leaf_weights, context, chooser)
            }
            now => {
                let constraints = walk.constraints.len();
                let lasts = walk.lasts.len();
                let are_new = now.are_new();
                let beside = LeafWeights {
                    vanish: leaf_weights.go,
                    go: leaf_weights.go,
                };
                let inside = LeafWeights {
                    vanish: weigh(second, are_new, leaf_weights, &walk.raised),
                    go: weigh(second, are_new, beside, &walk.raised),
                };
                match enter(first, are_new, locals, walk, inside, context, chooser) {
                    Reached::Vanish => {
                        marks.next = Mark::Second;
                        enter(
                            second,
                            are_new,
                            locals,
                            walk,
                            leaf_weights,
                            context,
                            chooser,
                        )
                    }
                    Reached::Go => match enter(
                        second, are_new, locals, walk, beside, context, chooser,
                    ) {
                        Reached::Go => {
                            marks.next = Mark::Both;
                            Reached::Go
                        }
                        Reached::Vanish => {
                            marks.next = Mark::Inside;
                            Reached::Go
                        }
                        other => {
                            walk.keep(constraints, lasts);
                            other
                        }
                    },
                    other => other,
                }
            }
        },
        Track::Assert(marks, constraint, body) => {
            let now = marks.standing(is_fresh);
            marks.next = Mark::Inside;
            let constraints = walk.constraints.len();
            walk.meet(*constraint);
            let reached = enter(
                body,
                now.is_new(),
                locals,
                walk,
                leaf_weights,
                context,
                chooser,
            );
            walk.settle(reached, constraints);
            reached
        }
        Track::Exist(marks, local, body) => {
            let now = marks.standing(is_fresh);
            let last = now.last();
            marks.next = Mark::Scoped(kept(locals, *local, last));
            let lasts = walk.lasts.len();
            let scope = walk.scope.len();
            walk.open(*local, last);
            let reached = enter(
                body,
                now.is_outside(),
                locals,
                walk,
                leaf_weights,
                context,
                chooser,
            );
            walk.close(reached, lasts, scope);
            reached
        }
        Track::Catch(marks, exception, body, otherwise) => match marks.standing(is_fresh) {
            Mark::Second => {
                marks.next = Mark::Second;
                enter(
                    otherwise,
                    false,
                    locals,
                    walk,
                    leaf_weights,
                    context,
                    chooser,
                )
            }
            now => {
                marks.next = Mark::Inside;
                let weight = weigh(otherwise, true, leaf_weights, &walk.raised);
                let outside = weight_at(&walk.raised, *exception);
                walk.raised[*exception as usize] = weight;
                let reached = enter(
                    body,
                    now.is_new(),
                    locals,
                    walk,
                    leaf_weights,
                    context,
                    chooser,
                );
                walk.raised[*exception as usize] = outside;
                match reached {
                    Reached::Raised(raised) => {
                        if raised != *exception {
                            return Reached::Raised(raised);
                        }
                        marks.next = Mark::Second;
                        enter(
                            otherwise,
                            true,
                            locals,
                            walk,
                            leaf_weights,
                            context,
                            chooser,
                        )
                    }
                    other => other,
                }
            }
        },
        Track::Try(marks, body, otherwise) => match marks.standing(is_fresh) {
            Mark::Second => {
                marks.next = Mark::Second;
                enter(
                    otherwise,
                    false,
                    locals,
                    walk,
                    leaf_weights,
                    context,
                    chooser,
                )
            }
            now => {
                let is_new = now.is_new();
                if !is_new && is_over(body) {
                    return Reached::Vanish;
                }
                match choose_side(body, is_new, walk, leaf_weights, context, chooser) {
                    None => Reached::Ordered,
                    Some(0) => {
                        marks.next = Mark::Inside;
                        enter(body, is_new, locals, walk, leaf_weights, context, chooser)
                    }
                    Some(_) => {
                        marks.next = Mark::Second;
                        enter(
                            otherwise,
                            true,
                            locals,
                            walk,
                            leaf_weights,
                            context,
                            chooser,
                        )
                    }
                }
            }
        },
    }
}

// Walks in what a part of a term offers.
#[cycle(arrive)]
fn enter<M, C: Chooser<M>>(
    part: &mut Box<Track>,
    is_fresh: bool,
    locals: &[Var],
    walk: &mut Walk,
    leaf_weights: LeafWeights,
    context: &M,
    chooser: &mut C,
) -> Reached
    requires room { HasRoom (nodes (body part.old.value)) walk.old }
    requires counted { IsCounted (begun is_fresh part.old.value) }
    requires tallied { IsTallied part.old.value }
    requires weights { AreWeights walk.old.raised.items }
    requires handlers { HandlesBelow (length walk.old.raised.items) (body part.old.value) }
    requires none { walk.old.weights.items ≡ [] }
    requires underway { (whole : TermTree ℕ) × (most : ℕ) ×
        IsUnderway (C.is_at chooser.old context.now) whole most
        (C.come chooser.old) walk.old.scope.items leaf_weights.vanish leaf_weights.go walk.old.raised.items
        (offers_of (kinds_of locals.now) (begun is_fresh part.old.value)) }
    ensures same_body { body part.new.value ≡ body part.old.value }
    ensures same_standing { standing part.new.value ≡ standing part.old.value }
    ensures still { still part.new.value ≡ still part.old.value }
    ensures same_capacities { capacities walk.new ≡ capacities walk.old }
    ensures same_raised { walk.new.raised.items ≡ walk.old.raised.items }
    ensures few_constraints { length walk.new.constraints.items ≤
        length walk.old.constraints.items + nodes (body part.old.value) }
    ensures few_lasts { length walk.new.lasts.items ≤
        length walk.old.lasts.items + nodes (body part.old.value) }
    ensures few_scope { length walk.new.scope.items ≤
        length walk.old.scope.items + nodes (body part.old.value) }
    ensures walks { Walks (offers_of (kinds_of locals.now) (begun is_fresh part.old.value))
        (C.come chooser.old) walk.old result (C.come chooser.new) walk.new
        (next part.new.value) }
    ensures arrives { (whole : TermTree ℕ) (most : ℕ) →
        IsUnderway (C.is_at chooser.old context.now) whole most
        (C.come chooser.old) walk.old.scope.items leaf_weights.vanish leaf_weights.go walk.old.raised.items
        (offers_of (kinds_of locals.now) (begun is_fresh part.old.value)) →
        Arrives (C.is_at chooser.new context.now whole most)
        (C.has_stopped chooser.new context.now whole most) result }
    ensures ends { Arrives (Unit {0}) (C.left chooser.new ≡ []) result }
{
    arrive(part, is_fresh, locals, walk, leaf_weights, context, chooser)
}

// Walks in what one of some terms offers, and to nothing where there is no such term.
#[cycle(arrive)]
fn arrive_in_part<M, C: Chooser<M>>(
    parts: &mut Parts,
    place: u32,
    is_fresh: bool,
    locals: &[Var],
    walk: &mut Walk,
    leaf_weights: LeafWeights,
    context: &M,
    chooser: &mut C,
) -> Reached
    requires room { HasRoom (nodes_of_each (choices_of parts.old)) walk.old }
    requires counted { IsCounted (slice_index_or (begun_each is_fresh parts.old) place dead) }
    requires tallied { AreTallied parts.old }
    requires weights { AreWeights walk.old.raised.items }
    requires handlers { EachHandlesBelow (length walk.old.raised.items) (choices_of parts.old) }
    requires none { walk.old.weights.items ≡ [] }
    requires underway { (whole : TermTree ℕ) × (most : ℕ) ×
        IsUnderway (C.is_at chooser.old context.now) whole most
        (C.come chooser.old) walk.old.scope.items leaf_weights.vanish leaf_weights.go walk.old.raised.items
        (offers_of (kinds_of locals.now) (slice_index_or (begun_each is_fresh parts.old) place dead)) }
    ensures same_choices { choices_of parts.new ≡ choices_of parts.old }
    ensures same_standing { standing_each parts.new ≡ standing_each parts.old }
    ensures still { still_each parts.new ≡ still_each parts.old }
    ensures same_capacities { capacities walk.new ≡ capacities walk.old }
    ensures same_raised { walk.new.raised.items ≡ walk.old.raised.items }
    ensures few_constraints { length walk.new.constraints.items ≤
        length walk.old.constraints.items + nodes_of_each (choices_of parts.old) }
    ensures few_lasts { length walk.new.lasts.items ≤
        length walk.old.lasts.items + nodes_of_each (choices_of parts.old) }
    ensures few_scope { length walk.new.scope.items ≤
        length walk.old.scope.items + nodes_of_each (choices_of parts.old) }
    ensures walks { Walks (offers_of (kinds_of locals.now) (slice_index_or (begun_each is_fresh parts.old) place dead))
        (C.come chooser.old) walk.old result (C.come chooser.new) walk.new
        (slice_index_or (next_each parts.new) place dead) }
    ensures arrives { (whole : TermTree ℕ) (most : ℕ) →
        IsUnderway (C.is_at chooser.old context.now) whole most
        (C.come chooser.old) walk.old.scope.items leaf_weights.vanish leaf_weights.go walk.old.raised.items
        (offers_of (kinds_of locals.now) (slice_index_or (begun_each is_fresh parts.old) place dead)) →
        Arrives (C.is_at chooser.new context.now whole most)
        (C.has_stopped chooser.new context.now whole most) result }
    ensures ends { Arrives (Unit {0}) (C.left chooser.new ≡ []) result }
{
    match parts {
        Parts::End => Reached::Nothing,
        Parts::Part(_, part, rest) => {
            if place == 0 {
                enter(part, is_fresh, locals, walk, leaf_weights, context, chooser)
            } else {
                enter_part(
                    rest,
                    place - 1,
                    is_fresh,
                    locals,
                    walk,
                    leaf_weights,
                    context,
                    chooser,
                )
            }
        }
    }
}

// The same, behind a box.
#[cycle(arrive)]
fn enter_part<M, C: Chooser<M>>(
    parts: &mut Box<Parts>,
    place: u32,
    is_fresh: bool,
    locals: &[Var],
    walk: &mut Walk,
    leaf_weights: LeafWeights,
    context: &M,
    chooser: &mut C,
) -> Reached
    requires room { HasRoom (nodes_of_each (choices_of parts.old.value)) walk.old }
    requires counted { IsCounted (slice_index_or (begun_each is_fresh parts.old.value) place dead) }
    requires tallied { AreTallied parts.old.value }
    requires weights { AreWeights walk.old.raised.items }
    requires handlers { EachHandlesBelow (length walk.old.raised.items) (choices_of parts.old.value) }
    requires none { walk.old.weights.items ≡ [] }
    requires underway { (whole : TermTree ℕ) × (most : ℕ) ×
        IsUnderway (C.is_at chooser.old context.now) whole most
        (C.come chooser.old) walk.old.scope.items leaf_weights.vanish leaf_weights.go walk.old.raised.items
        (offers_of (kinds_of locals.now) (slice_index_or (begun_each is_fresh parts.old.value) place dead)) }
    ensures same_choices { choices_of parts.new.value ≡ choices_of parts.old.value }
    ensures same_standing { standing_each parts.new.value ≡ standing_each parts.old.value }
    ensures still { still_each parts.new.value ≡ still_each parts.old.value }
    ensures same_capacities { capacities walk.new ≡ capacities walk.old }
    ensures same_raised { walk.new.raised.items ≡ walk.old.raised.items }
    ensures few_constraints { length walk.new.constraints.items ≤
        length walk.old.constraints.items + nodes_of_each (choices_of parts.old.value) }
    ensures few_lasts { length walk.new.lasts.items ≤
        length walk.old.lasts.items + nodes_of_each (choices_of parts.old.value) }
    ensures few_scope { length walk.new.scope.items ≤
        length walk.old.scope.items + nodes_of_each (choices_of parts.old.value) }
    ensures walks { Walks (offers_of (kinds_of locals.now) (slice_index_or (begun_each is_fresh parts.old.value) place dead))
        (C.come chooser.old) walk.old result (C.come chooser.new) walk.new
        (slice_index_or (next_each parts.new.value) place dead) }
    ensures arrives { (whole : TermTree ℕ) (most : ℕ) →
        IsUnderway (C.is_at chooser.old context.now) whole most
        (C.come chooser.old) walk.old.scope.items leaf_weights.vanish leaf_weights.go walk.old.raised.items
        (offers_of (kinds_of locals.now) (slice_index_or (begun_each is_fresh parts.old.value) place dead)) →
        Arrives (C.is_at chooser.new context.now whole most)
        (C.has_stopped chooser.new context.now whole most) result }
    ensures ends { Arrives (Unit {0}) (C.left chooser.new ≡ []) result }
{
    arrive_in_part(
        parts,
        place,
        is_fresh,
        locals,
        walk,
        leaf_weights,
        context,
        chooser,
    )
}

// Walks in what the next turn of a loop offers, and its end. A turn that takes no instant is none.
#[cycle(arrive)]
fn turn<M, C: Chooser<M>>(
    again: &mut Box<Track>,
    locals: &[Var],
    walk: &mut Walk,
    leaf_weights: LeafWeights,
    context: &M,
    chooser: &mut C,
) -> Reached
    requires room { HasRoom (nodes (body again.old.value)) walk.old }
    requires tallied { IsTallied again.old.value }
    requires weights { AreWeights walk.old.raised.items }
    requires handlers { HandlesBelow (length walk.old.raised.items) (body again.old.value) }
    requires none { walk.old.weights.items ≡ [] }
    requires underway { (whole : TermTree ℕ) × (most : ℕ) ×
        IsUnderway (C.is_at chooser.old context.now) whole most
        (C.come chooser.old) walk.old.scope.items leaf_weights.vanish leaf_weights.go walk.old.raised.items
        (offers_of (kinds_of locals.now) (loop (body again.old.value))) }
    ensures same_body { body again.new.value ≡ body again.old.value }
    ensures same_standing { standing again.new.value ≡ standing again.old.value }
    ensures still { still again.new.value ≡ still again.old.value }
    ensures same_capacities { capacities walk.new ≡ capacities walk.old }
    ensures same_raised { walk.new.raised.items ≡ walk.old.raised.items }
    ensures few_constraints { length walk.new.constraints.items ≤
        length walk.old.constraints.items + nodes (body again.old.value) }
    ensures few_lasts { length walk.new.lasts.items ≤
        length walk.old.lasts.items + nodes (body again.old.value) }
    ensures few_scope { length walk.new.scope.items ≤
        length walk.old.scope.items + nodes (body again.old.value) }
    ensures walks { Walks (offers_of (kinds_of locals.now) (loop (body again.old.value)))
        (C.come chooser.old) walk.old result (C.come chooser.new) walk.new
        (followed_by (next again.new.value) (loop (body again.old.value))) }
    ensures arrives { (whole : TermTree ℕ) (most : ℕ) →
        IsUnderway (C.is_at chooser.old context.now) whole most
        (C.come chooser.old) walk.old.scope.items leaf_weights.vanish leaf_weights.go walk.old.raised.items
        (offers_of (kinds_of locals.now) (loop (body again.old.value))) →
        Arrives (C.is_at chooser.new context.now whole most)
        (C.has_stopped chooser.new context.now whole most) result }
    ensures ends { Arrives (Unit {0}) (C.left chooser.new ≡ []) result }
{
    let inside = LeafWeights {
        vanish: 1,
        go: leaf_weights.go,
    };
    match choose_side(again, true, walk, inside, context, chooser) {
        None => Reached::Ordered,
        Some(0) => match enter(again, true, locals, walk, inside, context, chooser) {
            Reached::Vanish => Reached::Nothing,
            other => other,
        },
        Some(_) => Reached::Vanish,
    }
}

// The same of a counted loop, of which so many turns are done.
#[cycle(arrive)]
fn counted_turn<M, C: Chooser<M>>(
    again: &mut Box<Track>,
    counter: u32,
    done: u64,
    locals: &[Var],
    walk: &mut Walk,
    leaf_weights: LeafWeights,
    context: &M,
    chooser: &mut C,
) -> Reached
    requires room { HasRoom (suc (nodes (body again.old.value))) walk.old }
    requires tallied { IsTallied again.old.value }
    requires weights { AreWeights walk.old.raised.items }
    requires handlers { HandlesBelow (length walk.old.raised.items) (body again.old.value) }
    requires none { walk.old.weights.items ≡ [] }
    requires underway { (whole : TermTree ℕ) × (most : ℕ) ×
        IsUnderway (C.is_at chooser.old context.now) whole most
        (C.come chooser.old) walk.old.scope.items leaf_weights.vanish leaf_weights.go walk.old.raised.items
        (offers_of (kinds_of locals.now) (count counter done (body again.old.value))) }
    ensures same_body { body again.new.value ≡ body again.old.value }
    ensures same_standing { standing again.new.value ≡ standing again.old.value }
    ensures still { still again.new.value ≡ still again.old.value }
    ensures same_capacities { capacities walk.new ≡ capacities walk.old }
    ensures same_raised { walk.new.raised.items ≡ walk.old.raised.items }
    ensures few_constraints { length walk.new.constraints.items ≤
        length walk.old.constraints.items + nodes (body again.old.value) }
    ensures few_lasts { length walk.new.lasts.items ≤
        length walk.old.lasts.items + nodes (body again.old.value) }
    ensures few_scope { length walk.new.scope.items ≤
        length walk.old.scope.items + nodes (body again.old.value) }
    ensures walks { Walks (offers_of (kinds_of locals.now) (count counter done (body again.old.value)))
        (C.come chooser.old) walk.old result (C.come chooser.new) walk.new
        (followed_by (next again.new.value) (count counter (suc done) (body again.old.value))) }
    ensures arrives { (whole : TermTree ℕ) (most : ℕ) →
        IsUnderway (C.is_at chooser.old context.now) whole most
        (C.come chooser.old) walk.old.scope.items leaf_weights.vanish leaf_weights.go walk.old.raised.items
        (offers_of (kinds_of locals.now) (count counter done (body again.old.value))) →
        Arrives (C.is_at chooser.new context.now whole most)
        (C.has_stopped chooser.new context.now whole most) result }
    ensures ends { Arrives (Unit {0}) (C.left chooser.new ≡ []) result }
{
    let inside = LeafWeights {
        vanish: 1,
        go: leaf_weights.go,
    };
    match choose_turn(again, counter, done, walk, inside, context, chooser) {
        None => Reached::Weighted,
        Some(0) => match enter(again, true, locals, walk, inside, context, chooser) {
            Reached::Vanish => Reached::Nothing,
            other => other,
        },
        Some(1) => Reached::Vanish,
        Some(_) => Reached::Nothing,
    }
}
