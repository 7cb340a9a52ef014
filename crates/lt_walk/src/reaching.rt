//! Walks from the root of what is offered.

ghost use Rattle.std.specs.Prelude.{◌≡◌, ◌++◌, ℕ, List, []};
ghost use Rattle.lt_walk.specs.Asked.{Arrives, IsOpen};
ghost use Rattle.lt_walk.specs.Room.{IsRoomFor};
ghost use Rattle.lt_term.specs.Counted.{IsCounted};
ghost use Rattle.lt_term.specs.Offers.{offers_of};
ghost use Rattle.lt_term.specs.View.{kinds_of};
ghost use Rattle.lt_marks.specs.Still.{still};
ghost use Rattle.lt_marks.specs.Tallied.{IsTallied};
ghost use Rattle.lt_marks.specs.View.{body, next, nodes, standing};
ghost use Rattle.lt_marks.specs.Walk.{Follows, IsRoomy, held, capacities, setting_out};

use crate::arriving::arrive;
use crate::chooser::Chooser;
use crate::leaf_weights::LeafWeights;
use lt_marks::{Reached, Track, Walk};
use lt_term::Var;

/// Walks from the root of what is still to be done in a body to where its chooser leads. The walk then has the constraints
/// and the locals of an instant, or the weights of a choice at which the chooser has stopped.
pub fn reach<M, C: Chooser<M>>(
    track: &mut Track,
    locals: &[Var],
    walk: &mut Walk,
    context: &M,
    chooser: &mut C,
) -> Reached
    requires room { IsRoomy (nodes (body track.old)) walk.old }
    requires counted { IsCounted (standing track.old) }
    requires tallied { IsTallied track.old }
    requires raised { IsRoomFor (body track.old) walk.old.raised.items }
    requires begins { C.come chooser.old ≡ [] }
    requires at { (most : ℕ) × C.is_at chooser.old context.now
        (offers_of (kinds_of locals.now) (standing track.old)) most }
    ensures same_body { body track.new ≡ body track.old }
    ensures same_standing { standing track.new ≡ standing track.old }
    ensures still { still track.new ≡ still track.old }
    ensures tallied { IsTallied track.new }
    ensures same_capacities { capacities walk.new ≡ capacities walk.old }
    ensures same_raised { walk.new.raised.items ≡ walk.old.raised.items }
    ensures follows { (ks : List ℕ) → IsOpen result ks →
        Follows (offers_of (kinds_of locals.now) (standing track.old))
        (setting_out (C.come chooser.new ++ ks)) result (held ks walk.new) (next track.new) }
    ensures arrives { (most : ℕ) →
        C.is_at chooser.old context.now (offers_of (kinds_of locals.now) (standing track.old)) most →
        Arrives
        (C.is_at chooser.new context.now (offers_of (kinds_of locals.now) (standing track.old)) most)
        (C.has_stopped chooser.new context.now
        (offers_of (kinds_of locals.now) (standing track.old)) most) result }
    ensures ends { Arrives (Unit {0}) (C.left chooser.new ≡ []) result }
{
    walk.set_out();
    let leaf_weights = LeafWeights { vanish: 1, go: 1 };
    arrive(track, false, locals, walk, leaf_weights, context, chooser)
}
