//! One event over the sides that were opened for a run.

ghost use Rattle.std.specs.Prelude.{◌≡◌, ◌≢◌};
ghost use Rattle.lt_drive.specs.Served.{IsServed, IsTold, Standing};
ghost use Rattle.lt_io.specs.Outside.{Links};
ghost use Rattle.lt_loop.specs.Event.{failed};
ghost use Rattle.lt_loop.specs.InputSource.{InputSource};
ghost use Rattle.lt_rif.specs.declared.end.End.{End};
ghost use Rattle.lt_session.specs.Side.{IsOf, side_link};

use crate::side::Side;
use lt_drive::{Reactor, Served, serve, serve_fault};
use lt_io::Link;
use lt_loop::Wants;
use lt_rif::Who;

/// Tells what is wanted, over the sides that were opened, as [`serve`] does over links.
pub fn serve_sides<R: Reactor, L: Link>(
    wants: Wants,
    core: &mut R,
    controller: &mut Side<'_, L>,
    oracle: &mut Side<'_, L>,
) -> Served
    requires { (e : End) → wants ≢ Wants.Nothing e }
    ensures served { IsServed R.answers
        (record { core = R.state core.old; links = record { controller = side_link L.state controller.old; oracle = side_link L.state oracle.old } })
        (record { core = R.state core.new; links = record { controller = side_link L.state controller.new; oracle = side_link L.state oracle.new } })
        (R.shown core.new) wants result }
    ensures controller { (s : InputSource) → IsOf s controller.old → IsOf s controller.new }
    ensures oracle { (s : InputSource) → IsOf s oracle.old → IsOf s oracle.new }
{
    match controller {
        Side::Recorded(link) => serve_beside(wants, core, link, oracle),
        Side::Program(link) => serve_beside(wants, core, link, oracle),
    }
}

// The same over the controller's link and the oracle's side.
fn serve_beside<R: Reactor, C: Link, L: Link>(
    wants: Wants,
    core: &mut R,
    controller: &mut C,
    oracle: &mut Side<'_, L>,
) -> Served
    requires { (e : End) → wants ≢ Wants.Nothing e }
    ensures served { IsServed R.answers
        (record { core = R.state core.old; links = record { controller = C.state controller.old; oracle = side_link L.state oracle.old } })
        (record { core = R.state core.new; links = record { controller = C.state controller.new; oracle = side_link L.state oracle.new } })
        (R.shown core.new) wants result }
    ensures oracle { (s : InputSource) → IsOf s oracle.old → IsOf s oracle.new }
{
    match oracle {
        Side::Recorded(link) => serve(wants, core, controller, link),
        Side::Program(link) => serve(wants, core, controller, link),
    }
}

/// Tells that a side has failed, over the sides that were opened, as [`serve_fault`] does over links.
pub fn fault_sides<R: Reactor, L: Link>(
    who: Who,
    core: &mut R,
    controller: &mut Side<'_, L>,
    oracle: &mut Side<'_, L>,
) -> Served
    ensures told { IsTold R.answers
        (record { core = R.state core.old; links = record { controller = side_link L.state controller.old; oracle = side_link L.state oracle.old } })
        (record { core = R.state core.new; links = record { controller = side_link L.state controller.new; oracle = side_link L.state oracle.new } })
        (R.shown core.new) (failed who) result }
    ensures controller { (s : InputSource) → IsOf s controller.old → IsOf s controller.new }
    ensures oracle { (s : InputSource) → IsOf s oracle.old → IsOf s oracle.new }
{
    match controller {
        Side::Recorded(link) => fault_beside(who, core, link, oracle),
        Side::Program(link) => fault_beside(who, core, link, oracle),
    }
}

// The same over the controller's link and the oracle's side.
fn fault_beside<R: Reactor, C: Link, L: Link>(
    who: Who,
    core: &mut R,
    controller: &mut C,
    oracle: &mut Side<'_, L>,
) -> Served
    ensures told { IsTold R.answers
        (record { core = R.state core.old; links = record { controller = C.state controller.old; oracle = side_link L.state oracle.old } })
        (record { core = R.state core.new; links = record { controller = C.state controller.new; oracle = side_link L.state oracle.new } })
        (R.shown core.new) (failed who) result }
    ensures oracle { (s : InputSource) → IsOf s oracle.old → IsOf s oracle.new }
{
    match oracle {
        Side::Recorded(link) => serve_fault(who, core, controller, link),
        Side::Program(link) => serve_fault(who, core, controller, link),
    }
}
