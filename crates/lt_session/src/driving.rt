//! A run over the sides that were opened for it.

ghost use Rattle.std.specs.Prelude.{◌≡◌};
ghost use Rattle.std.specs.declared.option.Option.{Option};
ghost use Rattle.lt_drive.specs.Drive.{IsDriven, continuation_of};
ghost use Rattle.lt_io.specs.Outside.{linked};
ghost use Rattle.lt_loop.specs.CoreState.{IsAhead, core_giving_up};
ghost use Rattle.lt_loop.specs.CoreView.{core_state};
ghost use Rattle.lt_loop.specs.Event.{WantsTell};
ghost use Rattle.lt_loop.specs.InputSource.{InputSource};
ghost use Rattle.lt_loop.specs.Machine.{GivenUp};
ghost use Rattle.lt_session.specs.Side.{IsOf, side_link};

use crate::side::Side;
use lt_drive::{DriveEnd, drive};
use lt_io::{Link, Sink};
use lt_loop::{Core, Machine, Wants};
use std::alloc::Global;

// Drives a run to its end, over the sides that were opened for it.
pub(crate) fn drive_sides<M: Machine, L: Link, S: Sink>(
    alloc: Global,
    core: &mut Core<M>,
    controller: &mut Side<'_, L>,
    oracle: &mut Side<'_, L>,
    trace: &mut S,
) -> DriveEnd
    requires { WantsTell (core_state core.old) Wants.Turn }
    ensures driven { (u : Option GivenUp) → IsAhead (core_state core.new) u →
        IsDriven (continuation_of (core_giving_up u (core_state core.old)))
        (linked (side_link L.state controller.old) (side_link L.state oracle.old)
        (S.state trace.old))
        (linked (side_link L.state controller.new) (side_link L.state oracle.new)
        (S.state trace.new))
        (core_giving_up u (core_state core.new)) result }
    ensures plan { (core_state core.new).plan ≡ (core_state core.old).plan }
    ensures controller { (s : InputSource) → IsOf s controller.old → IsOf s controller.new }
    ensures oracle { (s : InputSource) → IsOf s oracle.old → IsOf s oracle.new }
{
    match controller {
        Side::Recorded(link) => drive_beside(alloc, core, link, oracle, trace),
        Side::Program(link) => drive_beside(alloc, core, link, oracle, trace),
    }
}

// Drives a run to its end, over the controller's link and the oracle's side.
fn drive_beside<M: Machine, C: Link, L: Link, S: Sink>(
    alloc: Global,
    core: &mut Core<M>,
    controller: &mut C,
    oracle: &mut Side<'_, L>,
    trace: &mut S,
) -> DriveEnd
    requires { WantsTell (core_state core.old) Wants.Turn }
    ensures driven { (u : Option GivenUp) → IsAhead (core_state core.new) u →
        IsDriven (continuation_of (core_giving_up u (core_state core.old)))
        (linked (C.state controller.old) (side_link L.state oracle.old) (S.state trace.old))
        (linked (C.state controller.new) (side_link L.state oracle.new) (S.state trace.new))
        (core_giving_up u (core_state core.new)) result }
    ensures plan { (core_state core.new).plan ≡ (core_state core.old).plan }
    ensures oracle { (s : InputSource) → IsOf s oracle.old → IsOf s oracle.new }
{
    match oracle {
        Side::Recorded(link) => drive(alloc, core, controller, link, trace),
        Side::Program(link) => drive(alloc, core, controller, link, trace),
    }
}
