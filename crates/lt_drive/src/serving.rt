//! One event of a run, apart from the loop that makes a run of events.

ghost use Rattle.std.specs.Prelude.{◌≡◌, ◌≢◌, false};
ghost use Rattle.std.specs.Io.KnownBytes.{Keeps};
ghost use Rattle.lt_io.specs.Outside.{Links};
ghost use Rattle.lt_loop.specs.Event.{failed, told};
ghost use Rattle.lt_rif.specs.declared.end.End.{End};
ghost use Rattle.lt_drive.specs.Served.{IsServed, IsTold, Standing};

use crate::giving::give;
use crate::hearing::{PIECE, fault, hear};
use crate::reactor::Reactor;
use crate::served::Served;
use lt_io::Link;
use lt_loop::{Event, Wants};
use lt_rif::Who;

/// Tells what is wanted: a turn, or what comes of the side that is waited for, whose fault is told too. What is put out is
/// sent, where it is for a side.
pub fn serve<R: Reactor, C: Link, O: Link>(
    wants: Wants,
    core: &mut R,
    controller: &mut C,
    oracle: &mut O,
) -> Served
    requires { (e : End) → wants ≢ Wants.Nothing e }
    ensures served { IsServed R.answers
        (record { core = R.state core.old; links = record { controller = C.state controller.old; oracle = O.state oracle.old } })
        (record { core = R.state core.new; links = record { controller = C.state controller.new; oracle = O.state oracle.new } })
        (R.shown core.new) wants result }
    ensures no_controller { wants ≢ Wants.Controller →
        R.speaks (R.state core.old) Who.Controller ≡ false → controller.new ≡ controller.old }
    ensures untold { R.speaks (R.state core.old) Who.Controller ≡ false →
        Keeps (C.state controller.old).sent (C.state controller.new).sent }
    ensures no_oracle { wants ≢ Wants.Oracle → R.speaks (R.state core.old) Who.Oracle ≡ false →
        oracle.new ≡ oracle.old }
{
    match wants {
        Wants::Turn => tell(Event::Turn, core, controller, oracle),
        Wants::Controller => {
            let mut buffer = [0; PIECE];
            let event = hear(Who::Controller, controller, &mut buffer);
            tell(event, core, controller, oracle)
        }
        Wants::Oracle => {
            let mut buffer = [0; PIECE];
            let event = hear(Who::Oracle, oracle, &mut buffer);
            tell(event, core, controller, oracle)
        }
        Wants::Nothing(_) => unreachable!(),
    }
}

/// Tells that a side has failed. What is put out is sent, where it is for a side.
pub fn serve_fault<R: Reactor, C: Link, O: Link>(
    who: Who,
    core: &mut R,
    controller: &mut C,
    oracle: &mut O,
) -> Served
    ensures told { IsTold R.answers
        (record { core = R.state core.old; links = record { controller = C.state controller.old; oracle = O.state oracle.old } })
        (record { core = R.state core.new; links = record { controller = C.state controller.new; oracle = O.state oracle.new } })
        (R.shown core.new) (failed who) result }
    ensures no_controller { R.speaks (R.state core.old) Who.Controller ≡ false →
        controller.new ≡ controller.old }
    ensures no_oracle { R.speaks (R.state core.old) Who.Oracle ≡ false → oracle.new ≡ oracle.old }
{
    tell(fault(who), core, controller, oracle)
}

// Tells an event. What is put out is sent, where it is for a side.
fn tell<R: Reactor, C: Link, O: Link>(
    event: Event<'_>,
    core: &mut R,
    controller: &mut C,
    oracle: &mut O,
) -> Served
    ensures told { IsTold R.answers
        (record { core = R.state core.old; links = record { controller = C.state controller.old; oracle = O.state oracle.old } })
        (record { core = R.state core.new; links = record { controller = C.state controller.new; oracle = O.state oracle.new } })
        (R.shown core.new) (told event.entry) result }
    ensures no_controller { R.speaks (R.state core.old) Who.Controller ≡ false →
        controller.new ≡ controller.old }
    ensures no_oracle { R.speaks (R.state core.old) Who.Oracle ≡ false → oracle.new ≡ oracle.old }
{
    let emits = core.event(event);
    give(emits, core.text(), controller, oracle)
}
