//! A run of a campaign.

ghost use Rattle.std.specs.Prelude.{◌≡◌};
ghost use Rattle.lt_loop.specs.CoreView.{last_text};
ghost use Rattle.lt_loop.specs.InputSource.{InputSource};
ghost use Rattle.lt_loop.specs.Run.{Answers};
ghost use Rattle.lt_session.specs.Side.{IsOf};
ghost use Rattle.lt_campaign.specs.Run.{TakesPart, broken_after, traced_of, wants_after};
ghost use Rattle.lt_campaign.specs.RunView.{run_view};

use lt_drive::Served;
use lt_io::Link;
use lt_loop::{Core, Machine, PieceKind, Wants};
use lt_rif::Who;
use lt_session::{Side, fault_sides, serve_sides};

/// A run between two events.
pub(crate) struct Run<'a, M: Machine, L> {
    pub core: Core<M>,

    pub controller: Side<'a, L>,

    pub oracle: Side<'a, L>,

    /// What it waits for.
    pub wants: Wants,

    /// The side to which its last piece could not be sent, if there is one.
    pub broken: Option<Who>,
}

/// Lets a run take its part of a round: one event, if it isn't over. The kind of its last piece is told, where that is for
/// the trace.
pub(crate) fn take_part<M: Machine, L: Link>(run: &mut Run<'_, M, L>) -> Option<PieceKind>
    ensures part { TakesPart Answers (run_view L.state run.old) (run_view L.state run.new)
        (last_text run.new.core) result }
    ensures controller { (s : InputSource) → IsOf s run.old.controller → IsOf s run.new.controller }
    ensures oracle { (s : InputSource) → IsOf s run.old.oracle → IsOf s run.new.oracle }
{
    let Run {
        core,
        controller,
        oracle,
        wants,
        broken,
    } = run;
    match *broken {
        Some(who) => note(fault_sides(who, core, controller, oracle), wants, broken),
        None => match *wants {
            Wants::Nothing(_) => None,
            wanted => note(serve_sides(wanted, core, controller, oracle), wants, broken),
        },
    }
}

// Notes what came of an event.
fn note(served: Served, wants: &mut Wants, broken: &mut Option<Who>) -> Option<PieceKind>
    ensures wants { wants.new ≡ wants_after served wants.old }
    ensures broken { broken.new ≡ broken_after served }
    ensures traced { result ≡ traced_of served }
{
    match served {
        Served::Goes {
            wants: next,
            traced,
        } => {
            *wants = next;
            *broken = None;
            traced
        }
        Served::Broken(who) => {
            *broken = Some(who);
            None
        }
    }
}
