//! Sessions that are closed.

ghost use Rattle.std.specs.Prelude.{◌≡◌, ◌≤◌, IfSome, map, option_map};
ghost use Rattle.lt_loop.specs.CoreView.{core_state};
ghost use Rattle.lt_loop.specs.InputSource.{InputSource};
ghost use Rattle.lt_campaign.specs.Campaign.{AllClose, blame, blamed_from};
ghost use Rattle.lt_campaign.specs.Few.{steps_of};
ghost use Rattle.lt_campaign.specs.EndView.{blamed_view, core_names};
ghost use Rattle.lt_campaign.specs.RunView.{AllHaveKinds, HasKinds, session_view};
ghost use Rattle.lt_campaign.specs.Session.{IsClosed, names_of};

use crate::campaign_end::{Blamed, Outcome};
use crate::run::Run;
use crate::session::{Session, outcome};
use lt_io::Spawner;
use lt_loop::{Core, Machine};
use lt_session::close;

/// Closes all sessions, one after another, and answers the first that didn't end well, if there is one.
pub(crate) fn close_all<M: Machine, P: Spawner>(
    sessions: Vec<Session<'_, M, P::L>>,
    spawner: &mut P,
) -> Option<Blamed<M>>
    ensures closes { (c o : InputSource) → AllHaveKinds c o sessions.entry.items →
        AllClose c o (P.state spawner.old) (P.state spawner.new)
        (map (session_view P.L.state) sessions.entry.items) }
    ensures blames { blamed_view result ≡
        blamed_from 0 (map (session_view P.L.state) sessions.entry.items) }
{
    let mut sessions = sessions;
    let mut blamed = None;
    let mut number = 0;
    while !sessions.is_empty() {
        let session = sessions.remove(0);
        let outcome = outcome(&session);
        let core = close_session(session, spawner);
        blamed = blamed.or(blame(number, outcome, core));
        number += 1;
    }
    sessions.destroy_empty();
    blamed
}

// A session that ended so, if it has, and didn't end well.
fn blame<M: Machine>(
    session: usize,
    outcome: Option<Outcome>,
    core: Option<Core<M>>,
) -> Option<Blamed<M>>
    requires { IfSome outcome (λ how. steps_of how ≤ 1_000_000) }
    ensures { blamed_view result ≡ blame session outcome (core_names core) }
{
    let outcome = outcome?;
    if outcome.is_well() {
        return None;
    }
    Some(Blamed {
        session,
        outcome,
        core,
    })
}

// Closes a session: its links are given back, the controller's first. Its core is answered, where it was started.
fn close_session<M: Machine, P: Spawner>(
    session: Session<'_, M, P::L>,
    spawner: &mut P,
) -> Option<Core<M>>
    ensures closes { (c o : InputSource) → HasKinds c o session.entry →
        IsClosed c o (P.state spawner.old) (P.state spawner.new)
        (session_view P.L.state session.entry) }
    ensures names { core_names result ≡ names_of (session_view P.L.state session.entry) }
{
    match session {
        Session::Started(run) => {
            let Run {
                core,
                controller,
                oracle,
                wants: _,
                broken: _,
            } = run;
            close(spawner, controller);
            close(spawner, oracle);
            Some(core)
        }
        Session::Unstarted {
            who: _,
            controller: Some(side),
        } => {
            close(spawner, side);
            None
        }
        Session::Unstarted {
            who: _,
            controller: None,
        } => None,
    }
}
