//! Laws. The functions do nothing: their contracts say it.

ghost use Rattle.lt_legal_laws.specs.Runs.{InstantsEnd, InstantsFollow, RunsReach};

use lt_instant::{deadlock_means_none_live, draw_is_legal, solutions_pass};

/// Where an instant has values, the step that shows them follows.
pub fn instants_follow()
    ensures { InstantsFollow }
{
    solutions_pass();
    draw_is_legal();
}

/// Where an instant ends a run, that may be its end.
pub fn instants_end()
    ensures { InstantsEnd }
{
    draw_is_legal();
    deadlock_means_none_live();
}

/// What a run shows reaches where it stands.
pub fn runs_reach()
    ensures { RunsReach }
{
    solutions_pass();
    draw_is_legal();
}
