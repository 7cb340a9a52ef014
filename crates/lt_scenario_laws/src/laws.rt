//! The laws. The functions do nothing: their contracts say them.

ghost use Rattle.lt_scenario_laws.specs.Traced.{InstantsGiveTheirOwn, ScenarioPrefixesShowTheirRun, ScenarioReplaysAreTheSame, ScenarioTracesShowTheirRun, ScenariosAreTraceable, ScenariosShowTheirInstants};

use lt_grammar::program_is_written_as_spelled;
use lt_instant::solutions_pass;
use lt_lexer::tokens_stand_in_turn;
use lt_macros::names_are_there;
use lt_num::{points_are_those, test_tells_points};
use lt_play::Player;
use lt_trace_laws::{prefixes_show_their_run, replays_are_the_same, traces_show_their_run};

/// The trace of every scenario can be read back: it has few variables, and no name has a line feed.
pub fn scenarios_are_traceable()
    ensures { ScenariosAreTraceable }
{
    // Laws that the proof needs: the names of a program are those of its text, whose tokens are words.
    tokens_stand_in_turn();
    program_is_written_as_spelled();
}

/// Each instant of a scenario that gives values gives each output one of its kind that is a point of its range, and the same
/// holds of each local that it gives a value.
pub fn instants_give_their_own()
    ensures { InstantsGiveTheirOwn }
{
    // Laws that the proof needs: a variable's range is one of its kind, a solution is a point of the ranges, and what
    // is one passes the test of points.
    names_are_there();
    solutions_pass();
    points_are_those();
    test_tells_points();
}

/// So what each instant of a scenario's run shows can be read back.
pub fn scenarios_show_their_instants()
    ensures { ScenariosShowTheirInstants }
{
    // Laws that the proof needs: a variable's range is one of its kind, a solution is a point of the ranges, and what
    // is one passes the test of points.
    names_are_there();
    solutions_pass();
    points_are_those();
    test_tells_points();
}

/// A scenario's run that is played again from its own trace has the same trace, and ends in the same way.
pub fn scenario_replays_are_the_same()
    ensures { ScenarioReplaysAreTheSame }
{
    scenarios_are_traceable();
    scenarios_show_their_instants();
    replays_are_the_same::<Player>();
}

/// A scenario's run is told by the replies that its steps show.
pub fn scenario_traces_show_their_run()
    ensures { ScenarioTracesShowTheirRun }
{
    scenarios_are_traceable();
    scenarios_show_their_instants();
    traces_show_their_run::<Player>();
}

/// So is a run of a scenario that was cut before its end.
pub fn scenario_prefixes_show_their_run()
    ensures { ScenarioPrefixesShowTheirRun }
{
    scenarios_are_traceable();
    scenarios_show_their_instants();
    prefixes_show_their_run::<Player>();
}
