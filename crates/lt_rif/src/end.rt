//! How a run ends.

ghost use Rattle.std.specs.Prelude.{◌≡◌, ◌-◌, ◌<◌, ◌^◌};
ghost use Rattle.lt_rif.specs.Trace.{end_number, step_at_hand};

use crate::fault::ValueFault;
use lt_num::Arith;

/// A side that answers the tester.
#[derive(Clone, Copy, Debug, PartialEq, Eq)]
pub enum Who {
    /// It gives the scenario's inputs.
    Controller,

    /// It judges each step.
    Oracle,
}

/// The end of a run.
#[derive(Clone, Copy, Debug, PartialEq, Eq)]
pub enum End {
    /// The scenario is over.
    Normal,

    /// As many steps as were allowed have been made.
    Limit,

    /// The oracle's verdict was false.
    Oracle,

    /// No alternative of the next instant can be taken.
    Deadlock,

    /// The scenario raised the exception of this number, from 0, which nothing catches.
    Raise {
        exception: u32,
    },

    /// An expression of the scenario has no value.
    Fault(Arith),

    /// An instant offers too much.
    TooLarge,

    /// A reply was refused, at a place of its stream.
    Malformed {
        who: Who,
        fault: ValueFault,
        place: usize,
    },

    /// A stream ended where a reply was due, of which so many bytes had come.
    Ended {
        who: Who,
        taken: usize,
    },

    /// The connection to a side failed.
    Device(Who),

    /// An instant needs more work than was allowed.
    Budget {
        need: u128,
    },
}

impl End {
    /// The number of the end line of a run that ended so, of which so many steps were put out: that of the last step where
    /// the run is over, at its limit or judged, and else that of the step at hand.
    pub fn number(self, steps: u64) -> u64
        requires { steps < 2 ^ 64 - 1 }
        ensures { result ≡ end_number self steps }
    {
        match self {
            End::Normal | End::Limit | End::Oracle => steps,
            End::Deadlock
            | End::Raise { .. }
            | End::Fault(_)
            | End::TooLarge
            | End::Malformed { .. }
            | End::Ended { .. }
            | End::Device(_)
            | End::Budget { .. } => step_at_hand(steps),
        }
    }
}

/// The number of the step at hand, where so many steps were put out.
pub fn step_at_hand(steps: u64) -> u64
    requires { steps < 2 ^ 64 - 1 }
    ensures { result ≡ step_at_hand steps }
{
    steps + 1
}
