//! How a campaign ended.

ghost use Rattle.std.specs.Prelude.{◌≤◌};
ghost use Rattle.lt_campaign.specs.Few.{steps_of};

use lt_loop::{Core, Machine};
use lt_rif::{End, Who};

/// How a campaign ended.
#[derive(Clone, Copy, Debug, PartialEq, Eq)]
pub enum CampaignEnd {
    /// All sessions ended, and all of the trace was written.
    Finished,

    /// A write to the trace failed.
    TraceWriteFailed,

    /// Memory ran out before anything was written.
    Memory,
}

/// What came of a campaign.
#[derive(Drop)]
pub struct Campaigned<M: Machine> {
    /// How it ended.
    pub end: CampaignEnd,

    /// The first session that didn't end well, if there is one. None is told where not all of the trace was written.
    pub blamed: Option<Blamed<M>>,
}

/// A session that didn't end well.
#[derive(Drop)]
pub struct Blamed<M: Machine> {
    /// Its number, from 0.
    pub session: usize,

    /// How it ended.
    pub outcome: Outcome,

    /// Its core, where it was started.
    pub core: Option<Core<M>>,

    ghost few: { steps_of outcome ≤ 1_000_000 },
}

/// How a session ended.
#[derive(Clone, Copy, Debug, PartialEq, Eq)]
pub enum Outcome {
    /// Its run ended.
    Ended {
        /// How.
        end: End,

        /// How many steps were put out.
        steps: u64,
    },

    /// The program of this side could not be started.
    Never(Who),
}

impl Outcome {
    ghost use Rattle.std.specs.Prelude.{◌≡◌};
    ghost use Rattle.lt_campaign.specs.Session.{is_well};

    /// Whether it ended well: its scenario is over, or at the limit of its steps.
    pub fn is_well(self) -> bool
        ensures { result ≡ is_well self }
    {
        match self {
            Outcome::Ended { end, steps: _ } => matches!(end, End::Normal | End::Limit),
            Outcome::Never(_) => false,
        }
    }
}
