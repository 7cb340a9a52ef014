//! Numbers that a call goes by: `docs/COMMAND.md` has them.

ghost use Rattle.std.specs.Prelude.{◌≡◌};
ghost use Rattle.lt_args.specs.Settings.{longest_text, longest_replay, most_steps, default_steps, most_number, most_decimals, default_decimals, most_seed, default_seed, most_draw, default_draw, most_budget, default_budget, most_count, default_count};

/// The longest text of a scenario, in bytes.
pub const LONGEST_TEXT: usize = 1_048_576;

/// The longest trace that is played again, in bytes.
pub const LONGEST_REPLAY: usize = 67_108_864;

/// The most steps that words may ask for.
pub const MOST_STEPS: u64 = 1_000_000;

/// The most steps where words don't say.
pub const DEFAULT_STEPS: u64 = 100;

/// The greatest number that a large run may be made from.
pub const MOST_NUMBER: u64 = 999_999;

/// The most decimals that a real may have.
pub const MOST_DECIMALS: u32 = 6;

/// How many decimals a real has where words don't say.
pub const DEFAULT_DECIMALS: u32 = 2;

/// The greatest seed that words may ask for.
pub const MOST_SEED: u64 = u64::MAX;

/// The seed where words don't say.
pub const DEFAULT_SEED: u64 = 0;

/// The greatest number of a rule of drawing that words may ask for. The least is 1.
pub const MOST_DRAW: u64 = 3;

/// The number of the rule of drawing where words don't say.
pub const DEFAULT_DRAW: u64 = 1;

/// The greatest budget that words may ask for.
pub const MOST_BUDGET: u64 = 1_000_000_000_000;

/// The budget where words don't say: the greatest need that a search may have.
pub const DEFAULT_BUDGET: u64 = 10_000_000;

/// The most sessions of a campaign that words may ask for. The least is 1.
pub const MOST_COUNT: u64 = 64;

/// How many sessions a campaign has where words don't say.
pub const DEFAULT_COUNT: u64 = 1;

/// These are the numbers that the definitions name.
pub fn settings_are_as_defined()
    ensures longest_text { LONGEST_TEXT ≡ longest_text }
    ensures longest_replay { LONGEST_REPLAY ≡ longest_replay }
    ensures most_steps { MOST_STEPS ≡ most_steps }
    ensures default_steps { DEFAULT_STEPS ≡ default_steps }
    ensures most_number { MOST_NUMBER ≡ most_number }
    ensures most_decimals { MOST_DECIMALS ≡ most_decimals }
    ensures default_decimals { DEFAULT_DECIMALS ≡ default_decimals }
    ensures most_seed { MOST_SEED ≡ most_seed }
    ensures default_seed { DEFAULT_SEED ≡ default_seed }
    ensures most_draw { MOST_DRAW ≡ most_draw }
    ensures default_draw { DEFAULT_DRAW ≡ default_draw }
    ensures most_budget { MOST_BUDGET ≡ most_budget }
    ensures default_budget { DEFAULT_BUDGET ≡ default_budget }
    ensures most_count { MOST_COUNT ≡ most_count }
    ensures default_count { DEFAULT_COUNT ≡ default_count }
{}
