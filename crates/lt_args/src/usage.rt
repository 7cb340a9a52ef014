//! What is wrong with the words of a call, and how that is said.

ghost use Rattle.std.specs.Prelude.{◌≡◌};
ghost use Rattle.lt_args.specs.Usage.{usage_text, usage_word};
ghost use Rattle.lt_args.specs.inner.Refusal.{refusal_by};

use clap::Error;
use clap::error::ErrorKind;
use std::alloc::AllocError;

/// What is wrong with the words of a call. The first kind that there is counts.
#[derive(Clone, Copy, Debug, PartialEq, Eq)]
pub enum UsageKind {
    /// They aren't MODE, FILE and options, or they ask for help.
    Words,

    /// There is no such mode.
    Mode,

    /// The word in the place of FILE isn't the number of a large run: decimal digits alone, at most 999,999.
    Number,

    /// A run or a campaign is given both a controller and an earlier trace that stands for one.
    Both,

    /// A check is given no trace.
    Trace,
}

/// Why words ask for nothing.
#[derive(Clone, Copy, Debug, PartialEq, Eq)]
pub enum WordsRefusal {
    /// They are wrong.
    Usage(UsageKind),

    /// Memory ran out.
    Memory,
}

impl From<UsageKind> for WordsRefusal {
    ghost use Rattle.lt_args.specs.declared.usage.WordsRefusal.{WordsRefusal};

    ghost from_gives = { λ kind refusal. refusal ≡ WordsRefusal.Usage kind };

    fn from(kind: UsageKind) -> WordsRefusal {
        WordsRefusal::Usage(kind)
    }
}

impl From<AllocError> for WordsRefusal {
    ghost use Rattle.lt_args.specs.declared.usage.WordsRefusal.{WordsRefusal};

    ghost from_gives = { λ _ refusal. refusal ≡ WordsRefusal.Memory };

    fn from(_error: AllocError) -> WordsRefusal {
        WordsRefusal::Memory
    }
}

impl From<Error> for WordsRefusal {
    ghost from_gives = { λ error refusal. refusal ≡ refusal_by error };

    fn from(error: Error) -> WordsRefusal {
        match error.kind() {
            ErrorKind::OutOfMemory => WordsRefusal::Memory,
            _ => WordsRefusal::Usage(UsageKind::Words),
        }
    }
}

/// The word of what is wrong.
pub fn usage_word(kind: UsageKind) -> &'static [u8]
    ensures { result.now ≡ usage_word kind }
{
    match kind {
        UsageKind::Words => b"words",
        UsageKind::Mode => b"mode",
        UsageKind::Number => b"number",
        UsageKind::Both => b"both",
        UsageKind::Trace => b"trace",
    }
}

/// How the program is called.
pub fn usage_text() -> &'static [u8]
    ensures { result.now ≡ usage_text }
{
    b"lurette MODE FILE [-l N] [--seed N] [--precision N] [--budget N] [--node NAME] [--sut CMD] [--oracle CMD] [--replay FILE] [--locals] [--draw N] [--count N]"
}
