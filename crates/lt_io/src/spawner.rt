//! Where links come from.

ghost use Rattle.std.specs.Prelude.{◌≡◌, IfOk};
ghost use Rattle.lt_io.specs.Programs.{IsFinished, IsStarted, IsUnstarted, Programs, Same};

use crate::link::Link;
use std::alloc::Global;
use thiserror::Error;

/// Why a program was not started.
#[derive(Clone, Copy, Debug, PartialEq, Eq, Error)]
pub enum StartRefusal {
    /// The outside failed, as where there is no such program.
    #[error("the program could not be started")]
    Failed,
    /// No memory is left.
    #[error("out of memory")]
    Memory,
}

/// What starts programs, each by a command, and gives a link to each.
///
/// A link can't be dropped: each one that was started is given back to `finish`.
pub trait Spawner {
    /// The link to a program that was started.
    type L: Link;

    // what is told of its programs
    ghost state: { Self → Programs };

    /// Starts a program by its command, and gives a link to it, which was sent nothing and has no fault.
    ///
    /// The command is recorded among those that were asked for, but not where the answer is `Memory`.
    /// `Failed` comes only where the count of faults rose, and any other answer leaves it as it was.
    fn start(&mut self, alloc: Global, command: &str) -> Result<Self::L, StartRefusal>
        ensures started { IfOk result (λ link.
            IsStarted command.now (state self.old) (state self.new) (Self.L.state link)) }
        ensures failed { result ≡ Err StartRefusal.Failed →
            IsUnstarted command.now (state self.old) (state self.new) }
        ensures memory { result ≡ Err StartRefusal.Memory →
            Same (state self.old) (state self.new) };

    /// Takes a link back, closes it, and waits for the end of its program where there is a real one.
    ///
    /// The link's faults are added to the count here. Faults of the end itself may be counted too.
    fn finish(&mut self, link: Self::L)
        ensures finished { IsFinished (state self.old) (state self.new) (Self.L.state link) };
}
