//! Where bytes go.

ghost use Rattle.std.specs.Prelude.{◌≡◌, ◌<◌, ◌≤◌, length, IfOk};
ghost use Rattle.std.specs.Io.KnownBytes.{WriteAppends};
ghost use Rattle.lt_io.specs.Causes.{HasCause};
ghost use Rattle.lt_io.specs.Sink.{Sink};

use thiserror::Error;

/// The outside failed.
#[derive(Clone, Copy, Debug, PartialEq, Eq, Error)]
#[error("the outside failed")]
pub struct Failed;

/// A place that takes bytes.
pub trait Sink {
    // what it tells of itself
    ghost state: { Self → Sink };

    /// Whether texts may wait for further ones, and be written together with them, where nobody is waited for. That
    /// never changes.
    fn gathers(&self) -> bool
        ensures { result ≡ (state self.now).gathers };

    /// Offers a piece that is not empty, and answers how many of its first bytes were taken: one at
    /// least, and perhaps fewer than all. The rest may be offered again.
    ///
    /// `Failed` comes only where the count of faults rose, and then no byte was taken. A call that
    /// takes bytes leaves the count as it was.
    fn write(&mut self, bytes: &[u8]) -> Result<usize, Failed>
        requires { 0 < length bytes.now }
        ensures some { IfOk result (λ n. 0 < n) }
        ensures within { IfOk result (λ n. n ≤ length bytes.now) }
        ensures appends { WriteAppends (state self.old).written (state self.new).written result
            bytes.now }
        ensures cause { HasCause (state self.old).faults (state self.new).faults result }
        ensures still { (state self.new).gathers ≡ (state self.old).gathers };
}
