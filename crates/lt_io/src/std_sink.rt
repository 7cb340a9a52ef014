//! A sink over a writer of the system.

ghost use Rattle.std.specs.Prelude.{◌≡◌, true};

use crate::sink::{Failed, Sink};
use std::io::Write;

/// A sink over any writer, as standard output. It tells the bytes that its writer tells, which for
/// standard output and for files are none.
#[derive(Drop)]
pub struct StdSink<W: Write + Drop> {
    /// Where the bytes go.
    pub writer: W,
    /// How many calls failed, up to `u64::MAX`.
    pub faults: u64,
}

impl<W: Write + Drop> StdSink<W> {
    /// A sink with no fault so far, whose bytes go to `writer`.
    pub fn new(writer: W) -> Self
        ensures writer { result.writer ≡ writer }
        ensures faults { result.faults ≡ 0 }
    {
        StdSink { writer, faults: 0 }
    }
}

impl<W: Write + Drop> Sink for StdSink<W> {
    ghost state = { λ s. record {
      written = W.contents s.writer;
      faults = s.faults;
      gathers = true;
    } };

    /// Each write is a call of the system, so the fewer there are the better.
    fn gathers(&self) -> bool {
        true
    }

    /// An error of the writer is a fault, and so is a write that takes nothing.
    fn write(&mut self, bytes: &[u8]) -> Result<usize, Failed> {
        match self.writer.write(bytes) {
            Ok(count) if count > 0 => Ok(count),
            _ => {
                self.faults = self.faults.saturating_add(1);
                Err(Failed)
            }
        }
    }
}
