//! A link over a reader and a writer of the system.

ghost use Rattle.std.specs.Prelude.{◌≡◌};
ghost use Rattle.lt_io.specs.Link.{anything};

use crate::link::Link;
use crate::putting::put;
use crate::sink::Failed;
use crate::std_sink::StdSink;
use std::io::{Read, Write};

/// A link over any reader and writer, as standard input and output. It tells what its reader and writer tell,
/// which for those of the system is nothing.
#[derive(Drop)]
pub struct StdLink<R: Read + Drop, W: Write + Drop> {
    reader: R,
    // It counts the faults of both ways.
    sink: StdSink<W>,
}

impl<R: Read + Drop, W: Write + Drop> StdLink<R, W> {
    /// A link with no fault so far, whose bytes come from `reader` and go to `writer`.
    pub fn new(reader: R, writer: W) -> Self
        ensures reader { result.reader ≡ reader }
        ensures writer { result.sink.writer ≡ writer }
        ensures faults { result.sink.faults ≡ 0 }
    {
        StdLink {
            reader,
            sink: StdSink::new(writer),
        }
    }

    /// How many calls failed, up to `u64::MAX`.
    pub fn faults(&self) -> u64
        ensures { result ≡ self.now.sink.faults }
    {
        self.sink.faults
    }
}

impl<R: Read + Drop, W: Write + Drop> Link for StdLink<R, W> {
    ghost state = { λ l. record {
      sent = W.contents l.sink.writer;
      left = R.remaining l.reader;
      faults = l.sink.faults;
      fits = anything;
    } };

    /// An error of the writer is a fault, and so is a write that takes nothing.
    fn send(&mut self, bytes: &[u8]) -> Result<(), Failed> {
        put(&mut self.sink, bytes)
    }

    /// An error of the reader is a fault.
    fn recv(&mut self, into: &mut [u8]) -> Result<usize, Failed> {
        if let Ok(count) = self.reader.read(into) {
            return Ok(count);
        }
        self.sink.faults = self.sink.faults.saturating_add(1);
        Err(Failed)
    }
}
