//! A writer and a reader of which some calls fail.

use lt_io::Calls;
use std::io;
use std::io::{ErrorKind, Read, Write};

/// A writer that keeps all that it takes. It takes nothing in a call that fails.
#[derive(Drop)]
pub struct FailingWriter {
    pub calls: Calls,
    pub taken: Vec<u8>,
}

impl Write for FailingWriter {
    fn write(&mut self, bytes: &[u8]) -> io::Result<usize> {
        let goes_well = !is_failing(&mut self.calls);
        if goes_well && self.taken.extend_from_slice(bytes).is_ok() {
            return Ok(bytes.len());
        }
        Err(io::Error::from(ErrorKind::BrokenPipe))
    }

    fn flush(&mut self) -> io::Result<()> {
        Ok(())
    }
}

/// A reader of these bytes. It gives nothing in a call that fails.
#[derive(Drop)]
pub struct FailingReader<'a> {
    pub calls: Calls,
    pub left: &'a [u8],
}

impl<'a> Read for FailingReader<'a> {
    fn read(&mut self, into: &mut [u8]) -> io::Result<usize> {
        if is_failing(&mut self.calls) {
            return Err(io::Error::from(ErrorKind::BrokenPipe));
        }
        let count = into.len().min(self.left.len());
        into[..count].copy_from_slice(&self.left[..count]);
        self.left = &self.left[count..];
        Ok(count)
    }
}

// Whether this call is to fail. It is counted.
fn is_failing(calls: &mut Calls) -> bool {
    let fails = calls.is_next_to_fail();
    if fails {
        calls.count_fault();
    } else {
        calls.count_success();
    }
    fails
}
