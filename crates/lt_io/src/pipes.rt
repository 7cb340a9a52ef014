//! The two pipes of a program.

ghost use Rattle.std.specs.Prelude.{◌≡◌, ◌≤◌, [], length, IfOk, OnOk, OnErr};
ghost use Rattle.std.specs.Io.{ReadsAtMost};
ghost use Rattle.std.specs.Io.KnownBytes.{Appends, Keeps, ReadConsumes, WriteAppends};
ghost use Rattle.lt_io.specs.Pipes.{left_of};
ghost use Rattle.lt_io.specs.Sending.{AppendsPrefix};

use crate::sink::Failed;
use libc::net::{POLLIN, POLLOUT, poll};
use libc::types::pollfd;
use std::alloc::{AllocError, Global};
use std::io::{ErrorKind, Read, Write};
use std::os::fd::{AsRawFd, RawFd};

// How many bytes are kept at most that come while something is sent.
const MOST_KEPT: usize = 65_536;

// How many bytes are received at once while something is sent.
const PIECE: usize = 4096;

// The two pipes of a program: one that it reads, and one that it writes.
//
// A program that writes more than it is asked for stands still once the pipe of its output is full, and then reads
// nothing. So while its input is full, what it writes is received and kept. Where there is no more room for that,
// sending fails, since such a program may never read again.
//
// They are any writer and any reader that can be waited for. What was sent is what the writer tells, and what is left
// is what was kept, and then what the reader tells.
#[derive(Drop)]
pub(crate) struct Pipes<W: Write + Drop, R: Read + Drop> {
    // A write to it never waits.
    pub(crate) input: W,
    pub(crate) output: R,
    // What was received while something was sent.
    pub(crate) kept: Vec<u8>,
    // The end of the output was received then.
    has_ended: bool,
}

// The memory for what is kept, which is all that pipes ever take.
pub(crate) fn room(alloc: Global) -> Result<Vec<u8>, AllocError>
    ensures { IfOk result (λ room. room.items ≡ []) }
{
    Vec::with_capacity(alloc, MOST_KEPT)
}

impl<W: Write + AsRawFd + Drop, R: Read + AsRawFd + Drop> Pipes<W, R> {
    // The pipes of a program, with the memory for what is kept. The system may refuse them.
    pub(crate) fn new(input: W, output: R, room: Vec<u8>) -> Result<Self, Failed>
        ensures input { IfOk result (λ pipes. pipes.input ≡ input) }
        ensures output { IfOk result (λ pipes. pipes.output ≡ output) }
        ensures kept { IfOk result (λ pipes. pipes.kept ≡ room) }
    {
        if os::set_nonblocking(input.as_raw_fd(), true) < 0 {
            return Err(Failed);
        }
        Ok(Pipes {
            input,
            output,
            kept: room,
            has_ended: false,
        })
    }

    // Sends all of these bytes. An error of the pipe is a failure, and so is a write that takes nothing: then a prefix
    // of them was sent.
    #[tactic(auto, using(crate::proofs::Keeping::sent_all, crate::proofs::Keeping::sent_part, crate::proofs::Keeping::sent_part_at_last, crate::proofs::Keeping::stays_longer))]
    pub(crate) fn send(&mut self, bytes: &[u8]) -> Result<(), Failed>
        ensures all { OnOk result (Appends (W.contents self.old.input) (W.contents self.new.input)
            bytes.now) }
        ensures prefix { OnErr result (AppendsPrefix (W.contents self.old.input)
            (W.contents self.new.input) bytes.now) }
        ensures stays { Keeps (left_of R.remaining self.old) (left_of R.remaining self.new) }
    {
        let mut sent = 0;
        for _ in 0..u64::MAX {
            if sent == bytes.len() {
                return Ok(());
            }
            sent += self.offer(&bytes[sent..])?;
        }
        Err(Failed)
    }

    // Offers bytes to the program, and answers how many of the first of them it took. None were taken where its input was
    // full, and then it was waited for.
    fn offer(&mut self, bytes: &[u8]) -> Result<usize, Failed>
        ensures within { IfOk result (λ n. n ≤ length bytes.now) }
        ensures taken { WriteAppends (W.contents self.old.input) (W.contents self.new.input) result
            bytes.now }
        ensures stays { Keeps (left_of R.remaining self.old) (left_of R.remaining self.new) }
    {
        match self.input.write(bytes) {
            Ok(0) => Err(Failed),
            Ok(count) => Ok(count),
            Err(error) if error.kind() == ErrorKind::WouldBlock => {
                self.wait()?;
                Ok(0)
            }
            Err(_) => Err(Failed),
        }
    }

    // Receives the next bytes: those that were kept, and else those that come.
    pub(crate) fn receive(&mut self, into: &mut [u8]) -> Result<usize, Failed>
        ensures within { ReadsAtMost result into.new }
        ensures takes { ReadConsumes (left_of R.remaining self.old) (left_of R.remaining self.new)
            result into.new }
        ensures stays { self.new.input ≡ self.old.input }
    {
        if self.kept.is_empty() {
            return self.output.read(into).map_err(|_| Failed);
        }
        let count = into.len().min(self.kept.len());
        into[..count].copy_from_slice(&self.kept[..count]);
        drop(self.kept.drain(..count));
        Ok(count)
    }

    // Waits until the program reads or writes. Where it doesn't read, what it writes is kept.
    fn wait(&mut self) -> Result<(), Failed>
        ensures input { self.new.input ≡ self.old.input }
        ensures stays { Keeps (left_of R.remaining self.old) (left_of R.remaining self.new) }
    {
        // A number below 0 is passed over: an end that was received would end each wait.
        let output = if self.has_ended {
            -1
        } else {
            self.output.as_raw_fd()
        };
        let mut asked = [
            asked_of(self.input.as_raw_fd(), POLLOUT),
            asked_of(output, POLLIN),
        ];
        if poll(&mut asked, -1) < 0 {
            return Err(Failed);
        }
        if asked[0].revents == 0 {
            self.keep()?;
        }
        Ok(())
    }

    // Receives what there is, as much as there is room for, and keeps it.
    fn keep(&mut self) -> Result<(), Failed>
        ensures input { self.new.input ≡ self.old.input }
        ensures stays { Keeps (left_of R.remaining self.old) (left_of R.remaining self.new) }
    {
        let mut piece = [0; PIECE];
        let room = MOST_KEPT.saturating_sub(self.kept.len()).min(PIECE);
        if room == 0 || self.kept.reserve(room).is_err() {
            return Err(Failed);
        }
        let count = self.output.read(&mut piece[..room]).map_err(|_| Failed)?;
        self.has_ended = count == 0;
        self.kept.extend_from_slice(&piece[..count]).unwrap();
        Ok(())
    }
}

// What a wait asks of a pipe.
fn asked_of(fd: RawFd, events: i16) -> pollfd {
    pollfd {
        fd,
        events,
        revents: 0,
    }
}
