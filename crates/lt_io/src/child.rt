//! Programs of the system.

ghost use Rattle.std.specs.Prelude.{◌≡◌, ◌≢◌, [], None, Some, IfOk, IfSome};
ghost use Rattle.std.specs.IoError.{error_kind};
ghost use Rattle.lt_io.specs.Files.{names_of};
ghost use Rattle.lt_io.specs.Link.{anything};
ghost use Rattle.lt_io.specs.Pipes.{left_of};

use crate::asked::make_room;
use crate::command::command_of;
use crate::link::Link;
use crate::pipes::{Pipes, room};
use crate::sink::Failed;
use crate::spawner::{Spawner, StartRefusal};
use std::alloc::Global;
use std::io::{ErrorKind, Read, Write};
use std::os::fd::AsRawFd;
use std::process::{ChildStdin, ChildStdout, Processes, SystemProcess};
use std::{io, process};

/// A program of the system that was started, whose standard input is sent to, and whose standard output is
/// received. Its standard error is that of this process. It tells what its two pipes tell, which for those of the system
/// is nothing.
///
/// A program that has ended, or has closed its standard input, makes `send` fail; no signal is raised. One that writes
/// while it is sent something is heard at once, up to 65,536 bytes that are kept. Where it writes more before it has read
/// what it is sent, `send` fails too.
#[derive(Drop)]
pub struct Child<W: Write + Drop = ChildStdin, R: Read + Drop = ChildStdout> {
    process: process::Child,
    pipes: Pipes<W, R>,
    // How many calls failed, up to `u64::MAX`.
    faults: u64,
}

impl<W: Write + AsRawFd + Drop, R: Read + AsRawFd + Drop> Link for Child<W, R> {
    ghost state = { λ c. record {
      sent = W.contents c.pipes.input;
      left = left_of R.remaining c.pipes;
      faults = c.faults;
      fits = anything;
    } };

    fn send(&mut self, bytes: &[u8]) -> Result<(), Failed> {
        let sent = self.pipes.send(bytes);
        if sent.is_err() {
            self.faults = self.faults.saturating_add(1);
        }
        sent
    }

    fn recv(&mut self, into: &mut [u8]) -> Result<usize, Failed> {
        let received = self.pipes.receive(into);
        if received.is_err() {
            self.faults = self.faults.saturating_add(1);
        }
        received
    }
}

/// Starts programs of the system. A command is a program and its arguments, split at blanks; there are no
/// quotes, and no shell reads it. It tells nothing of what comes.
#[derive(Drop)]
pub struct ChildSpawner<'a, R: Processes<Started = SystemProcess>> {
    rt: &'a R,
    /// The commands that were asked for, the last one at the end.
    pub asked: Vec<String>,
    /// How many calls failed, of those here and of those of finished links, up to `u64::MAX`.
    pub faults: u64,
}

impl<'a, R: Processes<Started = SystemProcess>> ChildSpawner<'a, R> {
    /// The programs that `rt` can start, none of them asked for so far. The commands asked for are kept in
    /// memory of `alloc`.
    pub fn new(rt: &'a R, alloc: Global) -> Self
        ensures asked { result.asked.items ≡ [] }
        ensures faults { result.faults ≡ 0 }
    {
        ChildSpawner {
            rt,
            asked: Vec::new(alloc),
            faults: 0,
        }
    }
}

fn refusal_of(error: &io::Error) -> StartRefusal
    ensures memory { error_kind error.now ≡ ErrorKind.OutOfMemory → result ≡ StartRefusal.Memory }
    ensures failed { error_kind error.now ≢ ErrorKind.OutOfMemory → result ≡ StartRefusal.Failed }
{
    if error.kind() == ErrorKind::OutOfMemory {
        StartRefusal::Memory
    } else {
        StartRefusal::Failed
    }
}

// Starts a program by its command.
fn launched<R: Processes<Started = SystemProcess>>(
    rt: &R,
    alloc: Global,
    command: &str,
) -> Result<process::Child, StartRefusal> {
    let mut command = command_of(alloc, command)?;
    command.spawn(rt).map_err(|error| refusal_of(&error))
}

// The pipes of a program that has just been started.
fn pipes_of(process: &mut process::Child, room: Vec<u8>) -> Option<Pipes<ChildStdin, ChildStdout>>
    ensures input { IfSome result (λ pipes. process.old.stdin ≡ Some pipes.input) }
    ensures output { IfSome result (λ pipes. process.old.stdout ≡ Some pipes.output) }
    ensures kept { IfSome result (λ pipes. pipes.kept ≡ room) }
{
    let input = process.stdin.take()?;
    let output = process.stdout.take()?;
    Pipes::new(input, output, room).ok()
}

// Starts a program by its command, and takes its pipes. One whose pipes can't be had is waited for.
fn started<R: Processes<Started = SystemProcess>>(
    rt: &R,
    alloc: Global,
    command: &str,
) -> Result<Child, StartRefusal>
    ensures faults { IfOk result (λ child. child.faults ≡ 0) }
    ensures kept { IfOk result (λ child. child.pipes.kept.items ≡ []) }
{
    let room = room(alloc).map_err(|_| StartRefusal::Memory)?;
    let mut process = launched(rt, alloc, command)?;
    if let Some(pipes) = pipes_of(&mut process, room) {
        return Ok(Child {
            process,
            pipes,
            faults: 0,
        });
    }
    let _ = process.wait();
    Err(StartRefusal::Failed)
}

impl<'a, R: Processes<Started = SystemProcess>> Spawner for ChildSpawner<'a, R> {
    type L = Child;

    ghost state = { λ s. record {
      coming = λ _. None;
      closed = None;
      asked = names_of s.asked.items;
      faults = s.faults;
    } };

    /// A command without a program is a fault, and so is a program that is missing or can't be started.
    fn start(&mut self, alloc: Global, command: &str) -> Result<Child, StartRefusal> {
        let Ok(name) = make_room(alloc, command, &mut self.asked) else {
            return Err(StartRefusal::Memory);
        };
        let started = started(self.rt, alloc, command);
        if let Err(StartRefusal::Memory) = started {
            return started;
        }
        self.asked.push(name).unwrap();
        if started.is_err() {
            self.faults = self.faults.saturating_add(1);
        }
        started
    }

    /// Closes both pipes, so that the program finds the end of its input, and waits for its end. A wait that
    /// fails is a fault.
    fn finish(&mut self, link: Child) {
        let Child {
            mut process,
            pipes,
            faults,
        } = link;
        self.faults = self.faults.saturating_add(faults);
        drop(pipes);
        if process.wait().is_err() {
            self.faults = self.faults.saturating_add(1);
        }
    }
}
