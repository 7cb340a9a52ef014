//! Programs in memory that keep what they were sent.

ghost use Rattle.std.specs.Prelude.{Some};
ghost use Rattle.lt_call_tests.specs.Keeping.{closed_by};
ghost use Rattle.lt_io.specs.MemSpawner.{programs_of};
ghost use Rattle.lt_io.specs.ScriptState.{link_of};

use lt_io::{Calls, Failed, Link, MemSpawner, ScriptLink, Spawner, StartRefusal};
use std::alloc::{AllocError, Global};
use std::{mem, str};

// The links that were finished.
#[derive(Drop)]
pub enum Finished {
    Nobody,

    // This one, after others.
    After(Box<Finished>, ScriptLink),
}

impl Finished {
    // Writes what each link was sent, in the order in which they were finished, with a line `.` after it.
    pub fn write_sent(&self, text: &mut String) -> Result<(), AllocError> {
        if let Finished::After(others, last) = self {
            others.write_sent(text)?;
            text.push_str(str::from_utf8(last.sent()).unwrap_or("what is not text"))?;
            text.push_str(".\n")?;
        }
        Ok(())
    }
}

// A link in memory, with the place where the others will stand that are finished before it.
#[derive(Drop)]
pub struct KeptLink {
    link: ScriptLink,
    place: Box<Finished>,
}

impl Link for KeptLink {
    ghost state = { λ l. link_of l.link };

    fn send(&mut self, bytes: &[u8]) -> Result<(), Failed> {
        self.link.send(bytes)
    }

    fn recv(&mut self, into: &mut [u8]) -> Result<usize, Failed> {
        self.link.recv(into)
    }
}

// Programs in memory, the links of those that were finished, and how many calls failed, of those here and of those of
// finished links. It tells what finished links leave behind.
#[derive(Drop)]
pub struct KeepingSpawner {
    pub programs: MemSpawner,
    pub finished: Finished,

    // The calls of `finish`. One that fails is counted, and changes nothing else.
    pub ends: Calls,
    pub faults: u64,
}

impl Spawner for KeepingSpawner {
    type L = KeptLink;

    ghost state = { λ s. record (programs_of s.programs) {
      closed = Some (closed_by s.finished);
      faults = s.faults;
    } };

    // The memory for a link is taken here, so that `finish` needs none.
    fn start(&mut self, alloc: Global, command: &str) -> Result<KeptLink, StartRefusal> {
        let Ok(place) = Box::new(alloc, Finished::Nobody) else {
            return Err(StartRefusal::Memory);
        };
        match self.programs.start(alloc, command) {
            Ok(link) => Ok(KeptLink { link, place }),
            Err(StartRefusal::Failed) => {
                self.faults = self.faults.saturating_add(1);
                Err(StartRefusal::Failed)
            }
            Err(StartRefusal::Memory) => Err(StartRefusal::Memory),
        }
    }

    fn finish(&mut self, link: KeptLink) {
        let KeptLink { link, mut place } = link;
        self.faults = self.faults.saturating_add(link.faults());
        if self.ends.is_next_to_fail() {
            self.ends.count_fault();
            self.faults = self.faults.saturating_add(1);
        } else {
            self.ends.count_success();
        }
        *place = mem::replace(&mut self.finished, Finished::Nobody);
        self.finished = Finished::After(place, link);
    }
}
