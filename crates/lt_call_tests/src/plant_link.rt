//! Plants as programs in memory.

ghost use Rattle.std.specs.Prelude.{◌≡◌, None};
ghost use Rattle.lt_io.specs.Files.{names_of};
ghost use Rattle.lt_io.specs.Link.{anything};

use lt_io::{Failed, Link, Spawner, StartRefusal};
use lt_plants::{Playing, plant_of, reply};
use std::alloc::Global;

// A link to a plant, which replies to each line that it is sent. It tells nothing.
#[derive(Drop)]
pub struct PlantLink {
    playing: Playing,
    // The replies, and how many of their bytes were given out.
    replies: Vec<u8>,
    given: usize,
    faults: u64,
}

impl PlantLink {
    // Keeps the reply to a line, if there is one, and there is memory for it.
    fn take_line(&mut self, line: &[u8]) -> Option<()>
        ensures { self.new.faults ≡ self.old.faults }
    {
        let mut text = [0; 24];
        let length = reply(&mut self.playing, line, &mut text)?;
        self.replies.extend_from_slice(&text[..length]).ok()?;
        self.replies.push(b'\n').ok()
    }
}

impl Link for PlantLink {
    ghost state = { λ l. record { sent = None; left = None; faults = l.faults; fits = anything } };

    // What is sent at once is a line. One without a reply is a fault.
    fn send(&mut self, bytes: &[u8]) -> Result<(), Failed> {
        if let Some(line) = bytes.strip_suffix(b"\n")
            && self.take_line(line).is_some()
        {
            return Ok(());
        }
        self.faults = self.faults.saturating_add(1);
        Err(Failed)
    }

    fn recv(&mut self, into: &mut [u8]) -> Result<usize, Failed> {
        let left = self.replies.get(self.given..).unwrap_or(&[]);
        let count = left.len().min(into.len());
        into[..count].copy_from_slice(&left[..count]);
        self.given += count;
        Ok(count)
    }
}

// Starts plants, each by its word.
#[derive(Drop)]
pub struct PlantSpawner {
    pub asked: Vec<String>,
    pub faults: u64,
}

impl Spawner for PlantSpawner {
    type L = PlantLink;

    ghost state = { λ s. record {
      coming = λ _. None;
      closed = None;
      asked = names_of s.asked.items;
      faults = s.faults;
    } };

    // A word that names no plant is a fault.
    fn start(&mut self, alloc: Global, command: &str) -> Result<PlantLink, StartRefusal> {
        let Ok(word) = String::from_str(alloc, command) else {
            return Err(StartRefusal::Memory);
        };
        let plant = plant_of(std::slice::from_ref(&word));
        if self.asked.push(word).is_err() {
            return Err(StartRefusal::Memory);
        }
        let Some(plant) = plant else {
            self.faults = self.faults.saturating_add(1);
            return Err(StartRefusal::Failed);
        };
        Ok(PlantLink {
            playing: Playing::new(plant),
            replies: Vec::new(alloc),
            given: 0,
            faults: 0,
        })
    }

    fn finish(&mut self, link: PlantLink) {
        self.faults = self.faults.saturating_add(link.faults);
    }
}
