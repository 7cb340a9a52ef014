//! Texts that wait to be written together.

ghost use Rattle.std.specs.Prelude.{◌≡◌, ◌<◌, ℕ, List, [], ◌∷◌, ◌++◌, length, sum, true, false, OnOk};
ghost use Rattle.lt_io.specs.Gathering.{IsSettled, StandsBehind, cut_at};

use crate::putting::put_counted;
use crate::sink::Sink;
use std::alloc::Global;
use std::marker::Model;

// How many bytes are written at once, and of how many texts, at most.
const MOST_BYTES: usize = 65_536;

const MOST_TEXTS: usize = 4_096;

/// Texts that wait to be written together, in the order in which they came.
#[derive(Drop)]
pub struct Gathered {
    // Their bytes, one text after the other.
    bytes: Vec<u8>,
    // How many bytes each text has.
    lengths: Vec<usize>,
}

impl Model for Gathered {
    ghost Value = { List (List ℕ) };

    ghost view = { λ g. cut_at g.lengths.items g.bytes.items };

    ghost invariant = { λ g. sum g.lengths.items ≡ length g.bytes.items };
}

impl Gathered {
    /// No text. The room for texts is reserved here: where memory runs out there is none, and no text can wait.
    pub fn make(alloc: Global) -> Gathered
        ensures { result ≡ [] }
    {
        Gathered {
            bytes: Vec::with_capacity(alloc, MOST_BYTES).unwrap_or(Vec::new(alloc)),
            lengths: Vec::with_capacity(alloc, MOST_TEXTS).unwrap_or(Vec::new(alloc)),
        }
    }

    /// Adds a text behind the others, where there is room for it, and answers whether there was.
    pub fn add(&mut self, text: &[u8]) -> bool
        ensures added { result ≡ true → self.new ≡ self.old ++ text.now ∷ [] }
        ensures full { result ≡ false → self.new ≡ self.old }
    {
        let room = self.bytes.capacity() - self.bytes.len();
        if text.len() > room || self.lengths.len() == self.lengths.capacity() {
            return false;
        }
        self.bytes.extend_from_slice(text).unwrap();
        self.lengths.push(text.len()).unwrap();
        true
    }

    /// Writes all texts to a sink, and keeps none. Where that fails, it answers how many stand behind the first one that
    /// was not written whole, of which a prefix was written.
    pub fn settle<S: Sink>(&mut self, sink: &mut S) -> Result<(), usize>
        ensures settled { IsSettled self.old (S.state sink.old) (S.state sink.new) result }
        ensures none { OnOk result (self.new ≡ []) }
    {
        match put_counted(sink, &self.bytes) {
            Ok(()) => {
                self.bytes.clear();
                self.lengths.clear();
                Ok(())
            }
            Err(written) => Err(behind(&self.lengths, written)),
        }
    }
}

// How many lengths stand behind the one in which a place is, where one begins at the end of the other.
fn behind(lengths: &[usize], place: usize) -> usize
    requires { place < sum lengths.now }
    ensures { StandsBehind lengths.now place result }
{
    let mut place = place;
    let mut behind = lengths.len();
    for length in lengths {
        behind -= 1;
        if place < *length {
            return behind;
        }
        place -= *length;
    }
    behind
}
