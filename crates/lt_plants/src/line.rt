//! The line that is being read.

ghost use Rattle.std.specs.Prelude.{◌≡◌, ◌≤◌, [], ◌∷◌, ◌++◌, List, ℕ, take, length, OnOk, OnErr};
ghost use Rattle.lt_plants.specs.Service.{longest_line};

use std::marker::Model;

// How many bytes a line may have before its line feed.
const LONGEST: usize = 4096;

/// A text that is too long for a line.
#[derive(Drop)]
pub struct TooLong;

/// What came of a line so far. Contracts see its bytes.
#[derive(Drop)]
pub struct Line {
    bytes: [u8; LONGEST],
    length: usize,
}

impl Model for Line {
    ghost Value = { List ℕ };

    ghost view = { λ l. take l.length l.bytes };

    ghost invariant = { λ l. l.length ≤ 4096 };
}

impl Line {
    /// Nothing so far.
    pub fn new() -> Self
        ensures { result ≡ [] }
    {
        Line {
            bytes: [0; LONGEST],
            length: 0,
        }
    }

    /// What came so far.
    pub fn text(&self) -> &[u8]
        ensures text { result.now ≡ self.now }
        ensures short { length result.now ≤ longest_line }
    {
        &self.bytes[..self.length]
    }

    /// One byte more, where there is room for it.
    pub fn push(&mut self, byte: u8) -> Result<(), TooLong>
        ensures pushed { OnOk result (self.new ≡ self.old ++ byte ∷ []) }
        ensures full { OnErr result (length self.old ≡ longest_line) }
        ensures kept { OnErr result (self.new ≡ self.old) }
        ensures short { length self.new ≤ longest_line }
    {
        if self.length == LONGEST {
            return Err(TooLong);
        }
        self.bytes[self.length] = byte;
        self.length += 1;
        Ok(())
    }

    /// Nothing again.
    pub fn clear(&mut self)
        ensures { self.new ≡ [] }
    {
        self.length = 0;
    }
}
