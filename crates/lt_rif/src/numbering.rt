//! The line of a step's number, of which most is kept for the next step.

ghost use Rattle.std.specs.Prelude.{◌≡◌, ◌≤◌, ◌++◌, ℕ, List, codes, decimal, length, vec_capacity};
ghost use Rattle.lt_rif.specs.inner.Head.{head_text, leading};

use crate::writing::{append, append_byte, append_number};

/// What is kept of a text of a step for the next one: the mark, and the digits of the number but the last.
#[derive(Drop)]
pub struct StepHead {
    // The number without its last digit; 0 where nothing is kept.
    tens: u64,

    // How many bytes are kept.
    len: usize,

    ghost long: { len ≡ length (head_text tens) },
}

impl StepHead {
    ghost use Rattle.lt_rif.specs.Numbering.{Begins, number_line};

    /// Nothing is kept, of any text.
    pub fn new() -> StepHead
        ensures { (text : List ℕ) → Begins result text }
    {
        StepHead { tens: 0, len: 0 }
    }

    /// Nothing is kept any more, of any text.
    pub fn forget(&mut self)
        ensures { (text : List ℕ) → Begins self.new text }
    {
        self.tens = 0;
        self.len = 0;
    }

    /// Makes a text the line of a step's number. What is kept of the text stays as it stands, where the next number begins
    /// with it.
    pub fn begin_step(&mut self, text: &mut Vec<u8>, step: u64)
        requires begins { Begins self.old text.old.items }
        requires room { length (number_line step) ≤ vec_capacity text.old }
        ensures items { text.new.items ≡ number_line step }
        ensures begins { Begins self.new text.new.items }
        ensures capacity { vec_capacity text.old ≤ vec_capacity text.new }
    {
        self.keep(text, step / 10);
        append_byte(text, b'0' + (step % 10) as u8);
        append_byte(text, b'\n');
    }

    // Makes a text the mark and the digits of a number that has one more, unless it begins with them.
    fn keep(&mut self, text: &mut Vec<u8>, tens: u64)
        requires begins { Begins self.old text.old.items }
        requires room { length (codes "#step " ++ leading tens) ≤ vec_capacity text.old }
        ensures items { text.new.items ≡ codes "#step " ++ leading tens }
        ensures begins { (more : List ℕ) → Begins self.new (text.new.items ++ more) }
        ensures capacity { vec_capacity text.old ≤ vec_capacity text.new }
    {
        if tens == 0 {
            self.forget();
            text.clear();
            append(text, b"#step ");
            return;
        }
        if self.tens == tens {
            text.truncate(self.len);
            return;
        }
        text.clear();
        append(text, b"#step ");
        append_number(text, tens);
        self.tens = tens;
        self.len = text.len();
    }
}
