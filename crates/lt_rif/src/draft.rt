//! A reply that has begun.

ghost use Rattle.std.specs.Prelude.{◌≡◌, nat_le, ◌<◌, ◌≤◌, ◌+◌, ◌++◌, ◌∷◌, [], if◌then◌else◌, length, vec_len, vec_capacity};
ghost use Rattle.lt_num.specs.Bounds.{most_decimals};
ghost use Rattle.lt_rif.specs.Reply.{after_word, beginning, longest, with_word};

use crate::fault::ValueFault;
use crate::judgement::judge;
use crate::slot::Slot;
use crate::word::{WordClass, class_of};
use lt_num::Value;
use std::mem;

/// The most bytes that are taken for one reply.
pub const LONGEST: usize = 65_536;

/// What a word is to a reply.
#[derive(Clone, Copy, PartialEq, Eq)]
pub enum Look {
    /// It is passed. A comment goes on after it or not.
    Pass { is_comment: bool },

    /// It writes the value of the next slot, which keeps it or not.
    Value { value: Value, keep: bool },

    /// It is refused.
    Refused(ValueFault),
}

/// What a word makes of a reply.
#[derive(Clone, Copy, PartialEq, Eq)]
pub enum Effect {
    /// It goes on.
    More,

    /// It is whole.
    Done,

    /// It is refused at the word.
    Refused(ValueFault),
}

/// What has come of a reply: its values so far, and what stands after the last blank.
#[derive(Drop)]
pub struct Draft {
    /// How many decimals its reals have.
    pub decimals: u32,

    /// All of its slots.
    pub slots: Vec<Slot>,

    /// How many of them have a value.
    pub filled: usize,

    /// The values that are kept.
    pub values: Vec<Value>,

    /// Whether a comment goes on.
    pub is_comment: bool,

    /// How many bytes were taken up to the last blank.
    pub taken: usize,

    /// The place of its first byte in the stream.
    pub place: usize,

    /// What stands after the last blank.
    pub word: Vec<u8>,

    ghost few_decimals: { decimals ≤ most_decimals },
    ghost fills: { filled ≤ vec_len slots },
    ghost keeps: { vec_len values ≤ filled },
    ghost has_room: { vec_len slots ≤ vec_capacity values },
    ghost is_short: { taken + vec_len word ≤ longest },
    ghost word_has_room: { longest ≤ vec_capacity word },
}

impl Draft {
    ghost use Rattle.lt_rif.specs.inner.Draft.{filled_with, looked, HasEffect};
    ghost use Rattle.lt_rif.specs.View.{begun};

    // Passes the word, with the byte after it. A comment goes on after it or not.
    fn pass(&mut self, is_comment: bool)
        requires { self.old.taken + vec_len self.old.word < longest }
        ensures decimals { self.new.decimals ≡ self.old.decimals }
        ensures filled { self.new.filled ≡ self.old.filled }
        ensures slots { self.new.slots ≡ self.old.slots }
        ensures values { self.new.values ≡ self.old.values }
        ensures comment { self.new.is_comment ≡ is_comment }
        ensures taken { self.new.taken ≡ self.old.taken + length self.old.word.items + 1 }
        ensures place { self.new.place ≡ self.old.place }
        ensures word { self.new.word.items ≡ [] }
    {
        self.taken += self.word.len() + 1;
        self.word.clear();
        self.is_comment = is_comment;
    }

    /// Fills the next slot, which keeps the value or not.
    pub fn add(&mut self, value: Value, keep: bool)
        requires { self.old.filled < vec_len self.old.slots }
        ensures decimals { self.new.decimals ≡ self.old.decimals }
        ensures values { self.new.values.items ≡
            (if keep then self.old.values.items ++ value ∷ [] else self.old.values.items) }
        ensures filled { self.new.filled ≡ self.old.filled + 1 }
        ensures slots { self.new.slots ≡ self.old.slots }
        ensures comment { self.new.is_comment ≡ self.old.is_comment }
        ensures taken { self.new.taken ≡ self.old.taken }
        ensures place { self.new.place ≡ self.old.place }
        ensures word { self.new.word ≡ self.old.word }
    {
        if keep {
            self.values.push(value).unwrap();
        }
        self.filled += 1;
    }

    /// Takes the word as the value of the next slot. The reply goes on, or is whole.
    #[tactic(auto, using(crate::proofs::DraftLemmas::fills_more))]
    pub fn fill(&mut self, value: Value, keep: bool) -> Effect
        requires room { self.old.taken + vec_len self.old.word < longest }
        requires open { self.old.filled < vec_len self.old.slots }
        ensures effect { HasEffect (filled_with self.old value keep) self.old result self.new }
        ensures left { result ≡ Effect.More → self.new.filled < vec_len self.new.slots }
        ensures slots { self.new.slots ≡ self.old.slots }
        ensures decimals { self.new.decimals ≡ self.old.decimals }
        ensures place { self.new.place ≡ self.old.place }
    {
        self.add(value, keep);
        self.pass(false);
        if self.filled == self.slots.len() {
            Effect::Done
        } else {
            Effect::More
        }
    }

    /// What the word is, where a blank or the end of the stream stands after it.
    pub fn look(&self, ends_line: bool) -> Look
        requires open { self.now.filled < vec_len self.now.slots }
        ensures { after_word (begun self.now) self.now.word.items ends_line ≡
            looked self.now result }
    {
        if self.is_comment {
            return Look::Pass {
                is_comment: !ends_line,
            };
        }
        match class_of(&self.word) {
            WordClass::Passed => Look::Pass { is_comment: false },
            WordClass::Comment => Look::Pass {
                is_comment: !ends_line,
            },
            WordClass::Value => self.look_at_value(),
        }
    }

    // What the word of a value is.
    fn look_at_value(&self) -> Look
        requires open { self.now.filled < vec_len self.now.slots }
        ensures { with_word (begun self.now) self.now.word.items (begun self.now).slots ≡
            looked self.now result }
    {
        let slot = self.slots[self.filled];
        match judge(slot, &self.word, self.decimals) {
            Ok(value) => Look::Value {
                value,
                keep: slot.keep,
            },
            Err(fault) => Look::Refused(fault),
        }
    }

    /// Ends the word by a blank.
    pub fn end_word(&mut self, ends_line: bool) -> Effect
        requires room { self.old.taken + vec_len self.old.word < longest }
        requires open { self.old.filled < vec_len self.old.slots }
        ensures effect { HasEffect (after_word (begun self.old) self.old.word.items ends_line)
            self.old result self.new }
        ensures left { result ≡ Effect.More → self.new.filled < vec_len self.new.slots }
        ensures slots { self.new.slots ≡ self.old.slots }
        ensures decimals { self.new.decimals ≡ self.old.decimals }
        ensures place { self.new.place ≡ self.old.place }
    {
        match self.look(ends_line) {
            Look::Pass { is_comment } => {
                self.pass(is_comment);
                Effect::More
            }
            Look::Value { value, keep } => self.fill(value, keep),
            Look::Refused(fault) => Effect::Refused(fault),
        }
    }

    /// Whether as many bytes were taken as may be.
    pub fn is_full(&self) -> bool
        ensures { result ≡ nat_le longest (self.now.taken + length self.now.word.items) }
    {
        self.taken + self.word.len() >= LONGEST
    }

    /// Hands out the values, and begins the next reply, at this place.
    pub fn restart(&mut self, values: &mut Vec<Value>, place: usize)
        requires { vec_len self.old.slots ≤ vec_capacity values.old }
        ensures values { values.new ≡ self.old.values }
        ensures slots { self.new.slots ≡ self.old.slots }
        ensures begun { begun self.new ≡ beginning self.old.decimals self.old.slots.items place }
        ensures word { self.new.word.items ≡ [] }
    {
        mem::swap(values, &mut self.values);
        self.values.clear();
        self.filled = 0;
        self.is_comment = false;
        self.taken = 0;
        self.place = place;
        self.word.clear();
    }
}
