//! Words of a seed.

ghost use Rattle.std.specs.Prelude.{◌≡◌, ◌<◌, ◌+◌};
ghost use Rattle.lt_draw.specs.Word.{SlotOfSeed, StepOfSeed, generator_at, place_of, slots, word_at};
ghost use Rattle.lt_draw.specs.inner.Half.{half};

use crate::jumps::moved_on;
use rand_core::SeedableRng;
use rand_core::utils::NextWord;
use rand_pcg::Pcg64;
use std::marker::Model;

// How many slots a step has.
const SLOTS: u32 = 1 << 24;

// How many slots half a step has.
const HALF: u32 = 1 << 23;

/// The word of a seed at a slot of a step.
pub fn word(seed: u64, step: u64, slot: u32) -> u64
    requires { slot < slots }
    ensures { result ≡ word_at seed step slot }
{
    generator_at(seed, place_of(step, slot)).next_word()
}

// The place of a slot of a step among the words of a seed.
fn place_of(step: u64, slot: u32) -> u128
    ensures { result ≡ place_of step slot }
{
    u128::from(step) * u128::from(SLOTS) + u128::from(slot)
}

// The generator of a seed, once it has given so many words.
fn generator_at(seed: u64, place: u128) -> Pcg64
    ensures { result ≡ generator_at seed place }
{
    let mut generator = Pcg64::seed_from_u64(seed);
    generator.advance(place);
    generator
}

/// The words of one step of a seed.
///
/// The way to the step is gone once, so a word costs the way to its slot alone, from the step's first slot or from
/// the middle of the step. The words of the step after begin one known jump after the middle.
#[derive(Drop)]
pub struct StepWords {
    seed: u64,
    step: u64,
    start: Pcg64,
    middle: Pcg64,
}

impl Model for StepWords {
    ghost Value = { StepOfSeed };

    ghost view = { λ words. record { seed = words.seed; step = words.step } };

    ghost invariant = { λ words. (words.start ≡ generator_at words.seed (place_of words.step 0)) ×
        (words.middle ≡ generator_at words.seed (place_of words.step half)) };
}

impl StepWords {
    /// The words of a step.
    pub fn new(seed: u64, step: u64) -> StepWords
        ensures { result ≡ record { seed = seed; step = step } }
    {
        let start = generator_at(seed, place_of(step, 0));
        let middle = moved_on(&start, HALF);
        StepWords {
            seed,
            step,
            start,
            middle,
        }
    }

    /// The seed.
    pub fn seed(&self) -> u64
        ensures { result ≡ self.now.seed }
    {
        self.seed
    }

    /// The step, from 1.
    pub fn step(&self) -> u64
        ensures { result ≡ self.now.step }
    {
        self.step
    }

    /// On to the words of the next step.
    pub fn next_step(&mut self)
        requires { self.old.step < u64.MAX }
        ensures { self.new ≡ record self.old { step = self.old.step + 1 } }
    {
        self.step += 1;
        self.start = moved_on(&self.middle, HALF);
        self.middle = moved_on(&self.start, HALF);
    }

    /// The word at a slot.
    pub fn word(&self, slot: u32) -> u64
        requires { slot < slots }
        ensures { result ≡ word_at self.now.seed self.now.step slot }
    {
        self.starting_at(slot).next_word()
    }

    /// The words from a slot on.
    pub fn starting_at(&self, slot: u32) -> SlotWords
        requires { slot < slots }
        ensures { result ≡ record { seed = self.now.seed; step = self.now.step; slot = slot } }
    {
        let generator = if slot < HALF {
            moved_on(&self.start, slot)
        } else {
            moved_on(&self.middle, slot - HALF)
        };
        SlotWords {
            seed: self.seed,
            step: self.step,
            slot,
            generator,
        }
    }
}

/// The words of one step of a seed, one after another from a slot on.
#[derive(Drop)]
pub struct SlotWords {
    seed: u64,
    step: u64,
    slot: u32,
    generator: Pcg64,
}

impl Model for SlotWords {
    ghost Value = { SlotOfSeed };

    ghost view = { λ words. record { seed = words.seed; step = words.step; slot = words.slot } };

    ghost invariant = { λ words. words.generator ≡
        generator_at words.seed (place_of words.step words.slot) };
}

impl SlotWords {
    /// The word at the slot, and on to the next slot.
    pub fn next_word(&mut self) -> u64
        requires { self.old.slot < slots }
        ensures word { result ≡ word_at self.old.seed self.old.step self.old.slot }
        ensures next { self.new ≡ record self.old { slot = self.old.slot + 1 } }
    {
        self.slot += 1;
        self.generator.next_word()
    }
}
