//! The order in which the parts of a choice are tried.

ghost use Rattle.std.specs.Prelude.{◌≡◌, ◌<◌, ◌≤◌, ◌+◌, ◌++◌, All, length, map, reverse, vec_capacity};
ghost use Rattle.lt_draw.specs.Word.{word_at};
ghost use Rattle.lt_draw_path.specs.Going.{part_entry};
ghost use Rattle.lt_draw_path.specs.Order.{tries};

use crate::draw_path::Entry;
use lt_draw::{StepWords, pick, sum_of};

/// Finds the order in which a choice at a position tries its parts. The weights are used up by
/// this.
pub(crate) fn find_tries(
    words: &StepWords,
    position: usize,
    weights: &mut [u64],
    places: &mut Vec<u32>,
)
    requires within { position < 65536 }
    requires few { length weights.old ≤ 64 }
    requires room { 64 ≤ vec_capacity places.old }
    ensures finds { places.new.items ≡
        tries (word_at words.now.seed words.now.step) position weights.old }
    ensures few { length places.new.items ≤ length weights.old }
    ensures within { All (λ k. k < length weights.old) places.new.items }
    ensures room { vec_capacity places.new ≡ vec_capacity places.old }
    ensures same_weights { length weights.new ≡ length weights.old }
{
    places.clear();
    let mut drawn = words.starting_at((64 * position) as u32);
    while places.len() < weights.len() && sum_of(weights) > 0 {
        let place = pick(weights, drawn.next_word());
        weights[place] = 0;
        places.push_reserved(place as u32);
    }
}

/// Puts parts of a choice on a stack, so that they come out in this order. The first part of the choice has this position, and
/// before each stand so many nodes.
pub(crate) fn push_tries(
    stack: &mut Vec<Entry>,
    position: usize,
    depth: usize,
    before: &[u32],
    places: &mut Vec<u32>,
)
    requires room { length stack.old.items + length places.old.items ≤ vec_capacity stack.old }
    requires position { position ≤ 65536 }
    requires within { All (λ k. k < length before.now) places.old.items }
    requires nodes { All (λ n. n ≤ 65536) before.now }
    ensures puts { reverse stack.new.items ≡
        map (part_entry position depth before.now) places.old.items ++ reverse stack.old.items }
    ensures capacity { vec_capacity stack.new ≡ vec_capacity stack.old }
    ensures room { vec_capacity places.new ≡ vec_capacity places.old }
{
    while let Some(choice) = places.pop() {
        let nodes = before[choice as usize] as usize;
        stack.push_reserved(Entry {
            position: position + nodes,
            depth,
            choice,
        });
    }
}
