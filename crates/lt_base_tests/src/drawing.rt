//! That words, picks, targets and directions are those that other programs make, or that the rules say.

use crate::rows::{check, halves, numbers_of};
use crate::subject::Subject;
use lt_draw::{StepWords, downward, pick, sum_of, target, word};
use lt_num::Range;
use std::alloc::Global;
use std::test::Fail;

// How many slots a step has.
const SLOTS: u32 = 16_777_216;

// The slot of the word that a scenario's first variable gets its target from.
const FIRST_VARIABLE: u32 = 8_388_608;

// A seed, a step and a slot, with the word that another program gave there.
const WORDS: &str = "
0 0 1 ==> 6411218084291373563
0 1 0 ==> 670457862477091661
0 1 1 ==> 945580710927154822
0 1 64 ==> 8542392665323216598
0 1 8388608 ==> 15939427002774378928
0 2 8388735 ==> 17877493951084941515
0 1000000 16777215 ==> 13760510481398817155
1 1 0 ==> 15242382240706905632
1 3 4194303 ==> 12666273054581543937
4294967296 1 64 ==> 6862741670566267012
9223372036854775808 1 0 ==> 9434840655129785195
9223372036854775808 3 4194303 ==> 16436026582173414204
18446744073709551615 1 0 ==> 10082901677460505370
18446744073709551615 1000000 16777215 ==> 128566075295983809

words on both sides of the middle of a step, and at the ends of the step after it
7 41 8388607 ==> 16445178109641304500
7 41 8388608 ==> 13257892256656105868
7 41 16777215 ==> 11503520911172112529
7 42 0 ==> 5823930217766135656
7 42 8388608 ==> 447829329535368272

a word and the word after it, also into the second half of a step
0 1 0 on ==> 670457862477091661 945580710927154822
7 41 8388607 on ==> 16445178109641304500 13257892256656105868
";

/// Puts the word of a seed at a step and a slot, if all ways lead to it, or the words from there on.
pub fn put_word(found: &mut String, given: &str) -> Result<(), Fail> {
    let (seed, place) = halves(given, " ")?;
    let (step, slot) = halves(place, " ")?;
    let (seed, step) = (seed.parse()?, step.parse()?);
    let words = StepWords::new(seed, step);
    if let Some(slot) = slot.strip_suffix(" on") {
        return put_two(found, &words, slot.parse()?);
    }
    let slot = slot.parse()?;
    if slot >= SLOTS {
        return Err(Fail::new("a slot"));
    }
    let at_once = word(seed, step, slot);
    if at_once == words.word(slot) && at_once == stepped_to(seed, step).word(slot) {
        write!(found, "{at_once}")?;
    }
    Ok(())
}

// The words of a step, come to from the step before, if there is one.
fn stepped_to(seed: u64, step: u64) -> StepWords {
    match step.checked_sub(1) {
        Some(before) => {
            let mut words = StepWords::new(seed, before);
            words.next_step();
            words
        }
        None => StepWords::new(seed, step),
    }
}

// Puts the word at a slot of a step, and the one after it.
fn put_two(found: &mut String, words: &StepWords, slot: u32) -> Result<(), Fail> {
    if slot >= SLOTS - 1 {
        return Err(Fail::new("a slot"));
    }
    let mut words = words.starting_at(slot);
    let first = words.next_word();
    write!(found, "{first} {}", words.next_word())?;
    Ok(())
}

// Weights and a word, with the place that it picks.
const PICKS: &str = "
0 3 1 by 0 ==> 1
0 3 1 by 1 ==> 1
0 3 1 by 2 ==> 1
0 3 1 by 3 ==> 2
0 3 1 by 4 ==> 1
0 3 1 by 7 ==> 2
4611686018427387904 0 4611686018427387904 by 0 ==> 0
4611686018427387904 0 4611686018427387904 by 4611686018427387903 ==> 0
4611686018427387904 0 4611686018427387904 by 4611686018427387904 ==> 2
4611686018427387904 0 4611686018427387904 by 9223372036854775808 ==> 0
4611686018427387904 0 4611686018427387904 by 18446744073709551615 ==> 2
";

/// Puts the place that a word picks among weights.
pub fn put_pick(found: &mut String, alloc: Global, given: &str) -> Result<(), Fail> {
    let (weights, word) = halves(given, " by ")?;
    let word = word.parse()?;
    let weights = numbers_of(alloc, weights)?;
    if sum_of(&weights) > 0 {
        write!(found, "{}", pick(&weights, word))?;
    }
    Ok(())
}

// The ends of a range, its step where it has one, and a word, with the number that it aims at.
const TARGETS: &str = "
-3 3 by 6 ==> 3
-3 3 by 7 ==> -3
7 7 by 18446744073709551615 ==> 7
-1000000000000 1000000000000 by 18446744073709551615 ==> -926299671757
-9223372036854775808 9223372036854775807 by 0 ==> -9223372036854775808
-9223372036854775808 9223372036854775807 by 18446744073709551615 ==> 9223372036854775807
-9223372036854775808 9223372036854775806 by 18446744073709551615 ==> -9223372036854775808

the points of a range with a step
0 100 step 25 by 3 ==> 75
0 100 step 25 by 4 ==> 100
0 100 step 25 by 7 ==> 50
0 9 step 4 by 5 ==> 8
0 9 step 4 by 6 ==> 0
-7 -1 step 3 by 1 ==> -4
3 7 step 100 by 18446744073709551615 ==> 3
-9223372036854775808 9223372036854775807 step 9223372036854775807 by 5 ==> 9223372036854775806

a first variable, which nothing constrains, has the values that another program wrote in a trace: by a seed at each step
0 3 by 2689535733758285068 at 1 ==> 3
0 3 by 2689535733758285068 at 2 ==> 3
0 3 by 2689535733758285068 at 3 ==> 0
0 3 by 2689535733758285068 at 4 ==> 1
0 3 by 2689535733758285068 at 5 ==> 1
0 3 by 2689535733758285068 at 6 ==> 3
0 3 by 2689535733758285068 at 7 ==> 0
0 3 by 2689535733758285068 at 8 ==> 0
0 3 by 2689535733758285068 at 9 ==> 0
0 3 by 2689535733758285068 at 10 ==> 3
0 3 by 2689535733758285068 at 11 ==> 2
0 3 by 2689535733758285068 at 12 ==> 3
-10000 10000 by 8755260454800672976 at 1 ==> 891
-10000 10000 by 8755260454800672976 at 2 ==> -3257
-10000 10000 by 8755260454800672976 at 3 ==> 9264
";

/// Puts the number of a range that a word aims at, or that of a seed at a step for its first variable.
pub fn put_target(found: &mut String, given: &str) -> Result<(), Fail> {
    let (range, drawn) = halves(given, " by ")?;
    let range = range_of(range)?;
    let word = match drawn.split_once(" at ") {
        Some((seed, step)) => StepWords::new(seed.parse()?, step.parse()?).word(FIRST_VARIABLE),
        None => drawn.parse()?,
    };
    if range.low <= range.high && range.step >= 1 {
        write!(found, "{}", target(range, word))?;
    }
    Ok(())
}

// The range of these ends, and with this step, where there is one.
fn range_of(words: &str) -> Result<Range, Fail> {
    let (ends, step) = words.split_once(" step ").unwrap_or((words, "1"));
    let (low, high) = halves(ends, " ")?;
    Ok(Range {
        low: low.parse()?,
        high: high.parse()?,
        step: step.parse()?,
    })
}

// A word, with whether it says downward.
const DIRECTIONS: &str = "
0 ==> false
1 ==> true
6411218084291373563 ==> true
8542392665323216598 ==> false
18446744073709551614 ==> false
18446744073709551615 ==> true
";

/// Puts whether a word says downward.
pub fn put_direction(found: &mut String, given: &str) -> Result<(), Fail> {
    write!(found, "{}", downward(given.parse()?))?;
    Ok(())
}

#[test]
fn draws_are_those_of_other_programs(rt: HostRuntime) -> Result<(), Fail> {
    check(&rt, rt.alloc(), &Subject::Words, WORDS, 21)?;
    check(&rt, rt.alloc(), &Subject::Picks, PICKS, 11)?;
    check(&rt, rt.alloc(), &Subject::Targets, TARGETS, 30)?;
    check(&rt, rt.alloc(), &Subject::Directions, DIRECTIONS, 6)
}
