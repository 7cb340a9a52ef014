//! Picks by weight.

ghost use Rattle.std.specs.Prelude.{◌≡◌, ◌<◌, ◌%◌, drop, length, slice_index, sum};
ghost use Rattle.lt_draw.specs.Pick.{picked};

/// The place that a word picks: the first one whose cumulated weight is greater than the remainder of the word
/// by the sum of the weights.
pub fn pick(weights: &[u64], word: u64) -> usize
    requires { 0 < sum weights.now }
    ensures place { result ≡ picked weights.now word }
    ensures within { result < length weights.now }
    ensures positive { 0 < slice_index weights.now result }
{
    let total = sum_of(weights);
    let first = first_above_zero(weights);
    // Any word picks a weight that is the whole sum, so this needs no division: the last part of a choice is picked so.
    if u128::from(weights[first]) == total {
        return first;
    }
    let mut rest = remainder(word, total);
    let mut place = first;
    while rest >= u128::from(weights[place]) {
        rest -= u128::from(weights[place]);
        place += 1;
    }
    place
}

// The first place whose weight is above 0.
fn first_above_zero(weights: &[u64]) -> usize
    requires { 0 < sum weights.now }
    ensures within { result < length weights.now }
    ensures positive { 0 < slice_index weights.now result }
    ensures all_behind { sum (drop result weights.now) ≡ sum weights.now }
{
    let mut place = 0;
    while weights[place] == 0 {
        place += 1;
    }
    place
}

// The remainder of a word by a sum. Most sums have 64 bits, by which a division is cheap.
fn remainder(word: u64, total: u128) -> u128
    requires { 0 < total }
    ensures { result ≡ word % total }
{
    match u64::try_from(total) {
        Ok(total) => u128::from(word % total),
        Err(_) => u128::from(word) % total,
    }
}

/// The sum of some weights, which may be more than 64 bits can tell.
pub fn sum_of(weights: &[u64]) -> u128
    ensures { result ≡ sum weights.now }
{
    let mut total = 0;
    for weight in weights {
        total += u128::from(*weight);
    }
    total
}
