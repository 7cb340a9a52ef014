//! How often counted loops turn.

ghost use Rattle.std.specs.Prelude.{◌≡◌, option_map, pos};
ghost use Rattle.std.specs.Int.{int_max};
ghost use Rattle.lt_expand.specs.Static.{fit_together, turns_around, turns_between, turns_by};
ghost use Rattle.lt_expand.specs.inner.Worth.{turns as turns_view};

/// The most turns that a counted loop may have.
pub(crate) const MOST_TURNS: i64 = 1_000_000;

/// How often a counted loop turns.
#[derive(Clone, Copy)]
pub(crate) struct Turns {
    /// The least number of turns.
    pub(crate) least: i128,

    /// The greatest.
    pub(crate) most: i128,
}

impl Turns {
    // Between two numbers, where both are there.
    pub(crate) fn between(low: Option<i64>, high: Option<i64>) -> Option<Turns>
        ensures { option_map turns_view result ≡ turns_by turns_between low high }
    {
        Some(Turns {
            least: i128::from(low?),
            most: i128::from(high?),
        })
    }

    // Around an average, with a deviation, where both are there.
    pub(crate) fn around(average: Option<i64>, deviation: Option<i64>) -> Option<Turns>
        ensures { option_map turns_view result ≡ turns_by turns_around average deviation }
    {
        Some(Turns::around_both(average?, deviation?))
    }

    // Around an average, with a deviation.
    fn around_both(average: i64, deviation: i64) -> Turns
        ensures { turns_view result ≡ turns_around average deviation }
    {
        let average = i128::from(average);
        let width = 2 * i128::from(deviation);
        Turns {
            least: or_zero(average - width),
            most: average + width,
        }
    }
}

// A number, or 0 where it is less.
fn or_zero(number: i128) -> i128
    ensures { result ≡ int_max (pos 0) number }
{
    if number < 0 { 0 } else { number }
}

// Whether turns, where there are any, are no more than may be, and the least number of them isn't over the
// greatest.
pub(crate) fn do_fit(turns: Option<Turns>) -> bool
    ensures { result ≡ fit_together (option_map turns_view turns) }
{
    match turns {
        Some(turns) => turns.least <= turns.most && turns.most <= i128::from(MOST_TURNS),
        None => true,
    }
}
