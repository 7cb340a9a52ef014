//! Laws of the definitions that the contracts cite. The functions do nothing: their contracts say it.

ghost use Rattle.lt_diff.specs.Laws.{BoundAddsItsOwn, NegativeCycleUnsolved, NoBoundsAllowAll};

/// Where some way round from a variable back to it sums to less than 0, no values meet the bounds.
pub fn negative_cycle_unsolved()
    ensures { NegativeCycleUnsolved }
{}

/// Stating a bound adds its own and no other: the values that meet the bounds behind it are those that met them before and
/// meet it too.
pub fn bound_adds_its_own()
    ensures { BoundAddsItsOwn }
{}

/// Where nothing is stated, all values with 0 at variable 0 meet the bounds.
pub fn no_bounds_allow_all()
    ensures { NoBoundsAllowAll }
{}
