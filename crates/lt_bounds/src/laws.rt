//! Laws of the definitions that the contracts cite. The functions do nothing: their contracts say it.

ghost use Rattle.lt_bounds.specs.Tightening.{NoPointIsLost};

/// Each point of the ranges that satisfies all rows is one of the ranges that tightening leaves. So where it leaves
/// none, there is no such point.
#[tactic(auto, using(crate::proofs::Points::no_point_is_lost))]
pub fn no_point_is_lost()
    ensures { NoPointIsLost }
{}
