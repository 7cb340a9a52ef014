//! Laws of the definitions that the contracts cite. The functions do nothing: their contracts say it.

ghost use Rattle.lt_parts.specs.Agreement.{PartsAgree};
ghost use Rattle.lt_parts.specs.Holding.{IntsHoldExactly, LoadedHolds, RealsHoldExactly};
ghost use Rattle.lt_parts.specs.Part.{PartsHaveItsAtoms};
ghost use Rattle.lt_parts.specs.Same.{SameIsOne};

use lt_linear::comparisons_are_exact;

/// The parts of constraints that were loaded say what the space's formula says, where what
/// [`Space::atom`](lt_space::Space::atom) says of each atom is put in the place of its flag, and either truth for one that
/// was skipped: joined by `and`, and with truths absorbed, both have the same conjuncts.
pub fn parts_agree()
    ensures { PartsAgree }
{}

/// The formula of a list of constraints without a fault holds of values exactly where that of each constraint does.
pub fn loaded_holds()
    ensures { LoadedHolds }
{}

/// A comparison holds of values exactly where the exact difference of the two forms stands to 0 as it says.
pub fn comparisons_hold_exactly()
    ensures reals { RealsHoldExactly }
    ensures ints { IntsHoldExactly }
{
    comparisons_are_exact();
}

/// The test of two expressions finds exactly those that are one.
pub fn same_is_one()
    ensures { SameIsOne }
{}

/// The greatest number of atoms of one part of a constraint is that of one of its conjuncts.
pub fn parts_have_its_atoms()
    ensures { PartsHaveItsAtoms }
{}
