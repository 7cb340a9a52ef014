//! Laws of the words of a call.

ghost use Rattle.lt_args.specs.Laws.{NumbersAreWithin, PrintedNumbersAreTaken};

/// Each word that is let through for a number within bounds is read as one within them.
#[tactic(auto, using(crate::proofs::Numbers::numbers_are_within))]
pub fn numbers_are_within()
    ensures { NumbersAreWithin }
{}

/// The printed form of each number within bounds is let through, and read as that number.
pub fn printed_numbers_are_taken()
    ensures { PrintedNumbersAreTaken }
{}
