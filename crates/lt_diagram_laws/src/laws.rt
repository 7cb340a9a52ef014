//! Laws of parts and of formulas of flags.

ghost use Rattle.lt_diagram_laws.specs.Parts.{FilledHolds, PartsAreFlags};

/// The conjunct of a part is a formula of flags below the number of the part's atoms: what
/// [`build`](lt_diagram::build) needs. So it has a diagram where these are at most 16.
pub fn parts_are_flags()
    ensures { PartsAreFlags }
{}

/// A formula of flags with a formula in the place of each flag holds of values exactly where it is true with the truths that
/// these have there.
pub fn filled_holds()
    ensures { FilledHolds }
{}
