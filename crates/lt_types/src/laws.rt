//! What holds of every program.

ghost use Rattle.lt_types.specs.Law.{TypesAreOne, WellTypedIsUnrefused};

/// A program is well typed exactly where it breaks no rule.
pub fn well_typed_is_unrefused()
    ensures { WellTypedIsUnrefused }
{}

/// An expression has one type at most.
pub fn types_are_one()
    ensures { TypesAreOne }
{}
