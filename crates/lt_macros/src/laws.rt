//! What follows from the definitions. The functions do nothing: their contracts say it.

ghost use Rattle.lt_macros.specs.Naming.{NamesAreThere};
ghost use Rattle.lt_macros.specs.Numbering.{PartsAreNumbered};
ghost use Rattle.lt_macros.specs.Scoping.{LocalsAreInside};

/// The locals of a node are numbered in preorder, and so are its counters: no two have one number.
pub fn parts_are_numbered()
    ensures { PartsAreNumbered }
{}

/// A constraint or a weight names a local only inside the trace that declares it.
pub fn locals_are_inside()
    ensures { LocalsAreInside }
{}

/// What constraints and weights name is there: inputs and outputs are the node's own, and constants are values of their
/// kinds. A variable of each one's kind may have its range.
pub fn names_are_there()
    ensures { NamesAreThere }
{}
