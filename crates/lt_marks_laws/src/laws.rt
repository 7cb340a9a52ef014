//! What follows from the definitions. The function does nothing: its contract says it.

ghost use Rattle.lt_marks_laws.specs.Valued.{LeavesAgree, PlacesAgree, SizesAgree, WalksAgree};

/// The tree in which a draw goes and the tree of what a term offers have as many nodes, also before each part of a choice;
/// what a walk finds at a path in the one stands there in the other; and where a draw has stopped, a walk along its path
/// finds the leaf, or the choice with a fault, at which it did.
pub fn trees_agree()
    ensures sizes { SizesAgree }
    ensures places { PlacesAgree }
    ensures walks { WalksAgree }
    ensures leaves { LeavesAgree }
{}
