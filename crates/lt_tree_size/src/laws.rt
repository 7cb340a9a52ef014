//! What follows from the definitions. The function does nothing: its contract says it.

ghost use Rattle.lt_tree_size.specs.Tally.{AssertRow, CatchRow, ExistRow, InstantRow, NodesAreSize, ParRow, SeqRow, TryRow};

/// How many nodes and leaves of each kind the tree of a term has, by those of its parts' trees, a row for each rule that
/// puts something in the place of leaves; and the nodes that are counted are those of the tree.
pub fn rows()
    ensures sizes { NodesAreSize }
    ensures sequences { SeqRow }
    ensures sides { ParRow }
    ensures instants { InstantRow }
    ensures constraints { AssertRow }
    ensures locals { ExistRow }
    ensures handlers { CatchRow }
    ensures tries { TryRow }
{}
