//! Laws. The functions do nothing: their contracts say it.

ghost use Rattle.lt_legal.specs.Leaves.{LegalLeavesStand, LegalLeavesTell};
ghost use Rattle.lt_legal.specs.Shapes.{WalksAreWalked};
ghost use Rattle.lt_legal.specs.Tables.{TablesTell};
ghost use Rattle.lt_legal.specs.Walk.{WalkIsLegal};

/// Of a tree with a live leaf that can be reached there is a legal one in the list, and else none;
/// and a leaf may be taken exactly where one of the list has its position.
pub fn legal_leaves_tell()
    ensures { LegalLeavesTell }
{}

/// Each leaf of the list stands at its position.
pub fn legal_leaves_stand()
    ensures { LegalLeavesStand }
{}

/// The walk that asks of few leaves whether they are live finds the legal leaves that pass a test.
pub fn walk_is_legal()
    ensures { WalkIsLegal }
{}

/// The table of the nodes of a tree tells what the tree has.
#[tactic(auto, using(crate::proofs::Tables::tables_tell))]
pub fn tables_tell()
    ensures { TablesTell }
{}

/// The walk of the code puts down the positions of those leaves, the last ones first.
#[tactic(auto, using(crate::proofs::Walked::walks_are_walked))]
pub fn walks_are_walked()
    ensures { WalksAreWalked }
{}
