//! The laws of programs.

ghost use Rattle.lt_typing_laws.specs.Laws.{ExpansionKeepsTypes, KindsAreTold, NoneIsLeftOut};

use lt_macros::parts_are_numbered;

/// The kind of a well typed expression is the one that its facts tell, so it has no other one.
pub fn kinds_are_told()
    ensures { KindsAreTold }
{}

/// In a well typed node each expression is well typed: weights, constraints, the numbers of loops and first values.
pub fn none_is_left_out()
    ensures { NoneIsLeftOut }
{}

/// What a node of a well typed program stands for is well typed: each of its expressions has the kind that its place
/// asks for, by the kinds of the node's variables.
pub fn expansion_keeps_types()
    ensures { ExpansionKeepsTypes }
{
    parts_are_numbered();
}
