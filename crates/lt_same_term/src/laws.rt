//! Laws. The functions do nothing: their contracts say it.

ghost use Rattle.lt_same_term.specs.Laws.{AlikeIsSame, ConstraintsTellTerms};

/// Two terms are alike exactly where they are the same.
#[tactic(auto, using(crate::proofs::Alikes::alike_is_same))]
pub fn alike_terms_are_the_same()
    ensures { AlikeIsSame }
{}

/// Two terms over a table of which each number stands for another expression are told by their
/// expressions.
#[tactic(auto, using(crate::proofs::Telling::constraints_tell_terms))]
pub fn constraints_tell_terms()
    ensures { ConstraintsTellTerms }
{}
