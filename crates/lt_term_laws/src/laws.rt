//! The laws.

ghost use Rattle.lt_term_laws.specs.Counting.{CountedLoopsKeepTheirBounds, TurnsTakeInstants};
ghost use Rattle.lt_term_laws.specs.Scopes.{ScopesBeginAnew};
ghost use Rattle.lt_term_laws.specs.Siblings.{FirstSideIsHeardFirst, PriorityIsJudgedWithSiblings};
ghost use Rattle.lt_term_laws.specs.Worths.{WorthsAreOfTheirKinds};

/// A counted loop goes through its part once more only while fewer turns are done than its greatest number, and it is
/// over only once its least number of turns is done. A turn takes an instant, or raises an exception: none vanishes.
#[tactic(auto, using(crate::proofs::Counting::counts))]
pub fn counted_loops_keep_their_bounds()
    ensures bounds { CountedLoopsKeepTheirBounds }
    ensures instants { TurnsTakeInstants }
{}

/// Where something is done beside a choice by priority, each alternative is judged together with it: the second one is
/// taken where nothing can be done in the first beside it. And of two sides of which the first raises an exception,
/// that one is raised, whatever the second does.
#[tactic(auto, using(crate::proofs::Siblings::siblings))]
pub fn siblings_are_judged_together()
    ensures priority { PriorityIsJudgedWithSiblings }
    ensures exceptions { FirstSideIsHeardFirst }
{}

/// Where a loop has gone through its part, the part is done anew: whatever values the locals of its scopes had, none of
/// these scopes is entered in what is left to be done.
pub fn scopes_begin_anew()
    ensures { ScopesBeginAnew }
{}

/// Where a well typed expression is worth something, that is a value of its kind, if the variables that it names have values of
/// theirs. The same holds of its parts.
pub fn worths_are_of_their_kinds()
    ensures { WorthsAreOfTheirKinds }
{}
