//! What follows from the definitions. The functions do nothing: their contracts say it.

ghost use Rattle.lt_instant.specs.Affordable.{AffordableInstantsAreNotGivenUp};
ghost use Rattle.lt_instant.specs.Legal.{DeadlockMeansNoneLive, DrawIsLegal, SolutionsPass};

/// Whatever the rule of drawing and the words are, what is drawn for a formula is a point of the ranges of an instant at which
/// it holds; and where nothing is drawn, it holds at none.
pub fn solutions_pass()
    ensures { SolutionsPass }
{}

/// Whatever the rule of drawing and the words are, a leaf is drawn exactly where a live one can be reached, and it is a
/// legal one of the tree: it may be taken, and stands there at its position.
pub fn draw_is_legal()
    ensures { DrawIsLegal }
{}

/// An instant is a deadlock exactly where what the term offers is not too large, and no live leaf of it can be reached. A leaf
/// in a part of weight 0 cannot be reached.
pub fn deadlock_means_none_live()
    ensures { DeadlockMeansNoneLive }
{}

/// An instant may not be given up where each leaf at which its draw arrives has a need within the budget.
pub fn affordable_instants_are_not_given_up()
    ensures { AffordableInstantsAreNotGivenUp }
{}
