//! Laws of the definitions that the contracts cite. The functions do nothing: their contracts say it.

ghost use Rattle.lt_draw.specs.Direction.{SlotsAreApart};
ghost use Rattle.lt_draw.specs.Pick.{PicksByWeight, PicksTheFirstOver};
ghost use Rattle.lt_draw.specs.Target.{EachIsATarget};
ghost use Rattle.lt_draw.specs.Word.{PlacesAreApart, WordsAreAnswers};

/// The word at a place is what the seed's generator answers to `next_u64` after as many calls of it.
pub fn words_are_answers()
    ensures { WordsAreAnswers }
{}

/// Two slots, of one step or of two, are at two places.
pub fn places_are_apart()
    ensures { PlacesAreApart }
{}

/// The weights before the place that a remainder picks sum to no more than the remainder, and with its own to more.
pub fn picks_the_first_over()
    ensures { PicksTheFirstOver }
{}

/// Each place is picked by exactly as many remainders as its weight, and one of weight 0 by none.
pub fn picks_by_weight()
    ensures { PicksByWeight }
{}

/// Each point of a range is the target of exactly the words of one remainder.
pub fn each_is_a_target()
    ensures { EachIsATarget }
{}

/// No target and no direction have one slot, and each has a slot of the step.
pub fn slots_are_apart()
    ensures { SlotsAreApart }
{}
