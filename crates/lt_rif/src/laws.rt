//! Laws of the definitions that the contracts cite. The functions do nothing: their contracts say it.

ghost use Rattle.lt_rif.specs.Cutting.{CutsChangeNothing, NextReplyIsAtHand};
ghost use Rattle.lt_rif.specs.Enough.{RoomIsEnough};
ghost use Rattle.lt_rif.specs.Growing.{RepliesGrow};
ghost use Rattle.lt_rif.specs.ReadBack.{StepReadsBack, TraceReadsBack, ValueReadsBack};
ghost use Rattle.lt_rif.specs.Spelling.{SpellingIsRead};

/// Between two replies, what a reader finds in the bytes to come is the next reply of the stream.
#[tactic(auto, using(crate::proofs::ReadingLemmas::next_reply))]
pub fn next_reply_is_at_hand()
    ensures { NextReplyIsAtHand }
{}

/// However a stream is cut, what calls of `feed` find are its replies, one after another, with their places.
#[tactic(auto, using(crate::proofs::CuttingLemmas::cuts_change_nothing))]
pub fn cuts_change_nothing()
    ensures { CutsChangeNothing }
{}

/// However a reply is written, it is read as its values: blanks, comments and the word `#outs` between them
/// change nothing.
#[tactic(auto, using(crate::proofs::SpellingLemmas::spelling_is_read))]
pub fn spelling_is_read()
    ensures { SpellingIsRead }
{}

/// What `write_step` writes is read back as the same values, by slots that may hold them; what is left of its text
/// may stand before the next step.
#[tactic(auto, using(crate::proofs::ReadBackLemmas::step_reads_back))]
pub fn step_reads_back()
    ensures { StepReadsBack }
{}

/// The word that is written of a value is judged to be this value, by a slot that may hold it, and has no blank.
pub fn value_reads_back()
    ensures { ValueReadsBack }
{}

/// A trace, a header and steps after it, is read back as the values of its steps, one reply a step.
#[tactic(auto, using(crate::proofs::ReadBackLemmas::trace_reads_back))]
pub fn trace_reads_back()
    ensures { TraceReadsBack }
{}

/// What an open stream has for a reply stays so, however the stream goes on.
#[tactic(auto, using(crate::proofs::GrowingLemmas::replies_grow))]
pub fn replies_grow()
    ensures { RepliesGrow }
{}

/// What `room_for` answers is enough for a header, for a line, and for a step with an end line after it. A step is
/// counted by the kinds that it is written with.
#[tactic(auto, using(crate::proofs::EnoughLemmas::room_is_enough))]
pub fn room_is_enough()
    ensures { RoomIsEnough }
{}
