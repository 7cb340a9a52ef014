//! Laws of the grammar, and of what a program is printed as.

ghost use Rattle.lt_grammar.specs.PrintedText.{PrintedReadsBack, PrintsItsTokens};
ghost use Rattle.lt_grammar.specs.Unplaced.{SpelledElsewhere};
ghost use Rattle.lt_grammar.specs.Written.{WrittenAsSpelled};

/// A program is written with the tokens that spell it, where each of them has the letters of its sign.
#[tactic(auto, using(crate::proofs::Written::written_as_spelled))]
pub fn program_is_written_as_spelled()
    ensures { WrittenAsSpelled }
{}

/// What tokens spell, the same tokens at other places spell too, but for the places.
#[tactic(auto, using(crate::proofs::Unplaced::spelled_elsewhere))]
pub fn spelled_elsewhere()
    ensures { SpelledElsewhere }
{}

/// What a text's program is printed as spells the same program, but for the places.
pub fn printed_text_reads_back()
    ensures { PrintedReadsBack }
{}

/// The tokens that a text's program is printed with are the text's own, in their order.
pub fn text_is_printed_by_its_tokens()
    ensures { PrintsItsTokens }
{}
