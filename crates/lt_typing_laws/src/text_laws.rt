//! The laws of texts.

ghost use Rattle.lt_typing_laws.specs.TextLaws.{SpelledMacrosFit, TextsKeepTypes};

use crate::laws::expansion_keeps_types;

/// In the program of a text a macro stands for a trace only where its type is that of traces.
pub fn spelled_macros_fit()
    ensures { SpelledMacrosFit }
{}

/// What a node of a text's well typed program stands for is well typed.
pub fn texts_keep_types()
    ensures { TextsKeepTypes }
{
    spelled_macros_fit();
    expansion_keeps_types();
}
