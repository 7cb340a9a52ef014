//! The line that a trace ends with.

ghost use Rattle.std.specs.Prelude.{◌++◌, codes, map};
ghost use Rattle.std.specs.String.{string_bytes};
ghost use Rattle.lt_rif.specs.Room.{AddsText, HasRoom};
ghost use Rattle.lt_rif.specs.Trace.{end_text};
ghost use Rattle.lt_rif.specs.View.{words_of};
ghost use Rattle.lt_rif.specs.inner.Spaced.{after_space};

use crate::end::End;
use crate::end_words::EndWords;
use crate::writing::{append, append_byte, append_number};
use itoa::Buffer;

/// Appends the end line of a trace, with its number: that of the instant at which the run ended, or of the steps
/// written where it is over or at its limit. Exceptions have these names, and one without a name has none in the line.
pub fn write_end(into: &mut Vec<u8>, end: End, names: &[String], number: u64)
    requires room { HasRoom into.old (end_text end (map string_bytes names.now) number) }
    ensures { AddsText into.old into.new (end_text end (map string_bytes names.now) number) }
{
    let mut digits = Buffer::new();
    append(into, b"#end");
    append_words(into, end.words(names, &mut digits));
    append_byte(into, b' ');
    append_number(into, number);
    append_byte(into, b'\n');
}

// Appends the words of an end, with a space before each.
fn append_words(into: &mut Vec<u8>, words: EndWords<'_>)
    requires room { HasRoom into.old (after_space (words_of words)) }
    ensures { AddsText into.old into.new (after_space (words_of words.entry)) }
{
    match words {
        EndWords::One(first) => append_word(into, first),
        EndWords::Two(first, second) => {
            append_word(into, first);
            append_word(into, second);
        }
        EndWords::Three(first, second, third) => {
            append_word(into, first);
            append_word(into, second);
            append_word(into, third);
        }
    }
}

// Appends a space and a word.
fn append_word(into: &mut Vec<u8>, word: &[u8])
    requires { HasRoom into.old (codes " " ++ word.now) }
    ensures { AddsText into.old into.new (codes " " ++ word.now) }
{
    append_byte(into, b' ');
    append(into, word);
}
