//! Words: the longest runs of bytes that aren't blank.

ghost use Rattle.std.specs.Prelude.{◌≡◌, ◌<◌, ◌≤◌, length, take, slice_index, false, true};
ghost use Rattle.std.specs.List.{list_any};
ghost use Rattle.lt_rif.specs.Word.{is_blank, class_of};
ghost use Rattle.lt_rif.specs.inner.Chunk.{IsChunk};

/// What a word is that stands outside comments.
#[derive(Clone, Copy, PartialEq, Eq)]
pub enum WordClass {
    /// No value: nothing at all, or the word `#outs`.
    Passed,

    /// It begins a comment, which goes on to the end of the line.
    Comment,

    /// A value.
    Value,
}

/// Whether a byte is a tab, a line feed, a carriage return or a space.
pub fn is_blank(byte: u8) -> bool
    ensures { result ≡ is_blank byte }
{
    byte == b'\t' || byte == b'\n' || byte == b'\r' || byte == b' '
}

/// How many bytes a chunk at the prefix takes: a blank, or a run of bytes that aren't blank.
pub fn length_of_chunk(bytes: &[u8]) -> usize
    requires { 0 < length bytes.now }
    ensures within { result ≤ length bytes.now }
    ensures begins { 0 < result }
    ensures chunk { IsChunk (take result bytes.now) }
{
    if is_blank(bytes[0]) {
        1
    } else {
        length_of_run(bytes)
    }
}

// How many bytes stand before the first blank, or all where none is blank.
fn length_of_run(bytes: &[u8]) -> usize
    ensures within { result ≤ length bytes.now }
    ensures run { list_any is_blank (take result bytes.now) ≡ false }
    ensures begins { result ≡ 0 → 0 < length bytes.now → is_blank (slice_index bytes.now 0) ≡ true }
{
    for (index, byte) in bytes.iter().enumerate() {
        if is_blank(*byte) {
            return index;
        }
    }
    bytes.len()
}

/// What a word is that stands outside comments.
#[tactic(auto, unfolding(crate::specs::Word::class_of))]
pub fn class_of(word: &[u8]) -> WordClass
    ensures { result ≡ class_of word.now }
{
    match word {
        [] => WordClass::Passed,
        [b'#', ..] if word == b"#outs".as_slice() => WordClass::Passed,
        [b'#', ..] | [b'-', b'-', ..] => WordClass::Comment,
        _ => WordClass::Value,
    }
}
