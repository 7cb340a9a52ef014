//! Fronts of texts.

ghost use Rattle.std.specs.Prelude.{◌≡◌, ◌∷◌, ◌++◌, decimal, map, option_map};
ghost use Rattle.std.specs.List.{flat_map};
ghost use Rattle.lt_rif.specs.Trace.{declared_text, declared_variable, kind_text};
ghost use Rattle.lt_rif.specs.View.{words_of};
ghost use Rattle.lt_trace.specs.Lines.{declaration};
ghost use Rattle.lt_trace.specs.inner.Ends.{after_space};
ghost use Rattle.lt_trace.specs.inner.Front.{behind, is_over, is_same};

use itoa::{Buffer, Integer};
use lt_num::Kind;
use lt_rif::{Declared, EndWords};

/// What stands behind a front of a text, if it begins so.
pub fn behind<'a>(text: &'a [u8], front: &[u8]) -> Option<&'a [u8]>
    ensures { option_map (λ rest. rest.now) result ≡ behind text.now front.now }
{
    text.strip_prefix(front)
}

/// Whether a line is a mark and a number.
pub fn is_numbered<I: Integer>(line: &[u8], mark: &[u8], number: I) -> bool
    ensures { result ≡ is_same line.now (mark.now ++ I.text number) }
{
    match behind(line, mark) {
        Some(rest) => {
            let mut digits = Buffer::new();
            rest == digits.format(number).as_bytes()
        }
        None => false,
    }
}

/// Whether a line is a mark with variables that are declared behind it.
pub fn declares(line: &[u8], mark: &[u8], variables: &[Declared]) -> bool
    ensures { result ≡ is_same line.now
        (declaration mark.now (map declared_variable variables.now)) }
{
    let Some(rest) = behind(line, mark) else {
        return false;
    };
    let mut rest = rest;
    let mut variables = variables;
    while let [variable, more @ ..] = variables {
        let Some(after) = behind_declared(rest, variable) else {
            return false;
        };
        rest = after;
        variables = more;
    }
    rest.is_empty()
}

// What stands behind a space, a quoted name and a kind.
fn behind_declared<'a>(text: &'a [u8], variable: &Declared) -> Option<&'a [u8]>
    ensures { option_map (λ rest. rest.now) result ≡
        behind text.now (declared_text (declared_variable variable.now)) }
{
    let rest = behind(text, b" \"")?;
    let rest = behind(rest, variable.name.as_bytes())?;
    let rest = behind(rest, b"\":")?;
    behind(rest, kind_word(variable.kind))
}

// The word of a kind.
fn kind_word(kind: Kind) -> &'static [u8]
    ensures { result.now ≡ kind_text kind }
{
    match kind {
        Kind::Bool => b"bool",
        Kind::Int => b"int",
        Kind::Real => b"real",
    }
}

/// What stands behind the words of an end, each of which has a space before it.
pub fn behind_words<'a>(text: &'a [u8], words: EndWords<'_>) -> Option<&'a [u8]>
    ensures { option_map (λ rest. rest.now) result ≡ behind text.now
        (after_space (words_of words.entry)) }
{
    match words {
        EndWords::One(first) => behind_word(text, first),
        EndWords::Two(first, second) => behind_word(behind_word(text, first)?, second),
        EndWords::Three(first, second, third) => {
            let rest = behind_word(text, first)?;
            behind_word(behind_word(rest, second)?, third)
        }
    }
}

// What stands behind a space and a word.
fn behind_word<'a>(text: &'a [u8], word: &[u8]) -> Option<&'a [u8]>
    ensures { option_map (λ rest. rest.now) result ≡ behind text.now (32 ∷ word.now) }
{
    behind(behind(text, b" ")?, word)
}
