//! Forms from their texts.

ghost use Rattle.std.specs.Prelude.{◌≡◌};
ghost use Rattle.lt_linear.specs.Form.{all_pass, is_bounded, is_raw};
ghost use Rattle.lt_linear.specs.FormText.{TellsText};
ghost use Rattle.lt_linear.specs.inner.Parsing.{ReadsText};

use crate::form::{Form, Terms};
use crate::refusal::NumRefusal;
use crate::spelling::{MOST_RAW, first_term, read_whole, split_at_byte};
use std::alloc::Global;

/// The form that a text spells: terms, each a coefficient, `*v` and a variable, and after them a constant,
/// joined by ` + `, as in `2*v0 + -1*v3 + 7`. The terms are in rising order of variable, and no coefficient
/// is 0.
///
/// # Errors
///
/// [`NumRefusal::Malformed`] where the text spells no form, [`NumRefusal::Overflow`] where it spells one
/// with a coefficient or a constant past 10^12 in size, and [`NumRefusal::Memory`].
pub fn parse_form(alloc: Global, text: &[u8]) -> Result<Form, NumRefusal>
    ensures { TellsText text.now result }
{
    let form = read_form(alloc, text)?;
    if is_bounded(&form) {
        Ok(form)
    } else {
        Err(NumRefusal::Overflow)
    }
}

// The form that a text spells, with its numbers cut.
fn read_form(alloc: Global, text: &[u8]) -> Result<Form, NumRefusal>
    ensures { ReadsText text.now result }
{
    let mut terms = Vec::new(alloc);
    let mut least: u64 = 0;
    let mut rest = text;
    while let Some((word, behind)) = split_at_byte(rest, b' ') {
        let Some(first) = first_term(word, behind, least) else {
            return Err(NumRefusal::Malformed);
        };
        terms.push((first.variable, first.coefficient))?;
        least = u64::from(first.variable) + 1;
        rest = first.rest;
    }
    match read_whole(rest) {
        Some(constant) => Ok(Form {
            terms: Terms::from_vec(terms),
            constant,
        }),
        None => Err(NumRefusal::Malformed),
    }
}

// Whether no number of a form is past the bound.
fn is_bounded(form: &Form) -> bool
    ensures { result ≡ is_bounded form.now }
{
    is_raw(form.constant) && all_raw(form.terms.as_slice())
}

// Whether no coefficient is.
fn all_raw(terms: &[(u32, i64)]) -> bool
    ensures { result ≡ all_pass is_raw terms.now }
{
    terms.iter().all(|term| is_raw(term.1))
}

// Whether a number isn't.
fn is_raw(raw: i64) -> bool
    ensures { result ≡ is_raw raw }
{
    raw.unsigned_abs() <= MOST_RAW
}
