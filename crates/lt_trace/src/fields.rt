//! The words of a line.

ghost use Rattle.std.specs.Prelude.{◌≡◌, ◌≤◌, ◌<◌, length, position, IfOk, IfSome};
ghost use Rattle.lt_num.specs.Bounds.{most_decimals};
ghost use Rattle.lt_trace.specs.inner.Words.{cut, is_space, left, marked, found, found_with, read_locals, read_values, word_at};

use crate::exact::{exact, exact_local};
use lt_num::Value;
use lt_rif::Slot;
use std::alloc::AllocError;

/// Where the word that begins at a place of a line ends: at the next space, or else at the end of the line. There is
/// none behind the line.
pub fn end_of_word(line: &[u8], at: usize) -> Option<usize>
    ensures word { cut (left line.now at) ≡ word_at line.now at result }
    ensures within { IfSome result (λ end. (at ≤ end) × (end ≤ length line.now)) }
{
    if at > line.len() {
        return None;
    }
    match space_in(&line[at..]) {
        Some(before) => Some(at + before),
        None => Some(line.len()),
    }
}

// Where the first space is.
fn space_in(bytes: &[u8]) -> Option<usize>
    ensures { result ≡ position is_space bytes.now }
{
    bytes.iter().position(|byte| *byte == b' ')
}

/// Reads this word, and answers where the next one begins.
pub fn read_mark(line: &[u8], at: usize, mark: &[u8]) -> Option<usize>
    ensures { marked mark.now (left line.now at) ≡ found line.now result }
{
    let Some(end) = end_of_word(line, at) else {
        return None;
    };
    if &line[at..end] == mark {
        Some(end + 1)
    } else {
        None
    }
}

/// Reads the words of values of these slots, and answers where the next word begins.
pub fn read_values(
    values: &mut Vec<Value>,
    slots: &[Slot],
    line: &[u8],
    from: usize,
    decimals: u32,
) -> Result<Option<usize>, AllocError>
    requires { decimals ≤ most_decimals }
    ensures { IfOk result (λ r. read_values decimals slots.now (left line.now from) values.old.items ≡ found_with values.new.items (found line.now r)) }
{
    let mut slots = slots;
    let mut at = from;
    while let [slot, more @ ..] = slots {
        let Some(end) = end_of_word(line, at) else {
            return Ok(None);
        };
        let Some(value) = exact(*slot, &line[at..end], decimals) else {
            return Ok(None);
        };
        values.push(value)?;
        at = end + 1;
        slots = more;
    }
    Ok(Some(at))
}

/// The same of locals.
pub fn read_locals(
    locals: &mut Vec<Option<Value>>,
    slots: &[Slot],
    line: &[u8],
    from: usize,
    decimals: u32,
) -> Result<Option<usize>, AllocError>
    requires { decimals ≤ most_decimals }
    ensures { IfOk result (λ r. read_locals decimals slots.now (left line.now from) locals.old.items ≡ found_with locals.new.items (found line.now r)) }
{
    let mut slots = slots;
    let mut at = from;
    while let [slot, more @ ..] = slots {
        let Some(end) = end_of_word(line, at) else {
            return Ok(None);
        };
        let Some(local) = exact_local(*slot, &line[at..end], decimals) else {
            return Ok(None);
        };
        locals.push(local)?;
        at = end + 1;
        slots = more;
    }
    Ok(Some(at))
}
