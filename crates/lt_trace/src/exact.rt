//! Words that are written of values.

ghost use Rattle.std.specs.Prelude.{◌≡◌, ◌≤◌};
ghost use Rattle.std.specs.Str.{bytes_eq};
ghost use Rattle.lt_num.specs.Bounds.{most_decimals};
ghost use Rattle.lt_rif.specs.Trace.{decimals_of, value_text};
ghost use Rattle.lt_trace.specs.inner.Words.{exact, exact_local};

use lt_num::{Fixed, Kind, Value, print};
use lt_rif::{Slot, judge};

/// The value of a slot of which this word is written, if it is written of one.
pub fn exact(slot: Slot, word: &[u8], decimals: u32) -> Option<Value>
    requires { decimals ≤ most_decimals }
    ensures { result ≡ exact decimals slot word.now }
{
    match judge(slot, word, decimals) {
        Ok(value) => {
            if is_text_of(value, slot.kind, word, decimals) {
                Some(value)
            } else {
                None
            }
        }
        Err(_) => None,
    }
}

/// The same of a local, which may be out of scope.
pub fn exact_local(slot: Slot, word: &[u8], decimals: u32) -> Option<Option<Value>>
    requires { decimals ≤ most_decimals }
    ensures { result ≡ exact_local decimals slot word.now }
{
    if word == b"?".as_slice() {
        return Some(None);
    }
    match exact(slot, word, decimals) {
        Some(value) => Some(Some(value)),
        None => None,
    }
}

// Whether a word is written of a value of a kind.
fn is_text_of(value: Value, kind: Kind, word: &[u8], decimals: u32) -> bool
    requires { decimals ≤ most_decimals }
    ensures { result ≡ bytes_eq word.now (value_text decimals kind value) }
{
    match value {
        Value::Bool(true) => word == b"t".as_slice(),
        Value::Bool(false) => word == b"f".as_slice(),
        Value::Num(raw) => {
            let mut text = [0; 24];
            let length = print(Fixed { raw }, decimals_of(decimals, kind), &mut text);
            word == &text[..length]
        }
    }
}

// How many decimals a number of a kind has, where a real has so many.
fn decimals_of(decimals: u32, kind: Kind) -> u32
    ensures { result ≡ decimals_of decimals kind }
{
    match kind {
        Kind::Real => decimals,
        Kind::Int | Kind::Bool => 0,
    }
}
