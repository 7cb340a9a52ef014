//! What a word is in a slot.

ghost use Rattle.std.specs.Prelude.{◌≡◌, ◌≤◌};
ghost use Rattle.lt_num.specs.Bounds.{most_decimals};
ghost use Rattle.lt_rif.specs.Judgement.{is_within, judged};

use crate::fault::ValueFault;
use crate::number::raw_of_word;
use crate::slot::Slot;
use lt_num::{Interval, Value};

/// The value that a word writes in a slot, where reals have so many decimals, 0 to 6.
///
/// # Errors
///
/// [`ValueFault::NotAValue`] where the word writes no value of the slot's kind, and
/// [`ValueFault::OutOfRange`] where its raw number is past 10^12 in size or outside the slot's range.
#[tactic(auto, unfolding(crate::specs::Judgement::judged))]
pub fn judge(slot: Slot, word: &[u8], decimals: u32) -> Result<Value, ValueFault>
    requires { decimals ≤ most_decimals }
    ensures { result ≡ judged decimals slot word.now }
{
    match raw_of_word(slot.kind, word, decimals) {
        Ok(raw) => {
            if is_within(slot.range, raw) {
                Ok(Value::of_raw(slot.kind, raw))
            } else {
                Err(ValueFault::OutOfRange)
            }
        }
        Err(fault) => Err(fault),
    }
}

// Whether a raw number is within a range, if there is one.
fn is_within(range: Option<Interval>, raw: i64) -> bool
    ensures { result ≡ is_within range raw }
{
    match range {
        Some(range) => range.low <= raw && raw <= range.high,
        None => true,
    }
}
