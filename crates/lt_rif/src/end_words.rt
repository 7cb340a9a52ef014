//! The words of an end.

ghost use Rattle.std.specs.Prelude.{◌≡◌, [], map, slice_index_or};
ghost use Rattle.std.specs.String.{string_bytes};
ghost use Rattle.lt_rif.specs.Trace.{end_words, fault_text, refusal_text, who_text};
ghost use Rattle.lt_rif.specs.View.{words_of};

use crate::end::{End, Who};
use crate::fault::ValueFault;
use itoa::Buffer;
use lt_num::Arith;

/// The words of an end, as the end line and standard error tell it.
#[derive(Clone, Copy)]
pub enum EndWords<'a> {
    /// One word.
    One(&'a [u8]),

    /// A word, and what it is of: a name, a fault, a side or a number.
    Two(&'a [u8], &'a [u8]),

    /// A word, a side and a refusal.
    Three(&'a [u8], &'a [u8], &'a [u8]),
}

impl End {
    /// The words of this end. Exceptions have these names, and one without a name has an empty one. A number is written
    /// into `digits`.
    pub fn words<'a>(self, names: &'a [String], digits: &'a mut Buffer) -> EndWords<'a>
        ensures { words_of result ≡ end_words self (map string_bytes names.now) }
    {
        match self {
            End::Normal => EndWords::One(b"normal"),
            End::Limit => EndWords::One(b"limit"),
            End::Oracle => EndWords::One(b"oracle"),
            End::Deadlock => EndWords::One(b"deadlock"),
            End::TooLarge => EndWords::One(b"toolarge"),
            End::Raise { exception } => EndWords::Two(b"raise", exception_name(names, exception)),
            End::Fault(fault) => EndWords::Two(b"fault", fault_word(fault)),
            End::Malformed { who, fault, .. } => {
                EndWords::Three(b"malformed", who_word(who), refusal_word(fault))
            }
            End::Ended { who, .. } => EndWords::Two(b"ended", who_word(who)),
            End::Device(who) => EndWords::Two(b"device", who_word(who)),
            End::Budget { need } => EndWords::Two(b"budget", digits.format(need).as_bytes()),
        }
    }
}

// The name of an exception, by its number; nothing where no name has the number.
fn exception_name(names: &[String], exception: u32) -> &[u8]
    ensures { result.now ≡ slice_index_or (map string_bytes names.now) exception [] }
{
    match names.get(exception as usize) {
        Some(name) => name.as_bytes(),
        None => &[],
    }
}

/// The word of a side.
pub fn who_word(who: Who) -> &'static [u8]
    ensures { result.now ≡ who_text who }
{
    match who {
        Who::Controller => b"controller",
        Who::Oracle => b"oracle",
    }
}

// The word of a fault of arithmetic.
fn fault_word(fault: Arith) -> &'static [u8]
    ensures { result.now ≡ fault_text fault }
{
    match fault {
        Arith::NoPrevious => b"NoPrevious",
        Arith::DivisionByZero => b"DivisionByZero",
        Arith::Overflow => b"Overflow",
        Arith::NegativeWeight => b"NegativeWeight",
    }
}

// The word of a refusal.
fn refusal_word(fault: ValueFault) -> &'static [u8]
    ensures { result.now ≡ refusal_text fault }
{
    match fault {
        ValueFault::NotAValue => b"NotAValue",
        ValueFault::OutOfRange => b"OutOfRange",
        ValueFault::TooLong => b"TooLong",
    }
}
