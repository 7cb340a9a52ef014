//! Appending into room that is reserved.

ghost use Rattle.std.specs.Prelude.{◌∷◌, [], decimal};
ghost use Rattle.lt_rif.specs.Room.{AddsText, HasRoom};

use itoa::{Buffer, Integer};

/// Appends bytes.
pub fn append(into: &mut Vec<u8>, bytes: &[u8])
    requires { HasRoom into.old bytes.now }
    ensures { AddsText into.old into.new bytes.now }
{
    into.extend_from_slice(bytes).unwrap();
}

/// Appends one byte.
pub fn append_byte(into: &mut Vec<u8>, byte: u8)
    requires { HasRoom into.old (byte ∷ []) }
    ensures { AddsText into.old into.new (byte ∷ []) }
{
    into.push_reserved(byte);
}

/// Appends a number in decimal digits.
pub fn append_number<I: Integer>(into: &mut Vec<u8>, number: I)
    requires { HasRoom into.old (I.text number) }
    ensures { AddsText into.old into.new (I.text number) }
{
    let mut digits = Buffer::new();
    append(into, digits.format(number).as_bytes());
}
