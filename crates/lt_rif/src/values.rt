//! The words of values.

ghost use Rattle.std.specs.Prelude.{◌≡◌, ◌≤◌};
ghost use Rattle.lt_num.specs.Bounds.{most_decimals};
ghost use Rattle.lt_num.specs.Text.{text_of};
ghost use Rattle.lt_rif.specs.Enough.{AreSized, IsSized};
ghost use Rattle.lt_rif.specs.Room.{AddsText, HasRoom};
ghost use Rattle.lt_rif.specs.Trace.{decimals_of, local_text, local_words, spaced, value_text, value_words};
ghost use Rattle.lt_rif.specs.inner.Spaced.{before_space, after_space};

use crate::writing::{append, append_byte};
use lt_num::{Fixed, Kind, Value, print};

/// Appends the words of values of these kinds, with a space after each.
pub fn append_before_space(into: &mut Vec<u8>, values: &[Value], kinds: &[Kind], decimals: u32)
    requires decimals { decimals ≤ most_decimals }
    requires room { HasRoom into.old (before_space (value_words decimals kinds.now values.now)) }
    ensures { AddsText into.old into.new (before_space (value_words decimals kinds.now values.now)) }
{
    let mut kinds = kinds;
    let mut values = values;
    while let [kind, more_kinds @ ..] = kinds {
        let [value, more_values @ ..] = values else {
            return;
        };
        append_value(into, *value, *kind, decimals);
        append_byte(into, b' ');
        kinds = more_kinds;
        values = more_values;
    }
}

/// Appends the words of values of these kinds, with a space before each.
pub fn append_after_space(into: &mut Vec<u8>, values: &[Value], kinds: &[Kind], decimals: u32)
    requires decimals { decimals ≤ most_decimals }
    requires room { HasRoom into.old (after_space (value_words decimals kinds.now values.now)) }
    ensures { AddsText into.old into.new (after_space (value_words decimals kinds.now values.now)) }
{
    let mut kinds = kinds;
    let mut values = values;
    while let [kind, more_kinds @ ..] = kinds {
        let [value, more_values @ ..] = values else {
            return;
        };
        append_byte(into, b' ');
        append_value(into, *value, *kind, decimals);
        kinds = more_kinds;
        values = more_values;
    }
}

/// Appends the words of values of these kinds, with a space between two.
pub fn append_spaced(into: &mut Vec<u8>, values: &[Value], kinds: &[Kind], decimals: u32)
    requires decimals { decimals ≤ most_decimals }
    requires room { HasRoom into.old (spaced (value_words decimals kinds.now values.now)) }
    ensures { AddsText into.old into.new (spaced (value_words decimals kinds.now values.now)) }
{
    let [kind, more_kinds @ ..] = kinds else {
        return;
    };
    let [value, more_values @ ..] = values else {
        return;
    };
    append_value(into, *value, *kind, decimals);
    append_after_space(into, more_values, more_kinds, decimals);
}

/// Appends the words of locals of these kinds, with a space before each.
pub fn append_locals(into: &mut Vec<u8>, locals: &[Option<Value>], kinds: &[Kind], decimals: u32)
    requires decimals { decimals ≤ most_decimals }
    requires room { HasRoom into.old (after_space (local_words decimals kinds.now locals.now)) }
    ensures { AddsText into.old into.new (after_space (local_words decimals kinds.now locals.now)) }
{
    let mut kinds = kinds;
    let mut locals = locals;
    while let [kind, more_kinds @ ..] = kinds {
        let [local, more_locals @ ..] = locals else {
            return;
        };
        append_byte(into, b' ');
        append_local(into, *local, *kind, decimals);
        kinds = more_kinds;
        locals = more_locals;
    }
}

// Appends a local of a kind.
fn append_local(into: &mut Vec<u8>, local: Option<Value>, kind: Kind, decimals: u32)
    requires decimals { decimals ≤ most_decimals }
    requires room { HasRoom into.old (local_text decimals kind local) }
    ensures { AddsText into.old into.new (local_text decimals kind local) }
{
    match local {
        Some(value) => append_value(into, value, kind, decimals),
        None => append_byte(into, b'?'),
    }
}

// Appends a value of a kind, where a real has so many decimals.
fn append_value(into: &mut Vec<u8>, value: Value, kind: Kind, decimals: u32)
    requires decimals { decimals ≤ most_decimals }
    requires room { HasRoom into.old (value_text decimals kind value) }
    ensures { AddsText into.old into.new (value_text decimals kind value) }
{
    match value {
        Value::Bool(true) => append_byte(into, b't'),
        Value::Bool(false) => append_byte(into, b'f'),
        Value::Num(raw) => append_raw(into, raw, decimals_of(decimals, kind)),
    }
}

// Appends a raw number with so many decimals. It stands apart, since a truth needs nothing of what it does.
#[inline(never)]
fn append_raw(into: &mut Vec<u8>, raw: i64, decimals: u32)
    requires decimals { decimals ≤ most_decimals }
    requires room { HasRoom into.old (text_of decimals raw) }
    ensures { AddsText into.old into.new (text_of decimals raw) }
{
    let mut text = [0; 24];
    let length = print(Fixed { raw }, decimals, &mut text);
    append(into, &text[..length]);
}

// How many decimals a number of a kind has, where a real has so many.
fn decimals_of(decimals: u32, kind: Kind) -> u32
    ensures { result ≡ decimals_of decimals kind }
{
    match kind {
        Kind::Real => decimals,
        Kind::Int | Kind::Bool => 0,
    }
}

/// Values are as small as the law of room asks, since their raw numbers have 64 bits. That a walk over them shows; it
/// does nothing else.
pub fn values_are_sized(values: &[Value])
    ensures { AreSized values.now }
{
    let mut values = values;
    while let [value, more @ ..] = values {
        value_is_sized(*value);
        values = more;
    }
}

// A value is.
fn value_is_sized(value: Value)
    ensures { IsSized value }
{
    match value {
        Value::Bool(_) => {}
        Value::Num(_raw) => {}
    }
}
