//! The line that a trace ends with.

ghost use Rattle.std.specs.Prelude.{◌≡◌, ◌<◌, ◌-◌, ◌^◌, ℕ, ◌++◌, ◌∷◌, List, Some, codes, decimal, length, map, true};
ghost use Rattle.std.specs.String.{string_bytes};
ghost use Rattle.lt_rif.specs.Trace.{line};
ghost use Rattle.lt_rif.specs.declared.end.End.TheVariants.{Oracle};
ghost use Rattle.lt_trace.specs.End.{end_line, recorded_of};
ghost use Rattle.lt_trace.specs.inner.Ends.{FindsEnd, FindsRaise, FindsTold, end_word_text, plain_ends};
ghost use Rattle.lt_trace.specs.inner.Front.{is_same};

use crate::digits::number_in;
use crate::fields::end_of_word;
use crate::front::{behind, behind_words, is_numbered};
use crate::recorded::RecordedEnd;
use itoa::Buffer;
use lt_num::Arith;
use lt_rif::{End, ValueFault, Who};

/// The end that a line tells behind so many steps, without its line feed, if it tells one. Exceptions have these names.
pub fn end_in(text: &[u8], names: &[String], steps: u64) -> Option<RecordedEnd>
    requires steps { steps < 2 ^ 64 - 1 }
    requires names { length names.now < 2 ^ 32 }
    ensures { FindsTold (map string_bytes names.now) steps text.now result }
{
    if let Some(end) = plain_end(text, names, steps) {
        return Some(recorded_of(end));
    }
    if let Some(exception) = raise_in(text, names, steps) {
        return Some(RecordedEnd::Raise(exception));
    }
    if is_false_verdict(text, names, steps) || is_given_up(text, names, steps) {
        return Some(RecordedEnd::Cut);
    }
    None
}

// The end that has neither a name nor a need, if this is the line of one.
fn plain_end(text: &[u8], names: &[String], steps: u64) -> Option<End>
    requires { steps < 2 ^ 64 - 1 }
    ensures { FindsEnd plain_ends (map string_bytes names.now) steps text.now result }
{
    let ends = [
        End::Normal,
        End::Limit,
        End::Deadlock,
        End::TooLarge,
        End::Fault(Arith::NoPrevious),
        End::Fault(Arith::DivisionByZero),
        End::Fault(Arith::Overflow),
        End::Fault(Arith::NegativeWeight),
        malformed(Who::Controller, ValueFault::NotAValue),
        malformed(Who::Controller, ValueFault::OutOfRange),
        malformed(Who::Controller, ValueFault::TooLong),
        malformed(Who::Oracle, ValueFault::NotAValue),
        malformed(Who::Oracle, ValueFault::OutOfRange),
        malformed(Who::Oracle, ValueFault::TooLong),
        ended(Who::Controller),
        ended(Who::Oracle),
        End::Device(Who::Controller),
        End::Device(Who::Oracle),
    ];
    find_among(text, &ends, names, steps)
}

// The end by a reply that is refused, at a place that a line doesn't show.
const fn malformed(who: Who, fault: ValueFault) -> End
    ensures { result ≡ End.Malformed who fault 0 }
{
    End::Malformed {
        who,
        fault,
        place: 0,
    }
}

// The end by a stream that ended, after a count that a line doesn't show.
const fn ended(who: Who) -> End
    ensures { result ≡ End.Ended who 0 }
{
    End::Ended { who, taken: 0 }
}

// The first of these ends whose line this is.
fn find_among(text: &[u8], ends: &[End], names: &[String], steps: u64) -> Option<End>
    requires { steps < 2 ^ 64 - 1 }
    ensures { FindsEnd ends.now (map string_bytes names.now) steps text.now result }
{
    for end in ends {
        if is_end(text, *end, names, steps) {
            return Some(*end);
        }
    }
    None
}

// The first exception of which this is the line of a raise.
fn raise_in(text: &[u8], names: &[String], steps: u64) -> Option<u32>
    requires steps { steps < 2 ^ 64 - 1 }
    requires names { length names.now < 2 ^ 32 }
    ensures { FindsRaise (map string_bytes names.now) steps text.now result }
{
    let count = names.len() as u32;
    let mut exception = 0;
    while exception < count {
        if is_end(text, End::Raise { exception }, names, steps) {
            return Some(exception);
        }
        exception += 1;
    }
    None
}

// Whether a line says that the verdict on the last of so many steps was false.
fn is_false_verdict(text: &[u8], names: &[String], steps: u64) -> bool
    requires { steps < 2 ^ 64 - 1 }
    ensures yes { result ≡ true → (0 < steps) × (line text.now ≡
        end_line Oracle (map string_bytes names.now) steps) }
    ensures no { 0 < steps → line text.now ≡ end_line Oracle (map string_bytes names.now) steps →
        result ≡ true }
{
    steps > 0 && is_end(text, End::Oracle, names, steps)
}

// Whether a line says that the instant behind so many steps was given up, whatever its need was.
fn is_given_up(text: &[u8], names: &[String], steps: u64) -> bool
    requires { steps < 2 ^ 64 - 1 }
    ensures yes { result ≡ true → (need : ℕ) × (need < 2 ^ 128) × (line text.now ≡
        end_line (End.Budget need) (map string_bytes names.now) steps) }
    ensures no { (need : ℕ) → need < 2 ^ 128 → line text.now ≡
        end_line (End.Budget need) (map string_bytes names.now) steps → result ≡ true }
{
    match need_in(text) {
        Some(need) => is_end(text, End::Budget { need }, names, steps),
        None => false,
    }
}

// The need that a line may tell.
fn need_in(text: &[u8]) -> Option<u128>
    ensures { (need : ℕ) (rest : List ℕ) → need < 2 ^ 128 →
        text.now ≡ codes "#end budget " ++ (decimal need ++ 32 ∷ rest) → result ≡ Some need }
{
    let rest = behind(text, b"#end budget ")?;
    let end = end_of_word(rest, 0)?;
    number_in(&rest[..end])
}

// Whether a line is that of an end behind so many steps.
fn is_end(text: &[u8], end: End, names: &[String], steps: u64) -> bool
    requires { steps < 2 ^ 64 - 1 }
    ensures yes { result ≡ true → line text.now ≡ end_line end (map string_bytes names.now) steps }
    ensures no { line text.now ≡ end_line end (map string_bytes names.now) steps → result ≡ true }
{
    has_words_of(text, end, names, steps)
}

// The same, word by word.
fn has_words_of(text: &[u8], end: End, names: &[String], steps: u64) -> bool
    requires { steps < 2 ^ 64 - 1 }
    ensures { result ≡ is_same text.now (end_word_text end (map string_bytes names.now) steps) }
{
    let mut digits = Buffer::new();
    let Some(rest) = behind(text, b"#end") else {
        return false;
    };
    let Some(rest) = behind_words(rest, end.words(names, &mut digits)) else {
        return false;
    };
    is_numbered(rest, b" ", end.number(steps))
}

// What an end tells of the scenario.
fn recorded_of(end: End) -> RecordedEnd
    ensures { result ≡ recorded_of end }
{
    match end {
        End::Normal => RecordedEnd::Normal,
        End::Deadlock => RecordedEnd::Deadlock,
        End::Raise { exception } => RecordedEnd::Raise(exception),
        End::Fault(fault) => RecordedEnd::Fault(fault),
        End::Limit
        | End::Oracle
        | End::TooLarge
        | End::Malformed { .. }
        | End::Ended { .. }
        | End::Device(_)
        | End::Budget { .. } => RecordedEnd::Cut,
    }
}
