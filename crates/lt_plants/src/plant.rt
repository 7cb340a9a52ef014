//! Plants and their words.

ghost use Rattle.std.specs.Prelude.{◌≡◌, ◌↔◌, [], ◌∷◌, ℤ, map, string_bytes, IsTrue, IfSome, IfNone};
ghost use Rattle.lt_num.specs.Literal.{without_minus};
ghost use Rattle.lt_plants.specs.declared.plant.Plant.{Plant};
ghost use Rattle.lt_plants.specs.Words.{AreDigits, IsNamed, IsNumberText};

use crate::digits::all_digits;

/// A small program with a rule of its own.
#[derive(Clone, Copy, Debug, PartialEq, Eq)]
pub enum Plant {
    /// Reads a temperature and whether a door is open, as `18.50 f`. It replies whether it heats: `t` below 19.00,
    /// `f` above 21.00, and else what it replied last, `f` at first.
    Thermostat,
    /// Reads a truth, `t` or `f`. It replies `t` where this one and the one before are `t`.
    Gate,
    /// Replies this number to any line.
    Constant(i64),
    /// Reads a temperature, whether a door is open, and whether it is heated, as `18.50 f t`. It replies `f` where
    /// it is heated over 30.00.
    Safe,
}

/// The plant that words name: `thermostat`, `gate` or `safe` alone, or `constant` and a number, which is one to
/// eighteen digits, and may have a minus in prefix.
pub fn plant_of(words: &[String]) -> Option<Plant>
    ensures some { IfSome result (λ plant. IsNamed plant (map string_bytes words.now)) }
    ensures none { IfNone result ((plant : Plant) →
        ¬ (IsNamed plant (map string_bytes words.now))) }
{
    match words {
        [word] => plain_plant(word.as_str()),
        [word, number] => constant_plant(word.as_str(), number.as_str()),
        _ => None,
    }
}

// The plant that a word names alone.
fn plain_plant(word: &str) -> Option<Plant>
    ensures some { IfSome result (λ plant. IsNamed plant (word.now ∷ [])) }
    ensures none { IfNone result ((plant : Plant) → ¬ (IsNamed plant (word.now ∷ []))) }
{
    match word {
        "thermostat" => Some(Plant::Thermostat),
        "gate" => Some(Plant::Gate),
        "safe" => Some(Plant::Safe),
        _ => None,
    }
}

// The plant that a word and a number name.
fn constant_plant(word: &str, number: &str) -> Option<Plant>
    ensures some { IfSome result (λ plant. IsNamed plant (word.now ∷ number.now ∷ [])) }
    ensures none { IfNone result ((plant : Plant) →
        ¬ (IsNamed plant (word.now ∷ number.now ∷ []))) }
{
    if word != "constant" {
        return None;
    }
    Some(Plant::Constant(number_of(number)?))
}

// The number of a text that is a minus, or none, and one to eighteen digits.
fn number_of(text: &str) -> Option<i64>
    ensures some { IfSome result (λ n. IsNumberText text.now n) }
    ensures none { IfNone result ((n : ℤ) → ¬ (IsNumberText text.now n)) }
{
    if !are_digits(without_minus(text.as_bytes())) {
        return None;
    }
    text.parse().ok()
}

// What stands after a minus, or all of a text without one.
fn without_minus(text: &[u8]) -> &[u8]
    ensures { result.now ≡ without_minus text.now }
{
    match text {
        [b'-', after @ ..] => after,
        _ => text,
    }
}

// Whether a text is one to eighteen digits.
fn are_digits(text: &[u8]) -> bool
    ensures { IsTrue result ↔ AreDigits text.now }
{
    match text.len() {
        1..=18 => all_digits(text),
        _ => false,
    }
}
