//! The parts of a form's text. Numbers past 10^12 in size are cut to 10^12 + 1 there, so that a text is read to its
//! end before they are judged.

ghost use Rattle.std.specs.Prelude.{◌≡◌, ◌≢◌, ◌∷◌, ◌++◌, ◌==◌, ℕ, List, IsTrue, MatchOption, position};
ghost use Rattle.std.specs.Char.{is_ascii_digit};
ghost use Rattle.std.specs.List.{list_all};
ghost use Rattle.std.specs.Str.Parse.{digits_value};
ghost use Rattle.lt_linear.specs.FormText.{are_digits};
ghost use Rattle.lt_linear.specs.inner.Parsing.{BeginsWith, IsCut, SizeTells, SpellsCapped, SpellsNoTerm, SpellsNone, VariableTells, WholeTells, cut, lacks};

/// The greatest size of a raw number.
pub(crate) const MOST_RAW: u64 = 1_000_000_000_000;

// What a greater one is cut to.
const LEAST_PAST: u64 = MOST_RAW + 1;

/// The first term of a text, and what stands after the plus that follows it.
#[derive(Clone, Copy)]
pub(crate) struct FirstTerm<'a> {
    /// The term's variable.
    pub(crate) variable: u32,

    /// Its coefficient, cut.
    pub(crate) coefficient: i64,

    /// What stands after the plus.
    pub(crate) rest: &'a [u8],
}

/// The first term of a text, from its first word and what stands after the blank that follows it. There is none
/// where its variable is below `least`, or its coefficient is 0.
pub(crate) fn first_term<'a>(word: &[u8], behind: &'a [u8], least: u64) -> Option<FirstTerm<'a>>
    requires { IsTrue (lacks 32 word.now) }
    ensures { MatchOption result
        (SpellsNone least (word.now ++ 32 ∷ behind.now))
        (λ first. BeginsWith least (word.now ++ 32 ∷
        behind.now) first.variable first.coefficient first.rest.now) }
{
    let (variable, coefficient) = read_term(word)?;
    let rest = after_plus(behind)?;
    if u64::from(variable) < least {
        return None;
    }
    if coefficient == 0 {
        return None;
    }
    Some(FirstTerm {
        variable,
        coefficient,
        rest,
    })
}

/// What stands before the first byte of a kind, and what stands after it.
pub(crate) fn split_at_byte(text: &[u8], byte: u8) -> Option<(&[u8], &[u8])>
    ensures { MatchOption result
        (IsTrue (lacks byte text.now))
        (λ parts. IsCut byte text.now parts.0.now parts.1.now) }
{
    let place = place_of(text, byte)?;
    Some((&text[..place], &text[place + 1..]))
}

// Where the first byte of a kind is.
fn place_of(text: &[u8], byte: u8) -> Option<usize>
    ensures { result ≡ position (λ other. other == byte) text.now }
{
    text.iter().position(|other| *other == byte)
}

/// The whole number that a text spells, cut.
pub(crate) fn read_whole(text: &[u8]) -> Option<i64>
    ensures { WholeTells text.now result }
{
    match after(text, b'-') {
        Some(digits) => Some(-(read_size(digits)? as i64)),
        None => Some(read_size(text)? as i64),
    }
}

// The variable and the coefficient, cut, of the term that a text spells.
fn read_term(word: &[u8]) -> Option<(u32, i64)>
    ensures { MatchOption result
        (SpellsNoTerm word.now)
        (λ term. SpellsCapped word.now term.0 term.1) }
{
    let (coefficient, variable) = split_at_byte(word, b'*')?;
    let number = after(variable, b'v')?;
    Some((read_variable(number)?, read_whole(coefficient)?))
}

// What stands after a plus and a blank.
fn after_plus(text: &[u8]) -> Option<&[u8]>
    ensures { MatchOption result
        ((rest : List ℕ) → text.now ≢ 43 ∷ 32 ∷ rest)
        (λ rest. text.now ≡ 43 ∷ 32 ∷ rest.now) }
{
    match text {
        [b'+', b' ', rest @ ..] => Some(rest),
        _ => None,
    }
}

// What stands after a byte.
fn after(text: &[u8], byte: u8) -> Option<&[u8]>
    ensures { MatchOption result
        ((rest : List ℕ) → text.now ≢ byte ∷ rest)
        (λ rest. text.now ≡ byte ∷ rest.now) }
{
    match text.split_first() {
        Some((first, rest)) if *first == byte => Some(rest),
        _ => None,
    }
}

// The number of a variable that a text spells.
fn read_variable(text: &[u8]) -> Option<u32>
    ensures { VariableTells text.now result }
{
    u32::try_from(read_size(text)?).ok()
}

// The number that digits write, cut.
fn read_size(text: &[u8]) -> Option<u64>
    ensures { SizeTells text.now result }
{
    if !are_digits(text) {
        return None;
    }
    Some(cut_value(text))
}

// Whether a text is digits, at least one.
fn are_digits(text: &[u8]) -> bool
    ensures { result ≡ are_digits text.now }
{
    !text.is_empty() && all_digits(text)
}

// Whether each byte is a digit.
fn all_digits(text: &[u8]) -> bool
    ensures { result ≡ list_all is_ascii_digit text.now }
{
    text.iter().all(|byte| byte.is_ascii_digit())
}

// The number that digits write, cut.
fn cut_value(digits: &[u8]) -> u64
    requires { IsTrue (are_digits digits.now) }
    ensures { result ≡ cut (digits_value 10 digits.now) }
{
    let mut value: u64 = 0;
    for digit in digits {
        value = (value * 10 + u64::from(*digit - b'0')).min(LEAST_PAST);
    }
    value
}
