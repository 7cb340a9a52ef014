//! Signs by their letters.

ghost use Rattle.std.specs.Prelude.{◌≡◌, [], ◌∷◌, nat_eq, if◌then◌else◌};
ghost use Rattle.std.specs.Cmp.Lexicographic.{pointwise};
ghost use Rattle.lt_ast.specs.Signs.{spelled};
ghost use Rattle.lt_lexer.specs.inner.Spelling.{beginning_with, ends_pair, first_spelled, sign_spelled, first_symbol};

use lt_ast::Sign;

// A sign, where it has these letters, and else what is found among others.
#[inline(always)]
fn this_or(sign: Sign, letters: &[u8], others: Option<Sign>) -> Option<Sign>
    ensures { result
        ≡ (if pointwise nat_eq (spelled sign) letters.now then Some sign else others) }
{
    if sign.text().as_bytes() == letters {
        return Some(sign);
    }
    others
}

// The first of these signs that has these letters.
macro_rules! one_of {
    ($letters:expr;) => { None };
    ($letters:expr; $sign:ident $(, $others:ident)*) => {
        this_or(Sign::$sign, $letters, one_of!($letters; $($others),*))
    };
}

// The sign that has these letters, of which this is the first. Each is named, and not taken from a list, so that its
// letters are known where they are compared.
fn sign_beginning(first: u8, letters: &[u8]) -> Option<Sign>
    ensures { result ≡ first_spelled letters.now (beginning_with first) }
{
    match first {
        b'a' => one_of!(letters; Assert, And),
        b'b' => one_of!(letters; Bool),
        b'c' => one_of!(letters; Catch),
        b'd' => one_of!(letters; Do, Div),
        b'e' => one_of!(letters; Exist, Exception, Else),
        b'f' => one_of!(letters; Fby, False),
        b'i' => one_of!(letters; In, Int, If),
        b'l' => one_of!(letters; Let, Loop),
        b'm' => one_of!(letters; Mod),
        b'n' => one_of!(letters; Node, Not),
        b'o' => one_of!(letters; Or),
        b'p' => one_of!(letters; Pre),
        b'r' => one_of!(letters; Returns, Real, Ref, Raise, Run),
        b't' => one_of!(letters; Trace, Trap, Try, Then, True),
        b'x' => one_of!(letters; Xor),
        b'(' => one_of!(letters; Open),
        b')' => one_of!(letters; Close),
        b'{' => one_of!(letters; OpenBrace),
        b'}' => one_of!(letters; CloseBrace),
        b'[' => one_of!(letters; OpenBracket),
        b']' => one_of!(letters; CloseBracket),
        b':' => one_of!(letters; Colon, Assign),
        b';' => one_of!(letters; Semicolon),
        b',' => one_of!(letters; Comma),
        b'=' => one_of!(letters; Equal, Implies),
        b'<' => one_of!(letters; Unequal, Less, LessEqual),
        b'>' => one_of!(letters; Greater, GreaterEqual),
        b'+' => one_of!(letters; Plus),
        b'-' => one_of!(letters; Minus),
        b'*' => one_of!(letters; Star),
        b'/' => one_of!(letters; Slash),
        b'|' => one_of!(letters; Bar, Priority),
        b'&' => one_of!(letters; Parallel),
        b'~' => one_of!(letters; Tilde),
        _ => None,
    }
}

// The sign that has this letter and no other: most symbols do.
fn sign_of_letter(letter: u8) -> Option<Sign>
    ensures { result ≡ sign_spelled (letter ∷ []) }
{
    match letter {
        b'(' => Some(Sign::Open),
        b')' => Some(Sign::Close),
        b'{' => Some(Sign::OpenBrace),
        b'}' => Some(Sign::CloseBrace),
        b'[' => Some(Sign::OpenBracket),
        b']' => Some(Sign::CloseBracket),
        b':' => Some(Sign::Colon),
        b';' => Some(Sign::Semicolon),
        b',' => Some(Sign::Comma),
        b'=' => Some(Sign::Equal),
        b'<' => Some(Sign::Less),
        b'>' => Some(Sign::Greater),
        b'+' => Some(Sign::Plus),
        b'-' => Some(Sign::Minus),
        b'*' => Some(Sign::Star),
        b'/' => Some(Sign::Slash),
        b'|' => Some(Sign::Bar),
        b'~' => Some(Sign::Tilde),
        _ => None,
    }
}

/// The sign that has these letters: a keyword or a symbol.
pub fn sign_spelled(letters: &[u8]) -> Option<Sign>
    ensures { result ≡ sign_spelled letters.now }
{
    let first = letters.first()?;
    if letters.len() == 1 {
        return sign_of_letter(*first);
    }
    sign_beginning(*first, letters)
}

// Whether a sign of two letters may end with this byte. Most symbols have one letter, and are found without a look at
// two.
fn ends_pair(byte: u8) -> bool
    ensures { result ≡ ends_pair byte }
{
    matches!(byte, b'=' | b'>' | b'f' | b'n' | b'o' | b'r')
}

/// The longest symbol at the front of a text, which begins with no letter.
#[tactic(auto, using(crate::proofs::Symbols::first_bytes))]
pub fn first_symbol(text: &[u8]) -> Option<Sign>
    ensures { result ≡ first_symbol text.now }
{
    if text.len() < 2 {
        return sign_spelled(text);
    }
    if !ends_pair(text[1]) {
        return sign_of_letter(text[0]);
    }
    sign_spelled(&text[..2]).or(sign_of_letter(text[0]))
}
