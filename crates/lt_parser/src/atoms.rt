//! What holds no other form of its kind: signs, names, numbers, types, ranges.

ghost use Rattle.std.specs.Prelude.{◌≡◌, ◌<◌, ◌≤◌, suc, Bool, length, nat_le, true, false, IfOk, MatchOption, MatchResult};
ghost use Rattle.lt_ast.specs.View.{figure, word, words, written_range, written_step};
ghost use Rattle.lt_lexer.specs.Source.{lexeme_span};
ghost use Rattle.lt_grammar.specs.Nesting.{most_levels};
ghost use Rattle.lt_parser.specs.inner.Parsing.{ReadsAs};
ghost use Rattle.lt_grammar.specs.Lexemes.{IsNotFirst};
ghost use Rattle.lt_parser.specs.inner.Tokens.{Begins, lexemes};
ghost use Rattle.lt_parser.specs.inner.Reading.{Goal, a_digits, a_figure, a_name, a_range, a_ref, a_sign, a_step, a_type, outcome};
ghost use Rattle.lt_parser.specs.inner.Reading as reading;

use crate::refusal::Refusal;
use lt_ast::{Letters, Literal, Name, Names, Range, Sign, Span, TypeName};
use lt_lexer::Lexeme;
use std::alloc::{AllocError, Global};

// How many levels may be open at once.
const MOST_LEVELS: u32 = 200;

/// What was found, and the tokens after it.
pub(crate) type Parsed<'a, T> = Result<(T, &'a [Lexeme<'a>]), Refusal>;

/// The name that a token is.
pub(crate) fn name_of(alloc: Global, token: &Lexeme<'_>) -> Result<Name, AllocError>
    ensures { IfOk result
        (λ n. word n ≡ record { text = token.now.text.now; span = lexeme_span token.now }) }
{
    Ok(Name {
        text: Letters::new(alloc, token.text)?,
        span: token.span(),
    })
}

/// The number that a token is, after a minus or not, at a place.
pub(crate) fn number_of(
    alloc: Global,
    minus: bool,
    span: Span,
    token: &Lexeme<'_>,
) -> Result<Literal, AllocError>
    requires { token.now.sign ≡ Sign.Number }
    ensures { IfOk result
        (λ l. figure l ≡ record { minus = minus; text = token.now.text.now; span = span }) }
{
    let text = Letters::new(alloc, token.text)?;
    Ok(Literal::new(minus, text, span))
}

/// One level more.
pub(crate) fn deeper(depth: u32, left: usize) -> Result<u32, Refusal>
    requires { depth ≤ most_levels }
    ensures deep { MatchResult result
        (λ d. (d ≡ suc depth) × (d ≤ most_levels) × (nat_le (suc depth) most_levels ≡ true))
        (λ e. (e ≡ Refusal.TooDeep left) × (nat_le (suc depth) most_levels ≡ false)) }
{
    if depth == MOST_LEVELS {
        return Err(Refusal::TooDeep(left));
    }
    Ok(depth + 1)
}

/// The place of this sign and the tokens after it, where it is the first.
#[tactic(auto, using(crate::proofs::Steps::firsts))]
pub(crate) fn after<'a>(tokens: &'a [Lexeme<'a>], sign: Sign) -> Option<(Span, &'a [Lexeme<'a>])>
    ensures found { MatchOption result (IsNotFirst sign (lexemes tokens.now))
        (λ r. Begins sign r.0 (lexemes tokens.now) (lexemes r.1.now)) }
    ensures shorter { MatchOption result (length tokens.now ≡ length tokens.now)
        (λ r. length r.1.now < length tokens.now) }
{
    match tokens.split_first() {
        None => None,
        Some((first, rest)) => {
            if first.sign == sign {
                return Some((first.span(), rest));
            }
            None
        }
    }
}

/// This sign.
pub(crate) fn expect<'a>(tokens: &'a [Lexeme<'a>], sign: Sign) -> Parsed<'a, Span>
    ensures reads { ReadsAs (λ x. x.0) (λ x. lexemes x.1.now) (a_sign sign) (lexemes tokens.now)
        result }
    ensures shorter { IfOk result (λ x. length x.1.now < length tokens.now) }
{
    match after(tokens, sign) {
        Some(found) => Ok(found),
        None => Err(Refusal::Unexpected(tokens.len())),
    }
}

/// A name.
pub(crate) fn parse_name<'a>(alloc: Global, tokens: &'a [Lexeme<'a>]) -> Parsed<'a, Name>
    ensures reads { ReadsAs (λ x. word x.0) (λ x. lexemes x.1.now) a_name (lexemes tokens.now)
        result }
    ensures shorter { IfOk result (λ x. length x.1.now < length tokens.now) }
{
    match tokens.split_first() {
        Some((first, rest)) if first.sign == Sign::Name => Ok((name_of(alloc, first)?, rest)),
        _ => Err(Refusal::Unexpected(tokens.len())),
    }
}

/// Names with commas between them.
#[tactic(auto, using(crate::proofs::Skips::no_name))]
pub(crate) fn parse_names<'a>(alloc: Global, tokens: &'a [Lexeme<'a>]) -> Parsed<'a, Names>
    ensures reads { ReadsAs (λ x. words x.0) (λ x. lexemes x.1.now) reading.names
        (lexemes tokens.now) result }
    ensures shorter { IfOk result (λ x. length x.1.now < length tokens.now) }
{
    let (first, mut rest) = parse_name(alloc, tokens)?;
    let mut items = vec![in alloc; first]?;
    while let Some((_, next)) = after(rest, Sign::Comma) {
        let (another, remaining) = parse_name(alloc, next)?;
        items.push(another)?;
        rest = remaining;
    }
    Ok((Names { items }, rest))
}

/// The name of a type.
pub(crate) fn parse_type_name<'a>(tokens: &'a [Lexeme<'a>]) -> Parsed<'a, TypeName>
    ensures reads { ReadsAs (λ x. x.0) (λ x. lexemes x.1.now) a_type (lexemes tokens.now) result }
    ensures shorter { IfOk result (λ x. length x.1.now < length tokens.now) }
{
    let Some((first, rest)) = tokens.split_first() else {
        return Err(Refusal::Unexpected(0));
    };
    match first.sign {
        Sign::Bool => Ok((TypeName::Bool, rest)),
        Sign::Int => Ok((TypeName::Int, rest)),
        Sign::Real => Ok((TypeName::Real, rest)),
        Sign::Trace => Ok((TypeName::Trace, rest)),
        _ => Err(Refusal::Unexpected(tokens.len())),
    }
}

/// Whether `ref` comes.
#[tactic(auto, using(crate::proofs::Skips::no_ref))]
pub(crate) fn parse_ref<'a>(tokens: &'a [Lexeme<'a>]) -> (bool, &'a [Lexeme<'a>])
    ensures reads { (k : Bool → Goal) →
        outcome most_levels (a_ref k) (lexemes tokens.now)
        ≡ outcome most_levels (k result.0) (lexemes result.1.now) }
    ensures shorter { length result.1.now ≤ length tokens.now }
{
    match after(tokens, Sign::Ref) {
        Some((_, rest)) => (true, rest),
        None => (false, tokens),
    }
}

/// A number, with a minus or without one.
pub(crate) fn parse_literal<'a>(alloc: Global, tokens: &'a [Lexeme<'a>]) -> Parsed<'a, Literal>
    ensures reads { ReadsAs (λ x. figure x.0) (λ x. lexemes x.1.now) a_figure (lexemes tokens.now)
        result }
    ensures shorter { IfOk result (λ x. length x.1.now < length tokens.now) }
{
    let Some((first, rest)) = tokens.split_first() else {
        return Err(Refusal::Unexpected(0));
    };
    match first.sign {
        Sign::Minus => parse_digits(alloc, first.span(), rest),
        Sign::Number => Ok((number_of(alloc, false, first.span(), first)?, rest)),
        _ => Err(Refusal::Unexpected(tokens.len())),
    }
}

// The number after a minus.
fn parse_digits<'a>(alloc: Global, start: Span, tokens: &'a [Lexeme<'a>]) -> Parsed<'a, Literal>
    ensures reads { ReadsAs (λ x. figure x.0) (λ x. lexemes x.1.now) (a_digits start)
        (lexemes tokens.now) result }
    ensures shorter { IfOk result (λ x. length x.1.now < length tokens.now) }
{
    match tokens.split_first() {
        Some((first, rest)) if first.sign == Sign::Number => {
            Ok((number_of(alloc, true, start.to(first.span()), first)?, rest))
        }
        _ => Err(Refusal::Unexpected(tokens.len())),
    }
}

// A step, where it is there.
#[tactic(auto, using(crate::proofs::Skips::no_step))]
fn parse_step<'a>(alloc: Global, tokens: &'a [Lexeme<'a>]) -> Parsed<'a, Option<Literal>>
    ensures reads { ReadsAs (λ x. written_step x.0) (λ x. lexemes x.1.now) a_step
        (lexemes tokens.now) result }
    ensures shorter { IfOk result (λ x. length x.1.now ≤ length tokens.now) }
{
    match after(tokens, Sign::Semicolon) {
        None => Ok((None, tokens)),
        Some((_, rest)) => {
            let (step, rest) = parse_literal(alloc, rest)?;
            Ok((Some(step), rest))
        }
    }
}

/// A range, where it is there.
#[tactic(auto, using(crate::proofs::Skips::no_range))]
pub(crate) fn parse_range<'a>(alloc: Global, tokens: &'a [Lexeme<'a>]) -> Parsed<'a, Option<Range>>
    ensures reads { ReadsAs (λ x. written_range x.0) (λ x. lexemes x.1.now) a_range
        (lexemes tokens.now) result }
    ensures shorter { IfOk result (λ x. length x.1.now ≤ length tokens.now) }
{
    match after(tokens, Sign::OpenBracket) {
        None => Ok((None, tokens)),
        Some((_, rest)) => {
            let (low, rest) = parse_literal(alloc, rest)?;
            let (_, rest) = expect(rest, Sign::Semicolon)?;
            let (high, rest) = parse_literal(alloc, rest)?;
            let (step, rest) = parse_step(alloc, rest)?;
            let (_, rest) = expect(rest, Sign::CloseBracket)?;
            Ok((Some(Range { low, high, step }), rest))
        }
    }
}
