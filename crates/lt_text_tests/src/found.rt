//! What is found of a text.

ghost use Rattle.std.specs.Prelude.{◌≤◌};

use crate::rows::NODE;
use lt_ast::{Body, Decl, Expr, Program};
use lt_lexer::{LexRefusal, Lexeme, lex};
use lt_parser::{parse, print};
use lt_types::{TypeRefusal, check};
use std::alloc::{AllocError, Global};
use std::test::Fail;

/// What is asked of a text. A refusal is told as it is.
#[derive(Clone, Copy)]
pub enum Asked {
    /// Its tokens, each with its sign and its place.
    Tokens,

    /// Its tokens, each with its letters besides.
    Letters,

    /// How many tokens it has, how many of them have the bytes of their letters, and how many are spelled as their sign is.
    Spelled,

    /// What its program is printed as.
    Program,

    /// Whether it has a program.
    Parsed,

    /// The operator that its first macro stands for, and the places of both operands.
    Operands,

    /// Whether the texts have a program in which it stands 200 and 201 times where a trace begins.
    Levels,

    /// Whether it keeps to the rules of types, where a real has two decimals.
    Types,

    /// The same where a real has none.
    RoughTypes,

    /// The same where a real has six.
    FineTypes,

    /// Its decimals, and of the typed program, as it is lent and as it is given back, how many declarations it has and the
    /// operator that its first macro stands for.
    Typed,
}

/// What is found, behind a blank.
pub fn found_of(alloc: Global, asked: Asked, text: &str) -> Result<String, Fail> {
    match asked {
        Asked::Tokens => Ok(tokens_of(alloc, text.as_bytes())?),
        Asked::Letters => letters_of(alloc, text.as_bytes()),
        Asked::Spelled => spelled_of(alloc, text.as_bytes()),
        Asked::Program => Ok(program_of(alloc, text)?),
        Asked::Parsed => Ok(parsed_of(alloc, text)?),
        Asked::Operands => operands_of(alloc, text),
        Asked::Levels => Ok(levels_of(alloc, text)?),
        Asked::Types => types_of(alloc, text, 2),
        Asked::RoughTypes => types_of(alloc, text, 0),
        Asked::FineTypes => types_of(alloc, text, 6),
        Asked::Typed => typed_of(alloc, text),
    }
}

/// The tokens of a text.
pub fn tokens_of(alloc: Global, text: &[u8]) -> Result<String, AllocError> {
    told_tokens(alloc, &lex(alloc, text))
}

// Each token behind a blank, or the refusal.
fn told_tokens(
    alloc: Global,
    answer: &Result<Vec<Lexeme<'_>>, LexRefusal>,
) -> Result<String, AllocError> {
    let mut out = String::new(alloc);
    match answer {
        Ok(tokens) => {
            for token in tokens {
                let span = token.span();
                write!(out, " {:?} {}-{}", token.sign, span.start, span.end)?;
            }
        }
        Err(refusal) => write!(out, " {refusal:?}")?,
    }
    Ok(out)
}

// The tokens of a text, with their letters.
fn letters_of(alloc: Global, text: &[u8]) -> Result<String, Fail> {
    let tokens = lex(alloc, text)?;
    let mut out = String::new(alloc);
    for token in &tokens {
        let (sign, letters, span) = (token.sign, token.text, token.span());
        write!(out, " {sign:?} {}-{} {letters}", span.start, span.end)?;
    }
    Ok(out)
}

// How many tokens a text has, and how many of them are what they are to be.
fn spelled_of(alloc: Global, text: &[u8]) -> Result<String, Fail> {
    let tokens = lex(alloc, text)?;
    let mut same = 0usize;
    let mut spelled = 0usize;
    for token in &tokens {
        let span = token.span();
        if text.get(span.start as usize..span.end as usize) == Some(token.text.as_bytes()) {
            same = same.saturating_add(1);
        }
        if token.sign.text() == token.text {
            spelled = spelled.saturating_add(1);
        }
    }
    Ok(format!(in alloc; " {} {same} {spelled}", tokens.len())?)
}

// What the program of a text is printed as, or the refusal.
fn program_of(alloc: Global, text: &str) -> Result<String, AllocError> {
    match print(alloc, text.as_bytes()) {
        Ok(printed) => format!(in alloc; " {printed}"),
        Err(refusal) => format!(in alloc; " {refusal:?}"),
    }
}

// Whether a text has a program, or the refusal.
fn parsed_of(alloc: Global, text: &str) -> Result<String, AllocError> {
    match parse(alloc, text.as_bytes()).err() {
        Some(refusal) => format!(in alloc; " {refusal:?}"),
        None => String::from_str(alloc, " Accepted"),
    }
}

// The operator of the first macro of a text.
fn operands_of(alloc: Global, text: &str) -> Result<String, Fail> {
    let program = parse(alloc, text.as_bytes())?;
    Ok(told_operands(alloc, &program)?)
}

// The operator that the first declaration stands for, where it is such a macro.
fn told_operands(alloc: Global, program: &Program) -> Result<String, AllocError> {
    if let Some(Decl::Macro(declared)) = program.decls.first()
        && let Body::Value(Expr::Binary(operator, operands, _)) = &declared.body
    {
        let (left, right) = (operands.left.span(), operands.right.span());
        return format!(in alloc;
            " {operator:?} {}-{} {}-{}",
            left.start, left.end, right.start, right.end
        );
    }
    Ok(String::new(alloc))
}

// Whether there is a program where a text stands 200 and 201 times where a trace begins.
fn levels_of(alloc: Global, opener: &str) -> Result<String, AllocError> {
    let fewer = level_of(alloc, opener, 200)?;
    let more = level_of(alloc, opener, 201)?;
    format!(in alloc; "{fewer}{more}")
}

// Whether there is a program where a text stands so many times where a trace begins.
fn level_of(alloc: Global, opener: &str, times: usize) -> Result<String, AllocError> {
    let trace = opener.repeat(alloc, times)?;
    let text = format!(in alloc; "{NODE}{trace}")?;
    parsed_of(alloc, &text)
}

// Whether a text keeps to the rules of types, where a real has so many decimals.
fn types_of(alloc: Global, text: &str, decimals: u32) -> Result<String, Fail>
    requires { decimals ≤ 6 }
{
    let program = parse(alloc, text.as_bytes())?;
    Ok(told_types(alloc, check(alloc, program, decimals).err())?)
}

// The refusal, or that there is none.
fn told_types(alloc: Global, refusal: Option<TypeRefusal>) -> Result<String, AllocError> {
    match refusal {
        Some(refusal) => format!(in alloc; " {refusal:?}"),
        None => String::from_str(alloc, " Accepted"),
    }
}

// The decimals of a typed program, and what is told of the program that it lends, and of the one that it gives back.
fn typed_of(alloc: Global, text: &str) -> Result<String, Fail> {
    let program = parse(alloc, text.as_bytes())?;
    let typed = check(alloc, program, 2)?;
    let decimals = typed.decimals();
    let lent = told_typed(alloc, typed.program())?;
    let given_back = told_typed(alloc, &typed.into_program())?;
    Ok(format!(in alloc; " {decimals}{lent}{given_back}")?)
}

// How many declarations a program has, and the operator of the first one, where it is such a macro.
fn told_typed(alloc: Global, program: &Program) -> Result<String, AllocError> {
    let operands = told_operands(alloc, program)?;
    format!(in alloc; " {}{operands}", program.decls.len())
}
