//! Scenarios as text, for rows to be compared with.
//!
//! First come the name of the node, its inputs behind `<` and its outputs behind `>`, each with its raw range, which has
//! its step where that isn't 1, and its first value. Behind a colon stands the trace, with its expressions spelled out and with parentheses around all that
//! is composed. Locals, counters and exceptions follow in the order of their numbers, which count from 0. A real stands
//! in units of its last decimal: `25u` is 0.25 at two decimals.

use crate::rows::halves;
use Piece::{Alternatives, Expression, Nothing, Number, Raw, Trace, Word};
use lt_formula::{BinaryOperator, Role, Shape, UnaryOperator};
use lt_num::{Kind, Range, Value};
use lt_term::{Scenario, Term, Var};
use std::alloc::{AllocError, Global};

// What is to be written.
#[derive(Clone, Copy)]
enum Piece<'a> {
    Nothing,
    Word(&'a str),
    Number(u32),
    Raw(Kind, Value),
    Expression(u32),
    Trace(&'a Term),
    Alternatives(&'a [(u32, Term)]),
}

// A text in which each sign `@` stands for a part, in order.
struct Whole<'a>(&'static str, Piece<'a>, Piece<'a>, Piece<'a>);

// More pieces than a scenario has that is within the limits.
const MOST_PIECES: usize = 1_000_000;

/// A scenario.
pub fn shown(alloc: Global, of: &Scenario) -> Result<String, AllocError> {
    let mut out = String::from_str(alloc, &of.name)?;
    put_scenario(alloc, &mut out, of)?;
    Ok(out)
}

// A scenario behind the name of its node.
fn put_scenario(alloc: Global, out: &mut String, of: &Scenario) -> Result<(), AllocError> {
    put_variables(out, " < ", &of.inputs)?;
    put_variables(out, " > ", &of.outputs)?;
    out.push_str(": ")?;
    put_trace(alloc, out, of)?;
    put_variables(out, "; ", &of.locals)?;
    put_numbered(out, of)
}

// Counters and exceptions.
fn put_numbered(out: &mut String, of: &Scenario) -> Result<(), AllocError> {
    for counter in &of.counters {
        write!(out, "; {} to {}", counter.least, counter.most)?;
    }
    for exception in &of.exceptions {
        write!(out, "; {exception}")?;
    }
    Ok(())
}

// Variables, each behind a text.
fn put_variables(out: &mut String, before: &str, variables: &[Var]) -> Result<(), AllocError> {
    for variable in variables {
        out.push_str(before)?;
        put_variable(out, variable)?;
    }
    Ok(())
}

// A variable, with its raw range and its first value, where it has one.
fn put_variable(out: &mut String, variable: &Var) -> Result<(), AllocError> {
    let kind = kind_word(variable.kind);
    write!(out, "{}: {kind} ", variable.name)?;
    put_range(out, variable.range)?;
    match variable.first {
        Some(first) => {
            out.push_str(" = ")?;
            put_value(out, variable.kind, first)
        }
        None => Ok(()),
    }
}

// A range, with its step where that isn't 1.
fn put_range(out: &mut String, range: Range) -> Result<(), AllocError> {
    let (low, high, step) = (range.low, range.high, range.step);
    if step == 1 {
        write!(out, "[{low};{high}]")
    } else {
        write!(out, "[{low};{high};{step}]")
    }
}

// The word of a kind.
fn kind_word(kind: Kind) -> &'static str {
    match kind {
        Kind::Bool => "bool",
        Kind::Int => "int",
        Kind::Real => "real",
    }
}

// A value of a kind.
fn put_value(out: &mut String, kind: Kind, value: Value) -> Result<(), AllocError> {
    match (value, kind) {
        (Value::Bool(flag), _) => write!(out, "{flag}"),
        (Value::Num(raw), Kind::Real) => write!(out, "{raw}u"),
        (Value::Num(raw), _) => write!(out, "{raw}"),
    }
}

// What a scenario does. The pieces that are still to be written wait in a list, the next one last.
fn put_trace(alloc: Global, out: &mut String, of: &Scenario) -> Result<(), AllocError> {
    let mut waiting = vec![in alloc; Trace(&of.body)]?;
    put_waiting(out, &mut waiting, of)
}

// Writes what waits.
fn put_waiting<'a>(
    out: &mut String,
    waiting: &mut Vec<Piece<'a>>,
    of: &'a Scenario,
) -> Result<(), AllocError> {
    for _ in 0..MOST_PIECES {
        let Some(piece) = waiting.pop() else {
            return Ok(());
        };
        put_piece(out, waiting, of, piece)?;
    }
    out.push_str(" ..")
}

// Writes a piece, or puts what it is composed of before what waits.
fn put_piece<'a>(
    out: &mut String,
    waiting: &mut Vec<Piece<'a>>,
    of: &'a Scenario,
    piece: Piece<'a>,
) -> Result<(), AllocError> {
    match piece {
        Nothing => Ok(()),
        Word(word) => out.push_str(word),
        Number(number) => write!(out, "{number}"),
        Raw(kind, value) => put_value(out, kind, value),
        Expression(number) => wait_for(waiting, expression(of, number)),
        Trace(term) => wait_for(waiting, trace(term)),
        Alternatives(parts) => wait_for(waiting, alternatives(parts)),
    }
}

// Puts what a piece is composed of before what waits.
fn wait_for<'a>(waiting: &mut Vec<Piece<'a>>, whole: Whole<'a>) -> Result<(), AllocError> {
    let Whole(text, a, b, c) = whole;
    let (before, rest) = halves(text, "@");
    let (between, rest) = halves(rest, "@");
    let (also, behind) = halves(rest, "@");
    let pieces = [
        Word(behind),
        c,
        Word(also),
        b,
        Word(between),
        a,
        Word(before),
    ];
    waiting.extend_from_slice(&pieces)
}

// A trace.
fn trace(term: &Term) -> Whole<'_> {
    match term {
        Term::Eps => Whole("eps", Nothing, Nothing, Nothing),
        Term::Dead => Whole("dead", Nothing, Nothing, Nothing),
        Term::Con(constraint) => Whole("@", Expression(*constraint), Nothing, Nothing),
        Term::Raise(exception) => Whole("raise @", Number(*exception), Nothing, Nothing),
        Term::Seq(a, b) => Whole("(@ fby @)", Trace(a), Trace(b), Nothing),
        Term::Pri(a, b) => Whole("(@ |> @)", Trace(a), Trace(b), Nothing),
        Term::Par(a, b) => Whole("(@ &> @)", Trace(a), Trace(b), Nothing),
        Term::Loop(body) => Whole("(loop @)", Trace(body), Nothing, Nothing),
        Term::Count { counter, body, .. } => {
            Whole("(count @: @)", Number(*counter), Trace(body), Nothing)
        }
        Term::Any(parts) => Whole("{@}", Alternatives(parts), Nothing, Nothing),
        Term::Assert(constraint, body) => {
            Whole(
                "(assert @ in @)",
                Expression(*constraint),
                Trace(body),
                Nothing,
            )
        }
        Term::Exist { local, body, .. } => {
            Whole("(exist @ in @)", Number(*local), Trace(body), Nothing)
        }
        Term::Catch {
            exception,
            body,
            otherwise,
        } => Whole(
            "(catch @ in @ do @)",
            Number(*exception),
            Trace(body),
            Trace(otherwise),
        ),
        Term::Try { body, otherwise } => {
            Whole("(try @ do @)", Trace(body), Trace(otherwise), Nothing)
        }
    }
}

// Alternatives, each behind its weight.
fn alternatives(parts: &[(u32, Term)]) -> Whole<'_> {
    match parts.split_first() {
        None => Whole("", Nothing, Nothing, Nothing),
        Some(((weight, part), more)) => {
            Whole(
                "|@: @@",
                Expression(*weight),
                Trace(part),
                Alternatives(more),
            )
        }
    }
}

// An expression; `?` stands for one that isn't there.
fn expression(of: &Scenario, number: u32) -> Whole<'_> {
    if number as usize >= of.table.len() {
        return Whole("?", Nothing, Nothing, Nothing);
    }
    match of.table.shape(number) {
        Shape::Constant(kind, value) => Whole("@", Raw(kind, value), Nothing, Nothing),
        Shape::Variable(role, place) => {
            Whole("@", Word(name_of(of, role, place)), Nothing, Nothing)
        }
        Shape::Previous(role, place) => {
            Whole("pre @", Word(name_of(of, role, place)), Nothing, Nothing)
        }
        Shape::Unary(operator, a) => Whole(unary(operator), Expression(a), Nothing, Nothing),
        Shape::Binary(operator, a, b) => {
            Whole(binary(operator), Expression(a), Expression(b), Nothing)
        }
        Shape::Choice(a, b, c) => {
            Whole(
                "(if @ then @ else @)",
                Expression(a),
                Expression(b),
                Expression(c),
            )
        }
    }
}

// The name of a variable.
fn name_of(of: &Scenario, role: Role, place: u32) -> &str {
    let among = match role {
        Role::Input => &of.inputs,
        Role::Output => &of.outputs,
        Role::Local => &of.locals,
    };
    match among.get(place as usize) {
        Some(variable) => &variable.name,
        None => "?",
    }
}

// An operator on one part.
fn unary(operator: UnaryOperator) -> &'static str {
    match operator {
        UnaryOperator::Not => "(not @)",
        UnaryOperator::Neg => "(- @)",
    }
}

// An operator on two parts.
fn binary(operator: BinaryOperator) -> &'static str {
    match operator {
        BinaryOperator::And => "(@ and @)",
        BinaryOperator::Or => "(@ or @)",
        BinaryOperator::Xor => "(@ xor @)",
        BinaryOperator::Implies => "(@ => @)",
        BinaryOperator::Eq => "(@ = @)",
        BinaryOperator::Ne => "(@ <> @)",
        BinaryOperator::Lt => "(@ < @)",
        BinaryOperator::Le => "(@ <= @)",
        BinaryOperator::Gt => "(@ > @)",
        BinaryOperator::Ge => "(@ >= @)",
        BinaryOperator::Add => "(@ + @)",
        BinaryOperator::Sub => "(@ - @)",
        BinaryOperator::Mul => "(@ * @)",
        BinaryOperator::Div => "(@ / @)",
        BinaryOperator::Mod => "(@ mod @)",
    }
}
