//! Expressions with ample memory, which no clause can promise, and that they are worth what the rules of numbers say.
//!
//! A row gives expressions by their constructors, with the numbers of parts or the places of variables:
//! `Int(2); Neg(0); Mul(0, 1)`. Reals are raw numbers at two decimals; the greatest size of one is 1000000000000. What is
//! wanted is a value, or a fault by its name.

ghost use Rattle.std.specs.Prelude.{◌≡◌, ◌<◌, IfOk, IsTrue, length};
ghost use Rattle.lt_formula.specs.Kinds.{Kinds};
ghost use Rattle.lt_formula.specs.Table.{fits};
ghost use Rattle.lt_formula.specs.View.{table_kinds, table_len};

use crate::rows::check;
use crate::subject::Subject;
use lt_formula::ExpNode::{
    Add, And, Div, Eq, Flag, Ge, If, Implies, Input, Int, Le, Local, Lt, Mod, Mul, Ne, Neg, Not,
    Or, Output, PreInput, PreLocal, PreOutput, Real, Sub, Xor,
};
use lt_formula::{ExpNode, Known, Role, Shape, Table, Valuation, known_value, value_under};
use lt_num::{Arith, Kind, Value};
use std::alloc::Global;
use std::test::Fail;

// Expressions over an input, an output and a local of each kind: a Boolean, an int and a real.
#[derive(Drop)]
struct Sheet {
    table: Table,
    ghost inputs: { length (table_kinds table).inputs ≡ 3 },
    ghost outputs: { length (table_kinds table).outputs ≡ 3 },
    ghost locals: { length (table_kinds table).locals ≡ 3 },
}

impl Sheet {
    fn new(alloc: Global) -> Result<Sheet, Fail> {
        let kinds = [Kind::Bool, Kind::Int, Kind::Real];
        let inputs = kinds.to_vec(alloc)?;
        let outputs = kinds.to_vec(alloc)?;
        let locals = kinds.to_vec(alloc)?;
        let table = Table::new(alloc, inputs, outputs, locals);
        Ok(Sheet { table })
    }

    // Puts an expression whose parts are there.
    fn put(&mut self, node: ExpNode) -> Result<u32, Fail>
        ensures { IfOk result (λ number. number < table_len self.new.table) }
    {
        if has_parts(node.shape(), self.table.len()) {
            Ok(self.table.push(node)?)
        } else {
            Err(Fail::new("an expression over parts that are there"))
        }
    }
}

// Whether the parts of a shape are among so many, and its variable is one of three of its role.
fn has_parts(shape: Shape, before: usize) -> bool
    ensures { IsTrue result → (kinds : Kinds) → length kinds.inputs ≡ 3 → length kinds.outputs ≡ 3 →
        length kinds.locals ≡ 3 → IsTrue (fits kinds before shape) }
{
    match shape {
        Shape::Constant(_, _) => true,
        Shape::Variable(role, place) => is_variable(role, place),
        Shape::Previous(role, place) => is_variable(role, place),
        Shape::Unary(_, part) => (part as usize) < before,
        Shape::Binary(_, left, right) => (left as usize) < before && (right as usize) < before,
        Shape::Choice(condition, first, second) => {
            (condition as usize) < before && (first as usize) < before && (second as usize) < before
        }
    }
}

// Whether there is a variable of a role at this place, where there are three of each.
fn is_variable(role: Role, place: u32) -> bool
    ensures { IsTrue result → (kinds : Kinds) → length kinds.inputs ≡ 3 → length kinds.outputs ≡ 3 →
        length kinds.locals ≡ 3 → IsTrue (fits kinds 0 (Shape.Variable role place)) }
{
    match role {
        Role::Input => place < 3,
        Role::Output => place < 3,
        Role::Local => place < 3,
    }
}

// The values at two decimals: the reals are 2.50, 1.25 and -0.75, and the output before is 0.81.
fn instant() -> Valuation<'static>
    ensures { result.decimals ≡ 2 }
{
    Valuation {
        inputs: &[Value::Bool(true), Value::Num(7), Value::Num(250)],
        outputs: &[Value::Bool(false), Value::Num(-3), Value::Num(125)],
        locals: &[Value::Bool(true), Value::Num(0), Value::Num(-75)],
        pre_inputs: &[Some(Value::Bool(false)), None, Some(Value::Num(-250))],
        pre_outputs: &[None, Some(Value::Num(4)), Some(Value::Num(81))],
        pre_locals: &[Some(Value::Bool(true)), Some(Value::Num(-9)), None],
        decimals: 2,
    }
}

// The expression over two parts that has this name.
fn over_two(name: &str, a: u32, b: u32) -> Result<ExpNode, Fail> {
    match name {
        "And" => Ok(And(a, b)),
        "Or" => Ok(Or(a, b)),
        "Xor" => Ok(Xor(a, b)),
        "Implies" => Ok(Implies(a, b)),
        "Eq" => Ok(Eq(a, b)),
        "Ne" => Ok(Ne(a, b)),
        "Lt" => Ok(Lt(a, b)),
        "Le" => Ok(Le(a, b)),
        "Ge" => Ok(Ge(a, b)),
        "Add" => Ok(Add(a, b)),
        "Sub" => Ok(Sub(a, b)),
        "Mul" => Ok(Mul(a, b)),
        "Div" => Ok(Div(a, b)),
        "Mod" => Ok(Mod(a, b)),
        _ => Err(Fail::new("an expression over two parts")),
    }
}

// The variable, or the expression over one part, that has this name.
fn over_one(name: &str, a: u32) -> Result<ExpNode, Fail> {
    match name {
        "Input" => Ok(Input(a)),
        "Output" => Ok(Output(a)),
        "Local" => Ok(Local(a)),
        "PreInput" => Ok(PreInput(a)),
        "PreOutput" => Ok(PreOutput(a)),
        "PreLocal" => Ok(PreLocal(a)),
        "Not" => Ok(Not(a)),
        "Neg" => Ok(Neg(a)),
        _ => Err(Fail::new("a variable, or an expression over one part")),
    }
}

// The choice with these three numbers.
fn choice(numbers: &str) -> Result<ExpNode, Fail> {
    let (condition, parts) = numbers.split_once(", ").ok_or("three numbers")?;
    let (first, second) = parts.split_once(", ").ok_or("three numbers")?;
    Ok(If(condition.parse()?, first.parse()?, second.parse()?))
}

// The expression that a constructor with these numbers makes.
fn made(name: &str, numbers: &str) -> Result<ExpNode, Fail> {
    match name {
        "Flag" => Ok(Flag(numbers.parse()?)),
        "Int" => Ok(Int(numbers.parse()?)),
        "Real" => Ok(Real(numbers.parse()?)),
        "If" => choice(numbers),
        _ => match numbers.split_once(", ") {
            Some((a, b)) => over_two(name, a.parse()?, b.parse()?),
            None => over_one(name, numbers.parse()?),
        },
    }
}

// The expression of a text, as `Mul(0, 1)`.
fn node_of(text: &str) -> Result<ExpNode, Fail> {
    let text = text.strip_suffix(')').ok_or("a parenthesis")?;
    let (name, numbers) = text.split_once('(').ok_or("numbers")?;
    made(name, numbers)
}

// What is known where no output and no local is.
fn known() -> Known<'static>
    ensures { result.decimals ≡ 2 }
{
    Known {
        inputs: &[Value::Bool(true), Value::Num(7), Value::Num(250)],
        pre_inputs: &[None, None, None],
        pre_outputs: &[None, Some(Value::Num(4)), None],
        pre_locals: &[None, None, Some(Value::Num(-75))],
        decimals: 2,
    }
}

/// Puts what the last of the expressions of a row is worth, each of which is new, or for each what its row asks for.
pub fn put_worth(found: &mut String, alloc: Global, given: &str) -> Result<(), Fail> {
    let (asked, nodes) = given.split_once(": ").unwrap_or(("last", given));
    put_each(found, &mut Sheet::new(alloc)?, asked, nodes)
}

// Puts the expressions into a sheet, and what each is asked for: its number and how many there are, what it is worth where no
// output is known, or else what it is worth at the instant. In the last case a new one takes the place of what was put before.
fn put_each(found: &mut String, sheet: &mut Sheet, asked: &str, nodes: &str) -> Result<(), Fail> {
    for node in nodes.split("; ") {
        let before = sheet.table.len();
        let number = sheet.put(node_of(node)?)?;
        if asked == "numbers" {
            write!(found, "{number}/{} ", sheet.table.len())?;
        } else if asked == "known" {
            put_value(found, known_value(&sheet.table, number, &known()))?;
        } else {
            if number as usize == before {
                found.clear();
            }
            put_value(found, value_under(&instant(), &sheet.table, number))?;
        }
    }
    Ok(())
}

// Puts a value or a fault, with a blank after it.
fn put_value(found: &mut String, value: Result<Value, Arith>) -> Result<(), Fail> {
    match value {
        Ok(Value::Bool(flag)) => write!(found, "{flag} ")?,
        Ok(Value::Num(raw)) => write!(found, "{raw} ")?,
        Err(fault) => write!(found, "{fault:?} ")?,
    }
    Ok(())
}

const EXPRESSIONS: &str = "
reals are rounded, and ints are cut
Real(90); Real(100); Mul(0, 1) ==> 90
Real(90); PreOutput(2); Mul(0, 1) ==> 73
Real(1); Real(50); Mul(0, 1) ==> 1
Real(-1); Real(50); Mul(0, 1) ==> -1
Real(100); Real(300); Div(0, 1) ==> 33
Real(200); Real(-300); Div(0, 1) ==> -67
Real(150); Real(25); Add(0, 1) ==> 175
Real(150); Real(25); Sub(1, 0) ==> -125
Int(7); Int(2); Div(0, 1) ==> 3
Int(-7); Int(2); Div(0, 1) ==> -3
Int(-7); Int(2); Mod(0, 1) ==> -1
Int(7); Int(-2); Mod(0, 1) ==> 1
Int(90); Int(81); Mul(0, 1) ==> 7290
Int(7); Neg(0) ==> -7

numbers past the bound overflow
Int(1000000000000) ==> 1000000000000
Int(1000000000001) ==> Overflow
Real(1000000000001) ==> Overflow
Int(1000000000000); Int(1); Add(0, 1) ==> Overflow
Int(1000000000000); Int(1); Sub(0, 1) ==> 999999999999
Int(1000000); Mul(0, 0) ==> 1000000000000
Int(1000000); Int(1000001); Mul(0, 1) ==> Overflow
Real(1000000000000); Real(99); Div(0, 1) ==> Overflow
Int(-1000000000000); Neg(0) ==> 1000000000000

the first fault from the left is the answer
Int(1); Int(0); Div(0, 1) ==> DivisionByZero
Real(1); Real(0); Div(0, 1) ==> DivisionByZero
Int(1); Int(0); Mod(0, 1) ==> DivisionByZero
PreInput(1) ==> NoPrevious
PreInput(1); Int(0); Div(1, 1); Add(0, 2) ==> NoPrevious
PreInput(1); Int(0); Div(1, 1); Add(2, 0) ==> DivisionByZero
Int(1000000000001); Int(0); Div(0, 1) ==> Overflow

what the left part settles needs no right part
Flag(false); PreOutput(0); And(0, 1) ==> false
Flag(true); PreOutput(0); And(0, 1) ==> NoPrevious
Flag(true); PreOutput(0); Or(0, 1) ==> true
Flag(false); PreOutput(0); Or(0, 1) ==> NoPrevious
Flag(false); PreOutput(0); Implies(0, 1) ==> true
Flag(true); PreOutput(0); Implies(0, 1) ==> NoPrevious
Flag(false); PreOutput(0); Xor(0, 1) ==> NoPrevious
Flag(false); PreOutput(0); And(1, 0) ==> NoPrevious
Flag(true); Int(5); PreInput(1); If(0, 1, 2) ==> 5
Flag(false); Int(5); PreInput(1); If(0, 1, 2) ==> NoPrevious

variables have their values
Input(0); Local(0); Xor(0, 1) ==> false
Output(0); Not(0) ==> true
Input(1); Output(1); Add(0, 1) ==> 4
Input(2); Output(2); Local(2); Add(0, 1); Add(3, 2) ==> 300
PreOutput(1); PreLocal(1); Lt(1, 0) ==> true
PreInput(2); Input(2); Neg(1); Eq(0, 2) ==> true
Local(1); Int(0); Ne(0, 1) ==> false
Input(1); Int(7); Le(0, 1) ==> true
Output(1); Local(1); Ge(0, 1) ==> false
PreInput(0); Flag(false); Eq(0, 1) ==> true

equal expressions have one number: each number stands before that of all that are there then
numbers: Output(1); Int(3); Lt(0, 1); Output(1); Lt(0, 1); Lt(1, 0); PreOutput(1); Real(3); Int(3) ==> 0/1 1/2 2/3 0/3 2/3 3/4 4/5 5/6 1/6

known values need no outputs
known: Input(1); PreOutput(1); Mul(0, 1); Input(2); PreLocal(2); Mul(3, 4); PreInput(0) ==> 7 4 28 250 -75 -188 NoPrevious
";

#[test]
fn expressions_are_worth_what_the_rules_say(rt: HostRuntime) -> Result<(), Fail> {
    check(&rt, rt.alloc(), &Subject::Expressions, EXPRESSIONS, 52)
}
