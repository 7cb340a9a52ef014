//! Bodies of scenarios, made from numbers.
//!
//! A body grows from one hole. In each round every hole is filled with a construct, whose parts are holes, or now and then with
//! one that has no parts; and at last each hole that is left with one of those. A constraint or a weight has a number that
//! no other one has, so that all of them can be told apart.

ghost use Rattle.std.specs.Prelude.{◌≤◌};

use crate::numbers::Numbers;
use lt_frontend::scenario_of;
use lt_term::Scenario;
use std::alloc::{AllocError, Global};
use std::test::Fail;

// What stands before a body.
const HEAD: &str = "exception e, f node n() returns (i: int) = ";

// Constructs. A hole stands at the sign `@`, and a number of its own at the sign `#`.
const CONSTRUCTS: [&str; 19] = [
    "{ @ fby @ }",
    "{ i < # fby @ }",
    "{ loop @ }",
    "{ loop { i < # fby @ } }",
    "{ loop [0, 2] @ }",
    "{ loop [1, 3] { i < # fby @ } }",
    "{ | #: @ | #: @ }",
    "{ | @ | #: @ | #: @ }",
    "{ @ |> @ }",
    "{ @ &> @ }",
    "{ @ &> { i < # fby @ } }",
    "{ assert i < # in @ }",
    "{ exist x: int in @ }",
    "{ exist x: int in { x < # fby @ } }",
    "{ catch e in @ do @ }",
    "{ catch f in @ do @ }",
    "{ catch f in @ }",
    "{ try @ do @ }",
    "{ try @ }",
];

// Constructs without parts.
const LEAVES: [&str; 6] = [
    "i < #",
    "i < #",
    "i < #",
    "raise e",
    "raise f",
    "raise Deadlock",
];

/// The scenario of a number.
pub(crate) fn scenario_from(alloc: Global, number: u64) -> Result<Scenario, Fail> {
    let mut numbers = Numbers { state: number };
    let rounds = 2 + numbers.below(3);
    let mut body = String::from_str(alloc, "@")?;
    for _ in 0..rounds {
        body = filled(alloc, &mut numbers, &body, 4)?;
    }
    let body = filled(alloc, &mut numbers, &body, 1)?;
    scenario_with(alloc, &body)
}

/// The scenario of a body, in which each sign `#` stands for another number.
pub(crate) fn scenario_with(alloc: Global, body: &str) -> Result<Scenario, Fail> {
    let mut text = String::from_str(alloc, HEAD)?;
    put_numbered(&mut text, body)?;
    Ok(scenario_of(alloc, text.as_bytes(), 2, None)?)
}

// A body with its holes filled, one of so many with a construct that has no parts.
fn filled(
    alloc: Global,
    numbers: &mut Numbers,
    body: &str,
    one_of: u64,
) -> Result<String, AllocError>
    requires { 1 ≤ one_of }
{
    let mut out = String::new(alloc);
    for sign in body.chars() {
        if sign == '@' {
            out.push_str(filling(numbers, one_of))?;
        } else {
            out.push(sign)?;
        }
    }
    Ok(out)
}

// What a hole is filled with.
fn filling(numbers: &mut Numbers, one_of: u64) -> &'static str
    requires { 1 ≤ one_of }
{
    if numbers.below(one_of) == 0 {
        LEAVES[numbers.below(6) as usize]
    } else {
        CONSTRUCTS[numbers.below(19) as usize]
    }
}

// Puts a body with its numbers, which count from 1.
fn put_numbered(out: &mut String, body: &str) -> Result<(), AllocError> {
    let mut number = 0u32;
    for sign in body.chars() {
        if sign == '#' {
            number = number.saturating_add(1);
            write!(out, "{number}")?;
        } else {
            out.push(sign)?;
        }
    }
    Ok(())
}
