//! What is found of a text.

ghost use Rattle.std.specs.Prelude.{◌≤◌};
ghost use Rattle.lt_num.specs.Bounds.{most_decimals};

use crate::shown::shown;
use lt_expand::{ExpandRefusal, expand};
use lt_macros::{Expanded, Node, expanded_node};
use lt_parser::parse;
use lt_term::Scenario;
use lt_types::{Typed, check};
use std::alloc::{AllocError, Global};
use std::test::Fail;

/// What is asked of a text. It may end with ` asked for ` and the name of a node, and else its first node is asked for. A
/// refusal is told as it is.
#[derive(Clone, Copy)]
pub enum Asked {
    /// The scenario, where a real has two decimals.
    Scenario,

    /// The same where a real has none.
    RoughScenario,

    /// The same where a real has six.
    FineScenario,

    /// Whether there is one.
    Answer,

    /// How many expressions it has that differ.
    Count,

    /// The place of what the node holds in an instant, before it is a scenario.
    Place,
}

/// What is found.
pub fn found_of(alloc: Global, asked: Asked, text: &str) -> Result<String, Fail> {
    let (text, name) = match text.split_once(" asked for ") {
        Some((text, name)) => (text, Some(name)),
        None => (text, None),
    };
    match asked {
        Asked::RoughScenario => answer_of(alloc, asked, text, name, 0),
        Asked::FineScenario => answer_of(alloc, asked, text, name, 6),
        Asked::Place => place_of(alloc, text, name),
        _ => answer_of(alloc, asked, text, name, 2),
    }
}

// What is found of the scenario of a node.
fn answer_of(
    alloc: Global,
    asked: Asked,
    text: &str,
    name: Option<&str>,
    decimals: u32,
) -> Result<String, Fail>
    requires { decimals ≤ most_decimals }
{
    told(alloc, asked, &expanded(alloc, text, name, decimals)?)
}

// The scenario of a node of a well typed text, or why there is none.
fn expanded(
    alloc: Global,
    text: &str,
    name: Option<&str>,
    decimals: u32,
) -> Result<Result<Scenario, ExpandRefusal>, Fail>
    requires { decimals ≤ most_decimals }
{
    let typed = typed_of(alloc, text, decimals)?;
    Ok(expand(alloc, typed, name))
}

// The program of a well typed text.
fn typed_of(alloc: Global, text: &str, decimals: u32) -> Result<Typed, Fail>
    requires { decimals ≤ most_decimals }
{
    let program = parse(alloc, text.as_bytes())?;
    Ok(check(alloc, program, decimals)?)
}

// A scenario, or the refusal.
fn told(
    alloc: Global,
    asked: Asked,
    answer: &Result<Scenario, ExpandRefusal>,
) -> Result<String, Fail> {
    match answer {
        Ok(scenario) => Ok(told_scenario(alloc, asked, scenario)?),
        Err(refusal) => Ok(format!(in alloc; "{refusal:?}")?),
    }
}

// What is asked of a scenario.
fn told_scenario(alloc: Global, asked: Asked, of: &Scenario) -> Result<String, AllocError> {
    match asked {
        Asked::Answer => String::from_str(alloc, "Accepted"),
        Asked::Count => format!(in alloc; "{}", of.table.len()),
        _ => shown(alloc, of),
    }
}

// The place of what a node holds in an instant.
fn place_of(alloc: Global, text: &str, name: Option<&str>) -> Result<String, Fail> {
    let node = node_of(alloc, text, name)?;
    told_place(alloc, &node.body)
}

// The tree of a node.
fn node_of(alloc: Global, text: &str, name: Option<&str>) -> Result<Node, Fail> {
    let typed = typed_of(alloc, text, 2)?;
    Ok(expanded_node(alloc, &typed, name)?)
}

// The place of what a trace holds in an instant; nothing where it stands for something else.
fn told_place(alloc: Global, body: &Expanded) -> Result<String, Fail> {
    match body {
        Expanded::Con(constraint) => {
            let place = constraint.place();
            Ok(format!(in alloc; "{}-{}", place.start, place.end)?)
        }
        _ => Ok(String::new(alloc)),
    }
}
