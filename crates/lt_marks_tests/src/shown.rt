//! Nodes as text: of a tree, and as a walk has found them. Equal nodes have equal texts.
//!
//! A constraint and a weight are shown by the number of their expression, a local by its number with the value that it had, or
//! `new`.

use lt_marks::{Reached, Walk};
use lt_num::Value;
use lt_term::{Last, TreeNode, Weight};
use std::alloc::{AllocError, Global};

/// A node of a tree.
pub fn shown_node(alloc: Global, node: &TreeNode) -> Result<String, AllocError> {
    match node {
        TreeNode::None => String::from_str(alloc, "nothing"),
        TreeNode::Vanish => String::from_str(alloc, "vanish"),
        TreeNode::Raise(exception) => format!(in alloc; "raise {exception}"),
        TreeNode::Pri => String::from_str(alloc, "ordered"),
        TreeNode::Any { weights, lasts } => shown_choice(alloc, weights, lasts),
        TreeNode::Go {
            constraints,
            lasts,
            ..
        } => shown_instant(alloc, constraints, lasts),
    }
}

/// What a walk has reached.
pub fn shown_place(alloc: Global, reached: Reached, walk: &Walk) -> Result<String, AllocError> {
    match reached {
        Reached::Nothing => String::from_str(alloc, "nothing"),
        Reached::Vanish => String::from_str(alloc, "vanish"),
        Reached::Raised(exception) => format!(in alloc; "raise {exception}"),
        Reached::Ordered => String::from_str(alloc, "ordered"),
        Reached::Weighted => shown_choice(alloc, &walk.weights, &walk.scope),
        Reached::Go => shown_instant(alloc, &walk.constraints, &walk.lasts),
    }
}

// A choice by weight.
fn shown_choice(
    alloc: Global,
    weights: &[Weight],
    lasts: &[(u32, Last)],
) -> Result<String, AllocError> {
    let mut out = String::from_str(alloc, "weighted")?;
    for weight in weights {
        put_weight(&mut out, *weight)?;
    }
    put_lasts(&mut out, lasts)?;
    Ok(out)
}

// One instant.
fn shown_instant(
    alloc: Global,
    constraints: &[u32],
    lasts: &[(u32, Last)],
) -> Result<String, AllocError> {
    let mut out = String::from_str(alloc, "go")?;
    for constraint in constraints {
        write!(out, " {constraint}")?;
    }
    put_lasts(&mut out, lasts)?;
    Ok(out)
}

// Puts a weight.
fn put_weight(out: &mut String, weight: Weight) -> Result<(), AllocError> {
    match weight {
        Weight::Exp(expression) => write!(out, " {expression}"),
        Weight::More { counter, done } => write!(out, " more of {counter} behind {done}"),
        Weight::Stop { counter, done } => write!(out, " end of {counter} behind {done}"),
    }
}

// Puts the locals in scope, each with what it was in the instant before.
fn put_lasts(out: &mut String, lasts: &[(u32, Last)]) -> Result<(), AllocError> {
    for (local, last) in lasts {
        match last {
            Last::First => write!(out, ", {local} new")?,
            Last::Kept(Value::Bool(flag)) => write!(out, ", {local} was {flag}")?,
            Last::Kept(Value::Num(raw)) => write!(out, ", {local} was {raw}")?,
        }
    }
    Ok(())
}
