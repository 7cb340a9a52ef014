//! Paths in a tree, read off the flat list of its nodes.

use lt_term::TreeNode;
use std::alloc::{AllocError, Global};

// A choice that is gone through: how many parts it has, and in which one the next node stands.
#[derive(Clone, Copy)]
struct Open {
    part: u32,
    parts: u32,
}

/// How many parts a node has.
pub(crate) fn part_count(node: &TreeNode) -> u32 {
    match node {
        TreeNode::Pri => 2,
        TreeNode::Any { weights, .. } => u32::try_from(weights.len()).unwrap_or(u32::MAX),
        _ => 0,
    }
}

/// The path of each node.
pub(crate) fn paths_of(alloc: Global, nodes: &[TreeNode]) -> Result<Vec<Vec<u32>>, AllocError> {
    let mut paths = Vec::new(alloc);
    let mut open = Vec::new(alloc);
    for node in nodes {
        paths.push(path_through(alloc, &open)?)?;
        match part_count(node) {
            0 => leave(&mut open)?,
            parts => open.push(Open { part: 0, parts })?,
        }
    }
    Ok(paths)
}

// The path to the next node.
fn path_through(alloc: Global, open: &[Open]) -> Result<Vec<u32>, AllocError> {
    let mut path = Vec::new(alloc);
    for choice in open {
        path.push(choice.part)?;
    }
    Ok(path)
}

// Goes on behind a leaf: into the next part of the innermost choice that has one.
fn leave(open: &mut Vec<Open>) -> Result<(), AllocError> {
    for _ in 0..open.len() {
        let Some(choice) = open.pop() else {
            return Ok(());
        };
        let part = choice.part.saturating_add(1);
        if part < choice.parts {
            let parts = choice.parts;
            open.push(Open { part, parts })?;
            return Ok(());
        }
    }
    Ok(())
}

/// How many nodes stand in so many parts of a choice, by the paths of all nodes.
pub(crate) fn nodes_in(paths: &[Vec<u32>], choice: &[u32], parts: u32) -> u32 {
    let mut count = 0u32;
    for path in paths {
        if is_in(path, choice, parts) {
            count = count.saturating_add(1);
        }
    }
    count
}

// Whether a path leads into one of so many parts of a choice.
fn is_in(path: &[u32], choice: &[u32], parts: u32) -> bool {
    match path.strip_prefix(choice) {
        Some([part, ..]) => *part < parts,
        _ => false,
    }
}

/// A path into a part of a choice.
pub(crate) fn path_into(alloc: Global, choice: &[u32], part: u32) -> Result<Vec<u32>, AllocError> {
    let mut path = Vec::with_capacity(alloc, choice.len().saturating_add(1))?;
    path.extend_from_slice(choice)?;
    path.push(part)?;
    Ok(path)
}
