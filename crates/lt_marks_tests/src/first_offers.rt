//! Bodies, each with what it offers in its first instant, worked out by hand: the nodes of the tree, each before those below it.
//!
//! Expressions have their numbers in the order of the text, each behind its parts: the output `i` has the first one, unless a
//! weight stands before it.

use crate::bodies::scenario_with;
use crate::paths::paths_of;
use crate::run::Run;
use crate::runs::{Charted, check_nodes};
use crate::shown::shown_node;
use lt_term::Tree;
use std::alloc::{AllocError, Global};
use std::process::Abort;
use std::test::Fail;

const ROWS: &str = "\
{ | #: { i < # &> exist x: int in i < # } | #: catch e in raise e do { i < # |> raise f } } \
==> weighted 0 6; go 3 5, 0 new; ordered; go 8; raise 1
{ try loop [1, 2] { i < # fby i < # } } fby i < # \
==> ordered; weighted more of 0 behind 0 end of 0 behind 0; go 2; go 6; go 6
exist x: int in assert i < # in { | #: loop x < # | #: raise Deadlock } \
==> weighted 3 7, 0 new; ordered; go 2 6, 0 new; vanish; nothing";

// The nodes of a tree.
fn shown_tree(alloc: Global, tree: &Tree) -> Result<String, AllocError> {
    let mut out = String::new(alloc);
    for node in &tree.nodes {
        if !out.is_empty() {
            out.push_str("; ")?;
        }
        out.push_str(&shown_node(alloc, node)?)?;
    }
    Ok(out)
}

// That the body of a row offers what the row says, by its term and by its marks.
fn check_row(rt: &impl Abort, alloc: Global, row: &str) -> Result<(), Fail> {
    let (body, due) = row.split_once(" ==> ").ok_or("no answer")?;
    let scenario = scenario_with(alloc, body)?;
    let mut run = Run::make(alloc, &scenario)?;
    let tree = run.tree(alloc, &scenario)?;
    let shown = shown_tree(alloc, &tree)?;
    assert!(rt; shown.as_str() == due, "{shown}\nin {row}");
    let paths = paths_of(alloc, &tree.nodes)?;
    let charted = Charted { tree, paths };
    check_nodes(rt, alloc, &scenario, &mut run, &charted)
}

#[test]
fn bodies_offer_what_is_worked_out_by_hand(rt: HostRuntime) -> Result<(), Fail> {
    for row in ROWS.lines() {
        check_row(&rt, rt.alloc(), row)?;
    }
    Ok(())
}
