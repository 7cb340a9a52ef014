//! Runs through bodies, step by step: what the term offers, and where and how large it is, the marks offer as well.

ghost use Rattle.std.specs.Prelude.{OnOk};
ghost use Rattle.lt_marks_tests.specs.Runs.{IsRun};

use crate::bodies::scenario_from;
use crate::numbers::Numbers;
use crate::paths::{nodes_in, part_count, path_into, paths_of};
use crate::run::{MOST_STEPS, Run};
use crate::shown::shown_node;
use lt_num::Value;
use lt_term::{Scenario, Tree, TreeNode};
use std::alloc::{AllocError, Global};
use std::process::Abort;
use std::test::Fail;

// How many bodies there are.
const BODIES: u64 = 600;

// No tree is gone through that has more nodes.
const MOST_NODES: u64 = 300;

/// A tree with the path of each of its nodes.
#[derive(Drop)]
pub(crate) struct Charted {
    pub(crate) tree: Tree,
    pub(crate) paths: Vec<Vec<u32>>,
}

// That a node stands at a path by the marks.
fn check_place(
    rt: &impl Abort,
    alloc: Global,
    scenario: &Scenario,
    run: &mut Run,
    path: &[u32],
    due: &str,
) -> Result<(), Fail>
    requires { IsRun run.old }
    ensures { IsRun run.new }
{
    let found = run.found_at(alloc, scenario, path)?;
    assert!(rt; found.as_str() == due, "{found} in place of {due}");
    Ok(())
}

// That as many nodes stand before each part of a choice as the tree has there.
fn check_parts(
    rt: &impl Abort,
    scenario: &Scenario,
    run: &mut Run,
    charted: &Charted,
    choice: &[u32],
    parts: u32,
) -> Result<(), Fail>
    requires { IsRun run.old }
    ensures { IsRun run.new }
{
    for part in 0..parts {
        let found = run.nodes_before(scenario, choice, part);
        assert_eq!(rt; found, nodes_in(&charted.paths, choice, part));
    }
    Ok(())
}

/// That each node of the tree stands at its path by the marks, and nothing behind the parts of a choice by weight.
pub(crate) fn check_nodes(
    rt: &impl Abort,
    alloc: Global,
    scenario: &Scenario,
    run: &mut Run,
    charted: &Charted,
) -> Result<(), Fail>
    requires { IsRun run.old }
    ensures { IsRun run.new }
{
    for (node, path) in charted.tree.nodes.iter().zip(charted.paths.iter()) {
        let due = shown_node(alloc, node)?;
        check_place(rt, alloc, scenario, run, path, &due)?;
        let parts = part_count(node);
        if parts > 0 {
            check_parts(rt, scenario, run, charted, path, parts)?;
        }
        if let TreeNode::Any { .. } = node {
            let behind = path_into(alloc, path, parts)?;
            check_place(rt, alloc, scenario, run, &behind, "nothing")?;
        }
    }
    Ok(())
}

// Where the instants of a tree stand among its nodes.
fn instants_of(alloc: Global, tree: &Tree) -> Result<Vec<usize>, AllocError> {
    let mut places = Vec::new(alloc);
    for (place, node) in tree.nodes.iter().enumerate() {
        if let TreeNode::Go { .. } = node {
            places.push(place)?;
        }
    }
    Ok(places)
}

// A value for each local in scope of an instant.
fn values_for(
    alloc: Global,
    numbers: &mut Numbers,
    tree: &Tree,
    place: usize,
) -> Result<Vec<(u32, Value)>, AllocError> {
    let mut values = Vec::new(alloc);
    if let Some(TreeNode::Go { lasts, .. }) = tree.nodes.get(place) {
        for (local, _) in lasts {
            values.push((*local, Value::Num(numbers.below(1000) as i64)))?;
        }
    }
    Ok(values)
}

// Takes one of the instants, if there is one.
fn go_on_in(
    alloc: Global,
    scenario: &Scenario,
    run: &mut Run,
    numbers: &mut Numbers,
    charted: &Charted,
) -> Result<bool, Fail>
    requires { IsRun run.old }
    ensures { OnOk result (IsRun run.new) }
{
    let instants = instants_of(alloc, &charted.tree)?;
    let count = instants.len() as u64;
    if count == 0 {
        return Ok(false);
    }
    let drawn = numbers.below(count) as usize;
    let (Some(place), Some(path)) = (instants.get(drawn), path_at(charted, &instants, drawn)) else {
        return Ok(false);
    };
    let values = values_for(alloc, numbers, &charted.tree, *place)?;
    run.go_behind(alloc, scenario, *place, path, &values)?;
    Ok(true)
}

// The path of an instant.
fn path_at<'a>(charted: &'a Charted, instants: &[usize], drawn: usize) -> Option<&'a Vec<u32>> {
    charted.paths.get(*instants.get(drawn)?)
}

// Compares what is offered, and takes an instant, if there is one and the tree is small enough.
fn check_step(
    rt: &impl Abort,
    alloc: Global,
    scenario: &Scenario,
    run: &mut Run,
    numbers: &mut Numbers,
) -> Result<bool, Fail>
    requires { IsRun run.old }
    ensures { OnOk result (IsRun run.new) }
{
    let count = lt_term::size(alloc, &run.term)?;
    assert_eq!(rt; u64::from(lt_marks::size(&run.track)), count);
    if count > MOST_NODES {
        return Ok(false);
    }
    let tree = run.tree(alloc, scenario)?;
    assert_eq!(rt; tree.nodes.len() as u64, count);
    let paths = paths_of(alloc, &tree.nodes)?;
    let charted = Charted { tree, paths };
    check_nodes(rt, alloc, scenario, run, &charted)?;
    go_on_in(alloc, scenario, run, numbers, &charted)
}

// Goes through the body of a number, and answers how many steps that took.
fn check_body(rt: &impl Abort, alloc: Global, number: u64) -> Result<u64, Fail> {
    let scenario = scenario_from(alloc, number)?;
    let mut run = Run::make(alloc, &scenario)?;
    let mut numbers = Numbers { state: number };
    for step in 0..MOST_STEPS {
        if !check_step(rt, alloc, &scenario, &mut run, &mut numbers)? {
            return Ok(step);
        }
    }
    Ok(MOST_STEPS)
}

#[test]
fn marks_offer_what_terms_offer(rt: HostRuntime) -> Result<(), Fail> {
    let mut steps = 0u64;
    for number in 0..BODIES {
        steps = steps.saturating_add(check_body(&rt, rt.alloc(), number)?);
    }
    assert!(rt; steps > 3000, "{steps} steps");
    Ok(())
}
