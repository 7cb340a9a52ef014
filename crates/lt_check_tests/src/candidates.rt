//! What a scenario can have left to do after the steps of a trace.
//!
//! After its first step a choice of 64 alternatives has one of 64 constraints left, and two such choices side by side have
//! one of 4,096 pairs of them.

use crate::rows::check_rows;
use std::alloc::{AllocError, Global};
use std::test::Fail;

// The beginning of a trace of two numbers, up to the values of its first step.
const HEADER: &str = "> #seed 0/#inputs \"x\":int \"y\":int/#outputs/#locals/#step 1";

// 64 alternatives of a choice: each of them takes any step, and then has its own constraint left.
fn alternatives(alloc: Global, variable: &str) -> Result<String, AllocError> {
    let mut text = String::new(alloc);
    for number in 0..64u32 {
        write!(text, "| true fby {variable} = {number} ")?;
    }
    Ok(text)
}

// Two such choices side by side.
fn pairs(alloc: Global) -> Result<String, AllocError> {
    let xs = alternatives(alloc, "x")?;
    let ys = alternatives(alloc, "y")?;
    format!(in alloc; "{{ &> {{ {xs}}} &> {{ {ys}}} }}")
}

#[test]
fn candidates_are_followed_up_to_4096(rt: HostRuntime) -> Result<(), Fail> {
    let pairs = pairs(rt.alloc())?;
    let table = format!(in rt.alloc();
        "f node n() returns (x, y: int [0;63]) = {pairs}
{HEADER}/0 0 #outs #locs/#step 2/5 9 #outs #locs/#end normal 2
= legal"
    )?;
    check_rows(&rt, 1, &table)
}

#[test]
fn one_candidate_more_is_too_many(rt: HostRuntime) -> Result<(), Fail> {
    let pairs = pairs(rt.alloc())?;
    let table = format!(in rt.alloc();
        "f node n() returns (x, y: int [0;63]) = {{ | {pairs} | true fby x = y }}
{HEADER}/0 0 #outs #locs/#step 2/5 9 #outs #locs/#end normal 2
= candidates 1

-- Nothing is said of what comes after it: no candidate has a fault.
f node n() returns (x, y: int [0;63]) = {{ | {pairs} | true fby x = y }}
{HEADER}/0 0 #outs #locs/#step 2/5 9 #outs #locs/#end fault Overflow 3
= candidates 1

-- But a step before it that nothing makes is told.
f node n() returns (x, y: int [0;63]) = x = 1 fby {{ | {pairs} | true fby x = y }}
{HEADER}/0 0 #outs #locs/#step 2/5 9 #outs #locs/#end limit 2
= illegal 1"
    )?;
    check_rows(&rt, 3, &table)
}

#[test]
fn equal_constraints_of_two_places_are_one_candidate(rt: HostRuntime) -> Result<(), Fail> {
    let pairs = pairs(rt.alloc())?;
    let table = format!(in rt.alloc();
        "-- Each of the two alternatives has the same 4,096 pairs left.
f node n() returns (x, y: int [0;63]) = {{ | {pairs} | {pairs} }}
{HEADER}/0 0 #outs #locs/#step 2/5 9 #outs #locs/#end normal 2
= legal

-- Whatever was drawn in the first step, all of the 8,192 leaves have the same left to do.
f node n() returns (x, y: int [0;63]) = {{ | {{ &> {{ <<64 times | true fby x = 1 >>}} &> {{ <<64 times | true fby y = 1 >>}} }} | {{ &> {{ <<64 times | true fby x = 1 >>}} &> {{ <<64 times | true fby y = 1 >>}} }} }}
{HEADER}/0 0 #outs #locs/#step 2/1 1 #outs #locs/#end normal 2
= legal"
    )?;
    check_rows(&rt, 2, &table)
}

#[test]
fn a_later_step_leaves_fewer(rt: HostRuntime) -> Result<(), Fail> {
    check_rows(
        &rt,
        3,
        r#"
## which of them are left depends on each step
f node n() returns (x: int [0;9]) = { | x = 1 fby x = 2 fby x = 3 | x = 1 fby x < 5 fby x = 4 | x > 0 fby x = 2 fby x = 5 }
> #seed 0/#inputs "x":int/#outputs/#locals

> #step 1/1 #outs #locs/#step 2/2 #outs #locs/#step 3/4 #outs #locs/#end normal 3
= legal

> #step 1/1 #outs #locs/#step 2/4 #outs #locs/#step 3/4 #outs #locs/#end normal 3
= legal

> #step 1/1 #outs #locs/#step 2/4 #outs #locs/#step 3/5 #outs #locs/#end normal 3
= illegal 3
"#,
    )
}
