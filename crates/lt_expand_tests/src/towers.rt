//! Texts that are short for what they name: each answers at once.
//!
//! A row has macros, each over the one before: what stands behind the name of each and before its `=`, the meaning of the
//! first, that of each further one, in which `#` stands for the name of the one before, and a trace, in which it stands
//! for the name of the last.

use crate::found::Asked;
use crate::rows::{NODE, check_row, halves};
use std::alloc::{AllocError, Global};
use std::process::Abort;
use std::test::Fail;

// That what is asked of each tower, with so many macros above the first, has this answer, and behind it what its row says.
fn check_towers(
    rt: &impl Abort,
    alloc: Global,
    asked: Asked,
    levels: usize,
    answer: &str,
    towers: &str,
) -> Result<(), Fail> {
    for tower in towers.lines() {
        if !tower.starts_with("--") {
            let row = row_of(alloc, levels, answer, tower)?;
            check_row(rt, alloc, asked, &row)?;
        }
    }
    Ok(())
}

// The row of a tower.
fn row_of(alloc: Global, levels: usize, answer: &str, tower: &str) -> Result<String, AllocError> {
    let (node, _) = halves(NODE, " ==> ");
    let (tower, meaning) = halves(tower, " ==> ");
    let (head, rest) = halves(tower, " = ");
    let (first, rest) = halves(rest, ", then ");
    let (next, body) = halves(rest, ", in ");
    format!(in alloc;
        "let d0{head} = {first} <<{levels} times let %{head} = {next} >>{node}{body} ==> {answer}{meaning}"
    )
}

const HANDING: &str = "\
(a: bool): bool = a, then #(#(a)), in #(b) ==> b
(a: bool): bool = a, then (#((#((a))))), in #(not b) ==> (not b)
(a: bool ref): bool = a, then #(a), in #(b) ==> b
(t: trace): trace = t, then #(#(t)), in #({ b fby c }) ==> (b fby c)
(t: trace): trace = { t }, then { #({ #({ t }) }) }, in #(b) ==> b
(t: trace): trace = (t), then (#((#((t))))), in #(b) ==> b
-- Under a macro, an exception, and both in braces.
(t: trace): trace = t, then let g(x: bool): bool = x in #(#(t)), in #(b) ==> b
(t: trace): trace = t, then { let g(x: bool): bool = x in #(#(t)) }, in #(b) ==> b
(t: trace): trace = exception z in t, then exception z in #(#(t)), in #(b) ==> b
(t: trace): trace = { exception z in t }, then { exception z in { let g: bool = true in (#(#({ t }))) } }, in #(b) ==> b
-- From a parameter of the macro around.
(t: trace): trace = t, then let g(s: trace): trace = #(#(t)) in g(t), in #(b) ==> b
(t: trace): trace = t, then let g(s: trace): trace = #(#(s)) in g(g(t)), in #(b) ==> b
(t: trace): trace = t, then let g: trace = #(#(t)) in let h(s: trace): trace = { s } in h(g), in #(b) ==> b
-- One of several parameters, and arguments that aren't used.
(a, c: bool): bool = a, then #(a, #(c, c)), in #(b, c) ==> b
(a, c: bool): bool = a, then #(#(c, a), #(a, c)), in #(b, c) ==> c
(s, t: trace): trace = t, then #({ s fby #(t, s) }, #(s, t)), in #(b, c) ==> c
(a: bool): bool = true, then #(a and #(a)), in #(b) ==> true
: trace = true, then { # fby # }, in b ==> b";

// The same of as many macros as a text may have.
const CHAINS: &str = "\
: bool = true, then #, in # and d0 and d5000 ==> ((true and true) and true)
(t: trace): trace = t, then #(t), in #(b) fby d5000(c) ==> (b fby c)";

#[test]
fn macros_that_hand_a_parameter_on_cost_nothing(rt: HostRuntime) -> Result<(), Fail> {
    let (_, shown) = halves(NODE, " ==> ");
    check_towers(&rt, rt.alloc(), Asked::Scenario, 90, shown, HANDING)?;
    check_towers(&rt, rt.alloc(), Asked::Scenario, 10_000, shown, CHAINS)
}

// One deeper at each level.
const DEEP_EXPRESSIONS: &str = "\
(a: bool): bool = a, then not #(a), in #(b)
: bool = true, then not #, in #";

const DEEP_TRACES: &str = "\
(t: trace): trace = t, then loop #(t), in #(b)
: trace = true, then assert true in { # }, in #";

// Twice as many nodes at each level, and one more: 3 * 2^15 - 1 and 2 * 2^15 are fewer than 100,000.
const DOUBLE: &str = "\
: trace = true, then { # &> # }, in #
(a: bool): bool = a, then #(a) and #(a), in #(b)
(a: bool): bool = a, then #(a and a), in #(b)
(t: trace): trace = t, then #({ t |> t }), in #(b)";

// Twice as many locals, beside the two outputs of the node: 2^6 of them are fewer than 126, and 2^7 are more.
const DOUBLE_LOCALS: &str = ": trace = exist x: bool in true, then { # fby # }, in #";

// That towers may have so many macros above the first, and with one more have this answer.
fn grow(rt: &impl Abort, alloc: Global, most: usize, past: &str, towers: &str) -> Result<(), Fail> {
    check_towers(rt, alloc, Asked::Answer, most, "Accepted", towers)?;
    check_towers(
        rt,
        alloc,
        Asked::Answer,
        most.saturating_add(1),
        past,
        towers,
    )
}

#[test]
fn towers_grow_to_the_limits(rt: HostRuntime) -> Result<(), Fail> {
    grow(&rt, rt.alloc(), 4999, "TooLarge(Depth)", DEEP_EXPRESSIONS)?;
    grow(&rt, rt.alloc(), 999, "TooLarge(Depth)", DEEP_TRACES)?;
    grow(&rt, rt.alloc(), 15, "TooLarge(Nodes)", DOUBLE)?;
    grow(&rt, rt.alloc(), 6, "TooLarge(Variables)", DOUBLE_LOCALS)
}

const DOUBLING: &str = "\
(a: bool): bool = a, then #(a) and #(a), in #(b)
(a: bool): bool = not a, then #(#(a)), in #(b)
(t: trace): trace = t, then { #(t) fby #(t) }, in #(b)
(t: trace): trace = loop t, then #(#(t)), in #(b)
(t: trace): trace = exception z in { t |> raise z }, then let g(s: trace): trace = #(#(s)) in g(t), in #(b)";

#[test]
fn doubling_towers_are_too_large(rt: HostRuntime) -> Result<(), Fail> {
    check_towers(
        &rt,
        rt.alloc(),
        Asked::Answer,
        90,
        "TooLarge(Nodes)",
        DOUBLING,
    )
}
