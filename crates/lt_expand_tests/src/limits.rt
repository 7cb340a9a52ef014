//! How large a scenario may be: each limit at its value, and one past it.

use crate::found::Asked;
use crate::rows::{WHOLE, check, check_row, halves};
use std::alloc::Global;
use std::process::Abort;
use std::test::Fail;

// What stands before the text of each row, the piece that stands many times at the sign `@`, how often at most, where
// nothing else counts, and the answer where it stands more often.
#[derive(Clone, Copy)]
struct Room {
    head: &'static str,
    piece: &'static str,
    most: usize,
    past: &'static str,
}

// That each text is accepted with as many pieces as there is room for, and past the limit with one more. Behind a text
// stands how much of the room it takes itself.
fn fill(rt: &impl Abort, alloc: Global, room: Room, rows: &str) -> Result<(), Fail> {
    for row in rows.lines() {
        let (text, taken) = halves(row, " ==> ");
        let most = room.most.saturating_sub(taken.parse()?);
        check_with(rt, alloc, room, text, most, "Accepted")?;
        check_with(rt, alloc, room, text, most.saturating_add(1), room.past)?;
    }
    Ok(())
}

// That a text with so many pieces has this answer.
fn check_with(
    rt: &impl Abort,
    alloc: Global,
    room: Room,
    text: &str,
    count: usize,
    answer: &str,
) -> Result<(), Fail> {
    let (before, behind) = halves(text, "@");
    let row = format!(in alloc;
        "{}{before}<<{count} times {}>>{behind} ==> {answer}",
        room.head, room.piece
    )?;
    check_row(rt, alloc, Asked::Answer, &row)
}

// Before a trace of the rows stand 99,983 nodes and one more for each `not`. A constraint of 4,500 times `b` and 4,499
// `and`s has 9,000 with its instant, and stands 11 times. One of 484 times `b` has 968, and the last `b` 2; 13 times stands
// `fby`.
const FULL: Room = Room {
    head: "exception e node n() returns (b: bool) = \
        let m: bool = b<<4499 times  and b>> in <<11 times m() fby >>b<<483 times  and b>> fby ",
    piece: "not ",
    most: 17,
    past: "TooLarge(Nodes)",
};

// Traces, each with how many terms and expressions it stands for.
const COUNTED: &str = "\
@b fby { b } ==> 2
@b fby { (b and not b) } ==> 5
@b fby { if b then pre b else true } ==> 5
@b fby { -1 = 2 } ==> 5
@b fby { { { b } } } ==> 2
@b fby { let m: bool = not b in b } ==> 2
@b fby { let m: bool = not b in m and m } ==> 6
@b fby { let m(x: bool): bool = b in m(b and b) } ==> 2
@b fby { let m(t: trace): trace = t fby t in m({ loop b }) } ==> 7
@b fby { exception z in b } ==> 2
@b fby { raise e } ==> 1
@b fby { b fby b fby b } ==> 8
@b fby { b &> b } ==> 5
@b fby { |> b } ==> 2
@b fby { loop b } ==> 3
@b fby { loop [1, 1 + 1] b } ==> 7
@b fby { loop ~3:1 b } ==> 5
@b fby { assert b in b } ==> 4
@b fby { exist x: bool in b } ==> 3
@b fby { exist x, y: bool = not true in b } ==> 8
@b fby { try b } ==> 4
@b fby { catch e in b } ==> 4
@b fby { catch Deadlock in b do b } ==> 5
@b fby { trap z in b } ==> 4
@b fby { | b } ==> 4
@b fby { | 1 + 1: b | b | b } ==> 12";

#[test]
fn there_may_be_100000_nodes(rt: HostRuntime) -> Result<(), Fail> {
    fill(&rt, rt.alloc(), FULL, COUNTED)
}

const TALL: Room = Room {
    head: "node n() returns (b: bool) = ",
    piece: "b fby ",
    most: 1000,
    past: "TooLarge(Depth)",
};

// Traces, each with how deep it is.
const TRACES: &str = "\
@{ b } ==> 1
@{ raise Deadlock } ==> 1
@{ loop { b fby b } } ==> 3
@{ loop [1,2] b } ==> 2
@{ exist x, y: bool in b } ==> 3
@{ assert b in b } ==> 2
@{ catch Deadlock in loop b } ==> 3
@{ trap z in b do b fby b } ==> 3
@{ | b | loop b | b } ==> 3
@{ b |> b |> { b &> b } } ==> 4
@{ let t: trace = loop b in exception z in { { t } } } ==> 2";

// Pieces that stand behind what they are joined to.
const JOINED: &str = "\
node n() returns (b: bool) = { b <<999 times |> b >>} ==> Accepted
node n() returns (b: bool) = { b <<1000 times |> b >>} ==> TooLarge(Depth)
node n() returns (b: bool) = { b <<999 times &> b >>} ==> Accepted
node n() returns (b: bool) = { b <<1000 times &> b >>} ==> TooLarge(Depth)
node n() returns (b: bool) = { b <<999 times fby b >>} ==> Accepted
node n() returns (b: bool) = { b <<1000 times fby b >>} ==> TooLarge(Depth)";

#[test]
fn terms_may_be_1000_deep(rt: HostRuntime) -> Result<(), Fail> {
    fill(&rt, rt.alloc(), TALL, TRACES)?;
    check(&rt, rt.alloc(), Asked::Answer, WHOLE, JOINED)
}

const DEEP: Room = Room {
    head: "",
    piece: " * 1",
    most: 5000,
    past: "TooLarge(Depth)",
};

// Texts, each with how deep the expression at the sign `@` is where nothing stands there.
const CONSTRAINTS: &str = "\
node n() returns (b: bool) = 1@ = 1 ==> 2
node n() returns (b: bool) = not (1@ = 1) ==> 3
node n() returns (b: bool) = if 2 = 1@ then b else b ==> 3
node n() returns (b: bool) = assert 1@ = 1 in b ==> 2";

// The same, where a bound, a weight or a first value is deep.
const NUMBERS: &str = "\
node n() returns (b: bool) = loop [1@,2] b ==> 1
node n() returns (b: bool) = loop [0,1@] b ==> 1
node n() returns (b: bool) = loop ~(1@):0 b ==> 1
node n() returns (b: bool) = loop ~1:(1@) b ==> 1
node n() returns (b: bool) = { | b | 1@: b } ==> 1
node n() returns (b: bool) = exist x: int = 1@ in b ==> 1
node n(i: int = 1@) returns (b: bool) = b ==> 1
node n() returns (i: int = 1@) = true ==> 1
let m: int = 1@ node n() returns (b: bool) = { | (m): b } ==> 1
let m(x: int): int = x node n() returns (b: bool) = { | m(1@): b } ==> 1";

#[test]
fn constraints_and_numbers_may_be_5000_deep(rt: HostRuntime) -> Result<(), Fail> {
    fill(&rt, rt.alloc(), DEEP, CONSTRAINTS)?;
    fill(&rt, rt.alloc(), DEEP, NUMBERS)
}

const WIDE: Room = Room {
    head: "node n() returns (b: bool) = ",
    piece: "| b ",
    most: 64,
    past: "TooLarge(Children)",
};

// Choices, each with how many alternatives stand already where more may stand.
const CHOICES: &str = "\
{@} ==> 0
{ | 1: { b @} | b } ==> 1
{ | b | { | 2: { b | b } | b @} | b fby b } ==> 2";

#[test]
fn a_choice_may_have_64_alternatives(rt: HostRuntime) -> Result<(), Fail> {
    fill(&rt, rt.alloc(), WIDE, CHOICES)
}

// A node with as many inputs as may be. Each `m` behind it is one more local.
const NAMED: Room = Room {
    head: "node n(i<<127 times , %>>: bool) returns (b",
    piece: " fby m",
    most: 128,
    past: "TooLarge(Variables)",
};

// That there is room for outputs and locals together: there are 1, 127 and 128 outputs.
const OUTPUTS: &str = "\
: bool) = let m: trace = exist l: bool in l in b@ ==> 1
<<126 times , %>>: bool) = let m: trace = exist l: bool in l in b@ ==> 127
<<127 times , %>>: bool) = let m: trace = exist l: bool in l in b@ ==> 128";

// One more input, and one more output.
const MORE: &str = "\
node n(i<<128 times , %>>: bool) returns (b: bool) = let m: trace = exist l: bool in l in b ==> TooLarge(Variables)
node n(i: bool) returns (b<<128 times , %>>: bool) = let m: trace = exist l: bool in l in b ==> TooLarge(Variables)";

#[test]
fn there_may_be_128_inputs_and_128_drawn_variables(rt: HostRuntime) -> Result<(), Fail> {
    fill(&rt, rt.alloc(), NAMED, OUTPUTS)?;
    check(&rt, rt.alloc(), Asked::Answer, WHOLE, MORE)
}

// A bound that may not stand there, before a trace.
const BEFORE: &str =
    "node n() returns (b: bool) = let l: trace = exist x: bool in x in loop [2,1] b fby ";

// Each row stands before what is past the limits of the rows above it, which come later. All come before the bound, which
// stands first in the text.
const PAST: &str = "\
{ <<128 times l fby >> b } fby b ==> TooLarge(Variables)
{ <<64 times b | >> b } fby { <<128 times l fby >> b } fby b ==> TooLarge(Children)
{ <<1000 times b fby >> b } fby { <<64 times b | >> b } fby { <<128 times l fby >> b } fby b ==> TooLarge(Depth)
{ <<34000 times b fby >> b } fby { <<1000 times b fby >> b } fby { <<64 times b | >> b } fby { <<128 times l fby >> b } fby b ==> TooLarge(Nodes)";

#[test]
fn the_first_limit_is_told(rt: HostRuntime) -> Result<(), Fail> {
    check(&rt, rt.alloc(), Asked::Answer, BEFORE, PAST)
}
