//! That equal expressions of a scenario are one expression of its table, and where the parts of a tree stand in the text.

use crate::found::Asked;
use crate::rows::{WHOLE, check};
use std::test::Fail;

// The head of a node, behind which its trace stands.
const NODE: &str = "node n() returns (b, c: bool) = ";

// Traces, each with how many expressions it has that differ.
const EXPRESSIONS: &str = "\
b ==> 1
raise Deadlock ==> 0
b and b ==> 2
b fby c fby b fby c ==> 2
b and c fby b and c fby c and b ==> 4
b = c => b = c ==> 4
b and pre b ==> 3
1 = 1 and 1.0 = 1.0 ==> 5
1.001 = 1.0 ==> 2
1000000000001 = 1000000000002 ==> 2
7 / 2 = 7 div 2 ==> 4
{ | b | 1: b | 2: c } ==> 4
assert b in { b &> not b } ==> 2
let m(x: bool): bool = not x in m(b) fby m(b) fby not b ==> 2
let m: trace = exist x: bool in not x in m fby m ==> 4
if b then c else if b then c else c ==> 4";

// The place of `not x` in the macro.
const PLACE: &str =
    "let m(x: bool): bool = not x node n() returns (b: bool) = m(b) asked for n ==> 23-28";

#[test]
fn equal_expressions_are_one_and_parts_have_their_places(rt: HostRuntime) -> Result<(), Fail> {
    check(&rt, rt.alloc(), Asked::Count, NODE, EXPRESSIONS)?;
    check(&rt, rt.alloc(), Asked::Place, WHOLE, PLACE)
}
