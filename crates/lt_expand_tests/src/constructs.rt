//! What each construct stands for.

use crate::found::Asked;
use crate::rows::{NODE, check};
use std::test::Fail;

const ROWS: &str = "\
-- What is joined of several parts, and what stands in braces.
b fby c fby b fby c ==> (b fby (c fby (b fby c)))
{ b fby c } fby b ==> ((b fby c) fby b)
b fby { c fby b } ==> (b fby (c fby b))
{ b |> c |> b } ==> (b |> (c |> b))
{ |> b |> c fby b } ==> (b |> (c fby b))
{ b &> c &> b } ==> (b &> (c &> b))
{ &> { b |> c } &> b } ==> ((b |> c) &> b)
{ |> b fby c } ==> (b fby c)
{ &> b } ==> b
{ { (b) } } ==> b
-- Choices. A weight that isn't written is 1.
{ | b } ==> {|1: b}
{ b | c } ==> {|1: b|1: c}
{ | 3: b | c fby b } ==> {|3: b|1: (c fby b)}
{ b | 2: c | 0: b } ==> {|1: b|2: c|0: b}
{ | { b | c } | b } ==> {|1: {|1: b|1: c}|1: b}
{ | 1 + 2 * 3: b } ==> {|(1 + (2 * 3)): b}
-- What holds over a trace, what comes again, and what comes in its place.
assert b in c fby b ==> (assert b in (c fby b))
{ assert b in c } fby b ==> ((assert b in c) fby b)
assert b in assert c in b ==> (assert b in (assert c in b))
b fby loop c fby b ==> (b fby ((loop c) fby b))
loop loop { b fby c } ==> (loop (loop (b fby c)))
try b ==> (try b do eps)
try b do c ==> (try b do c)
try b fby c do c fby b ==> (try (b fby c) do (c fby b))
try b do try c do b ==> (try b do (try c do b))
try try b do c ==> (try (try b do c) do eps)
-- Expressions.
if b then c else not b ==> (if b then c else (not b))
b xor c => b or c ==> ((b xor c) => (b or c))
b => c => b ==> (b => (c => b))
(b = true) and c <> pre b ==> ((b = true) and (c <> pre b))
1 + 2 - 3 * 4 = 5 ==> (((1 + 2) - (3 * 4)) = 5)
7 / 2 <> 7 div 2 + 7 mod 2 ==> ((7 / 2) <> ((7 / 2) + (7 mod 2)))
- 1 >= - - 2 ==> ((- 1) >= (- (- 2)))
1 < 2 and 1 <= 2 and 1 > 2 ==> (((1 < 2) and (1 <= 2)) and (1 > 2))
-- Numbers, the reals to the nearest unit, and one past the greatest for all that are past it.
12.5 > 1. ==> (1250u > 100u)
0.005 = 0.0049 ==> (1u = 0u)
1000000000000 = 1000000000001 ==> (1000000000000 = 1000000000001)
1000000000002 = 999999999999999999 ==> (1000000000001 = 1000000000001)
10000000000.004 = 10000000000.005 ==> (1000000000000u = 1000000000001u)";

#[test]
fn each_construct_stands_for_a_term(rt: HostRuntime) -> Result<(), Fail> {
    check(&rt, rt.alloc(), Asked::Scenario, NODE, ROWS)
}
