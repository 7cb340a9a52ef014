//! Which refusal is told where there are several: the first kind, and of that the first in the order of the expansion.

use crate::found::Asked;
use crate::rows::{KINDS, WHOLE, check};
use std::test::Fail;

const TEXTS: &str = "\
-- Whole texts: inputs, outputs, the trace.
node n(i: int [0;1] = @2@) returns (x: int [0;1] = 3) = loop [2,1] true ==> BadStatic
node n(i: int; j: int = @i@) returns (x: int [0;1] = 3) = true ==> BadStatic
node n(i: int [0;1] = 1) returns (x: int [0;1] = @3@) = loop [2,1] true ==> BadStatic
let m: trace = loop [@2@,1] true node n() returns (x: int [0;1] = 1) = m fby loop [3,1] true ==> BadStatic
node n(i: int) returns (x: int; y: int = @x * i@) = x * y = 1 ==> BadStatic
node n() returns (x: int [0;1] = 1; b: bool = @x * x = 1@) = true ==> BadStatic
let m: trace = loop [2,1] true let l(x: int): bool = x * x = 1 node n() returns (x: int) = x = 1 ==> Accepted";

const ROWS: &str = "\
-- One kind before another, wherever they stand.
x * y = 2 fby loop [@2@,1] b ==> BadStatic
{ | x: (if b then 1 else 2) = x div y } fby exist u: int = @1 / 0@ in b ==> BadStatic
(if b then 1 else 2) = x fby @x * y@ = 2 ==> NonLinear
{ | x: b | 2: @x mod y@ = 1 } ==> NonLinear
{ | @x * y@: b } ==> NonLinear
(if b then @x * y@ else 2) = 1 ==> NonLinear
{ | x: b } fby (@if b then 1 else 2@) = x ==> ControllableCondition
{ | @if b then 1 else 2@: b } ==> ControllableCondition
b fby { | @x@: b } ==> ControllableWeight
loop [@x * y@, 2] b ==> BadStatic
exist u: int = @if b then 1 else 2@ in b ==> BadStatic
-- The first in preorder of the expansion, and not of the text.
loop [@2@,1] loop [3,1] b ==> BadStatic
b fby loop [1,2] loop [@3@,1] b fby loop [2,1] b ==> BadStatic
let m: trace = loop [2,1] b in loop [@3@,1] m ==> BadStatic
let m(s, t: trace): trace = t fby s in m({ loop [2,1] b }, { loop [@3@,1] b }) ==> BadStatic
let m(t: trace): trace = { loop [@3@,1] b fby t } in m({ loop [2,1] b }) ==> BadStatic
let m(t: trace): trace = t fby loop [2,1] b in m({ loop [@3@,1] b }) ==> BadStatic
exist u: int [0;1] = 1; v: int [0;1] = @2@ in exist w: int [0;1] = 3 in b ==> BadStatic
try loop [1,1] b do loop [@2@,1] b fby loop [3,1] b ==> BadStatic
let m(a, c: int): bool = c = a in m(x mod y, @x * y@) ==> NonLinear
let m: int = x div y in @x * y@ = m ==> NonLinear
{ | 1: @x * y@ = 1 | y div x: b } ==> NonLinear
{ | @y div x@: x * y = 1 } ==> NonLinear
assert @x * x@ = 1 in y * y = 1 ==> NonLinear
let m(a: int): bool = (@if b then 1 else a@) = 1 in m(if b then 2 else 3) ==> ControllableCondition
{ | 1: { | @x@: b } | y: b } ==> ControllableWeight
{ | @y@: { | x: b } | 2: b } ==> ControllableWeight
-- What the expansion doesn't hold isn't judged.
let m: trace = loop [2,1] b in b ==> Accepted
let m(t: trace): trace = b in m({ loop [2,1] b }) ==> Accepted
let m(a: int; w: int): bool = b in m(x * y, if b then 1 else 2) ==> Accepted";

#[test]
fn the_first_refusal_is_told(rt: HostRuntime) -> Result<(), Fail> {
    check(&rt, rt.alloc(), Asked::Answer, WHOLE, TEXTS)?;
    check(&rt, rt.alloc(), Asked::Answer, KINDS, ROWS)
}
