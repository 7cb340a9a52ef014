//! That each rule of types accepts what keeps to it and refuses what breaks it.

use crate::found::Asked;
use crate::rows::{NODE, check};
use std::test::Fail;

// Traces of a node.
const TRACES: &str = "\
## what each refusal is told of, and what it is not told of
exist u: bool in u ==> Accepted
@u@ fby exist u: bool in u ==> Unknown
exist u: bool in exist u: bool in u ==> Accepted
exist u, @u@: bool in u ==> Twice
let m: bool = b in m() ==> Accepted
@b@() ==> Arity
let m(x: bool ref): bool = pre x in m(b) ==> Accepted
let m(x: bool): bool = pre @x@ in m(b) ==> PreOfExpression
b = not b ==> Accepted
@b = 1@ ==> Mismatch
exist i: int [0; 1000000000000] in b ==> Accepted
exist i: int [0; @1000000000001@] in b ==> RangeTooLarge
exist i: int [3; 3] in b ==> Accepted
exist i: int [@3@; 2] in b ==> EmptyRange
exist i: int [0; 3; 1] in b ==> Accepted
exist i: int [0; 3; @0@] in b ==> BadStep
## operators, each in turn
not b and b ==> Accepted
@not 1@ ==> Mismatch
@b and 1@ ==> Mismatch
b or b xor b => b ==> Accepted
@b or 1.0@ ==> Mismatch
@1 xor b@ ==> Mismatch
@1 => 1@ ==> Mismatch
1 = 2 ==> Accepted
@1 = 2.0@ ==> Mismatch
b <> b ==> Accepted
@b <> 1@ ==> Mismatch
let m(t: trace): trace = @t = t@ in m(b) ==> Mismatch
1.0 < 2.0 ==> Accepted
@b < b@ ==> Mismatch
1 <= 2 and 1 > 2 and 1 >= 2 ==> Accepted
@b <= b@ ==> Mismatch
@b > b@ ==> Mismatch
@1 >= 2.0@ ==> Mismatch
-1 + 2 = 1 ==> Accepted
@-b@ ==> Mismatch
@1 + 2.0@ = 3.0 ==> Mismatch
1.0 - 2.0 * 3.0 / 4.0 = -0.5 ==> Accepted
@b - b@ ==> Mismatch
@1 * b@ = 1 ==> Mismatch
@1.0 / 2@ = 0.5 ==> Mismatch
7 div 2 = 3 ==> Accepted
@7.0 div 2.0@ = 3.0 ==> Mismatch
7 mod 2 = 1 ==> Accepted
@7.0 mod 2.0@ = 1.0 ==> Mismatch
if b then b else not b ==> Accepted
@if 1 then b else b@ ==> Mismatch
(@if b then 1 else 2.0@) = 1 ==> Mismatch
let m(t: trace): trace = @if b then t else t@ in b ==> Mismatch
## what may stand in a trace, and what a macro may stand for
let t: trace = b fby b in (t) ==> Accepted
@not (1)@ ==> Mismatch
let t: trace = b in t ==> Accepted
@1@ ==> Mismatch
{ | 2: b | 3: b } ==> Accepted
{ | 2: b | @3.0@: b } ==> Mismatch
loop [1, 2] b ==> Accepted
loop [@1.0@, 2.0] b ==> Mismatch
loop [1, @b@] b ==> Mismatch
loop ~10:2 b ==> Accepted
loop ~@b@:2 b ==> Mismatch
loop ~10:@2.0@ b ==> Mismatch
assert b in b ==> Accepted
assert @1@ in b ==> Mismatch
{ b |> { b &> b } } fby try b do b ==> Accepted
{ b |> { b &> @1@ } } ==> Mismatch
try b do @1@ ==> Mismatch
catch Deadlock in b do @1@ ==> Mismatch
let m: int = 1 in m = 1 ==> Accepted
let m: int = @1.0@ in b ==> Mismatch
## arguments by value, and one by `ref`
let m(t: trace): trace = t in m(b) ==> Accepted
let m(x: int): bool = b in m(@b@) ==> Mismatch
let m(x: real): bool = b in m(@1@) ==> Mismatch
let m(t: trace): trace = t in m(@1@) ==> Mismatch
let m(t: trace): trace = t in m({ b fby b }) ==> Accepted
let m(x: bool): bool = x in m(@{ b }@) ==> Mismatch
let m(x: bool ref): bool = x in m(b) ==> Accepted
let m(x: bool ref): bool = x in m(@(b)@) ==> Mismatch
## what groups of variables and of parameters may have
exist u: int = 1 in b ==> Accepted
exist u: int = @1.0@ in b ==> Mismatch
let m(@x@: int = 1): bool = b in b ==> Mismatch
exist x: real [0.0; 1.0] in b ==> Accepted
exist x: real [@0@; 1] in b ==> Mismatch
exist i: int [0; @1.0@] in b ==> Mismatch
exist i: int [0; 9; @3.0@] in b ==> Mismatch
exist x: real [0.0; 1.0; @1@] in b ==> Mismatch
exist @u@, v: bool [0; 1] in b ==> Mismatch
exist @u@, v: bool [1.0; 0; 0] in b ==> Mismatch
exist @t@: trace [1.0; 0; 0] in b ==> Mismatch
let m(@i@: int [0; 1]): bool = b in b ==> Mismatch
let m(@i@: int [0; 1; 1]): bool = b in b ==> Mismatch
let m(x: int ref): bool = b in b ==> Accepted
exist @t@: trace in b ==> Mismatch
exist @u@: bool ref in b ==> Mismatch
let m(@t@: trace ref): bool = b in b ==> Mismatch";

// The same behind a macro that wants a variable.
const NODE_WITH_REF: &str = "let m(x: bool ref): bool = x node n() returns (b: bool) = ";

// Arguments of that macro.
const REFERENCES: &str = "\
exist u: bool in m(u) ==> Accepted
exist u: int in m(@u@) ==> Mismatch
m(@true@) ==> Mismatch
m(@{ b }@) ==> Mismatch
let l(y: bool ref): bool = m(y) in l(b) ==> Accepted
let l(y: bool): bool = m(@y@) in l(b) ==> Mismatch
let l: bool = b in m(@l@) ==> Mismatch
let l: bool = b in m(@l@()) ==> Mismatch";

// Nodes whose inputs and outputs have steps.
const STEPS: &str = "\
node n(i: int [0; 9]) returns (j: int [0; 9; 3]; r: real [0.0; 1.0; 0.25]) = true ==> Accepted
node n() returns (x: int [0;3;@0@]) = true ==> BadStep
node n(@i@, j: int [0; 9; 3]) returns () = true ==> Mismatch
node n(a: bool; @r@: real [0.0; 1.0; 0.25]) returns () = true ==> Mismatch";

// Nodes that run others.
const RUNS: &str = "\
## the names, the node and the arguments of a run
node n() returns (b: bool) = run x := @n@() in b ==> Unknown
node s() returns (v: bool) = v node n() returns (b: bool) = run x := s() in b = x ==> Accepted
node s() returns (v: bool) = v node n() returns (b: bool) = run @b@ := s() in b ==> Twice
node s() returns (v: bool) = v node n() returns (b: bool) = run x, @x@ := s() in b ==> Twice
node s() returns (v: bool) = v node n() returns (b: bool) = run x := s() in run @x@ := s() in b ==> Twice
node s() returns (v: bool) = v node n() returns (b: bool) = run @b@ := q(z) in b ==> Twice
node s() returns (v: bool) = v node n() returns (b: bool) = run x := @q@(z) in b ==> Unknown
node s() returns (v: bool) = v node n() returns (b: bool) = run x := s(@z@) in b ==> Unknown
node s() returns (v: bool) = v node n() returns (b: bool) = run x := @s@(b) in b ==> Arity
node s() returns (v: bool) = v node n() returns (b: bool) = run x, y := @s@() in b ==> Arity
node s(i: int) returns (v: bool) = v node n() returns (b: bool) = run x := s(@b@) in b ==> Mismatch
node s(i: int) returns (v: bool) = v node n() returns (b: bool) = run x := s(1 + 2) in b ==> Accepted
node s(i: int [0;9]) returns (v: bool) = v node n() returns (b: bool) = run x := s(@1@) in b ==> Mismatch
node s(i: int) returns (v: int) = v = i node n() returns (b: bool) = run x := s(1) in run y := s(x) in x = y ==> Accepted
node s() returns (v: int) = v = 1 node n() returns (b: bool) = run x := s() in @x@ ==> Mismatch
let x: int = 1 node s() returns (v: bool) = v node n() returns (b: bool) = run x := s() in x ==> Accepted
node s() returns (v: bool) = v node n() returns (b: bool) = run x := s() in pre x ==> Accepted
node s() returns (v: bool) = v node n() returns (b: bool) = run x := s() in b node m() returns (b: bool) = @x@ ==> Unknown";

// Texts with and without a node.
const NODES: &str = "\
node n() returns (b: bool) = b ==> Accepted
exception e ==> NoNode
let m: bool = true ==> NoNode
 ==> NoNode";

#[test]
fn each_rule_accepts_and_refuses(rt: HostRuntime) -> Result<(), Fail> {
    check(&rt, rt.alloc(), Asked::Types, NODE, TRACES)?;
    check(&rt, rt.alloc(), Asked::Types, NODE_WITH_REF, REFERENCES)?;
    check(&rt, rt.alloc(), Asked::Types, "", STEPS)?;
    check(&rt, rt.alloc(), Asked::Types, "", RUNS)?;
    check(&rt, rt.alloc(), Asked::Types, "", NODES)
}

// The text of a program, its decimals, and of the program that is lent and of the one that is given back how many
// declarations it has, and the operator of its macro with the places of both operands.
const TYPED: &str = "\
let m: bool = true or false node n() returns (b: bool) = m ==> 2 2 Or 14-18 22-27 2 Or 14-18 22-27";

#[test]
fn a_typed_program_is_the_one_that_was_checked(rt: HostRuntime) -> Result<(), Fail> {
    check(&rt, rt.alloc(), Asked::Typed, "", TYPED)
}
