//! Why a text has no scenario, and what is to blame.

use crate::found::Asked;
use crate::rows::{KINDS, check};
use std::test::Fail;

const ROWS: &str = "\
-- Bounds of a loop.
loop [0, 1000000] b ==> Accepted
loop [@2@, 1] b ==> BadStatic
loop [@0 - 1@, 2] b ==> BadStatic
loop [@-1@, 2] b ==> BadStatic
loop [0, @1000001@] b ==> BadStatic
loop [1000001, @1000001@] b ==> BadStatic
loop [@0@, 0 - 1] b ==> BadStatic
loop [@0 - 1@, 1000001] b ==> BadStatic
-- A variable, also one that is known, or whose value doesn't count.
loop [@x@, 9] b ==> BadStatic
loop [0, @i@] b ==> BadStatic
loop [0, @pre x@] b ==> BadStatic
loop [0, @if true then 1 else i@] b ==> BadStatic
loop [0, @2 + 0 * i@] b ==> BadStatic
exist u: int = 1 in loop [@u@, 9] b ==> BadStatic
-- A fault.
loop [@1 div 0@, 9] b ==> BadStatic
loop [1, @1 mod 0@] b ==> BadStatic
loop [1000000000000 - 1000000000000, 9] b ==> Accepted
loop [@1000000000000 + 1 - 1000000000000@, 9] b ==> BadStatic
loop [@1000000000001 - 1000000000001@, 9] b ==> BadStatic
loop [if true then 1 else 1 div 0, 9] b ==> Accepted
-- An average and a deviation.
loop ~999998:1 b ==> Accepted
loop ~@999999@:1 b ==> BadStatic
loop ~@1000001@:0 b ==> BadStatic
loop ~@0@:500001 b ==> BadStatic
loop ~0:500000 b ==> Accepted
loop ~3:(@0 - 1@) b ==> BadStatic
loop ~(@0 - 3@):1 b ==> BadStatic
loop ~(0 - 2):1 b ==> Accepted
loop ~@x@:1 b ==> BadStatic
loop ~3:@i@ b ==> BadStatic
loop ~@x@:y b ==> BadStatic
loop ~2000000:(@0 - 1@) b ==> BadStatic
loop ~@1000000000000@:1000000000000 b ==> BadStatic
loop ~3:(@1 div 0@) b ==> BadStatic
-- First values.
exist u: int [0;3] = 3 in b ==> Accepted
exist u: int [0;3] = @4@ in b ==> BadStatic
exist u: int [1;3] = @0@ in b ==> BadStatic
exist u: int [0;9;3] = 9 in b ==> Accepted
exist u: int [0;9;3] = @7@ in b ==> BadStatic
exist u: int [0;8;3] = @8@ in b ==> BadStatic
exist u: int [0;9;3] = @12@ in b ==> BadStatic
exist u: int [0;9;3] = @-3@ in b ==> BadStatic
exist u: int [-4;4;3] = -1 in b ==> Accepted
exist u: int [-4;4;3] = @0@ in b ==> BadStatic
exist u: int [2;3;9] = 2 in b ==> Accepted
exist u: int [2;3;9] = @3@ in b ==> BadStatic
exist u: int = 10000 in b ==> Accepted
exist u: int = @10001@ in b ==> BadStatic
exist u: int = @-10001@ in b ==> BadStatic
exist u: real [0.00;0.01] = 0.0149 in b ==> Accepted
exist u: real [0.00;0.01] = @0.015@ in b ==> BadStatic
exist u: real [0.00;1.00;0.25] = 0.754 in b ==> Accepted
exist u: real [0.00;1.00;0.25] = @0.755@ in b ==> BadStatic
exist u: real [0.00;1.00;0.25] = @0.5 + 0.01@ in b ==> BadStatic
exist u: int = @x@ in b ==> BadStatic
exist u: int = 1; v: int = @u@ in b ==> BadStatic
exist u: int = @1 / 0@ in b ==> BadStatic
exist u: real = @1.0 / 0.0@ in b ==> BadStatic
exist u: bool = @true or b@ in b ==> BadStatic
exist u: bool = true or 1 / 0 = 1 in b ==> Accepted
exist u: bool = @false or 1 / 0 = 1@ in b ==> BadStatic
let m(n: int): trace = exist u: int [0;3] = n in b in m(3) fby m(@4@) ==> BadStatic
let m: int = @1 / 0@ in exist u: int = m in b ==> BadStatic
-- Products and quotients.
x * i = 2 and i * i = 4 and x * pre y = 3 and (2 + i) * x = 4 ==> Accepted
@x * y@ = 2 ==> NonLinear
r < @r * r@ ==> NonLinear
@(x + 1) * (y - i)@ = 2 ==> NonLinear
@(x * y) * y@ = 2 ==> NonLinear
2 = @x * (y * y)@ ==> NonLinear
i * (@x * x@) = 2 ==> NonLinear
exist u: int in @u * x@ = 2 ==> NonLinear
r / 2.0 = s / s and r / pre r = 1.0 ==> Accepted
@2.0 / r@ = 1.0 ==> NonLinear
1.0 = @r / r@ ==> NonLinear
i / 2 = x and i div i = y and pre x mod 2 = 1 ==> Accepted
@x / 2@ = 1 ==> NonLinear
@x div 2@ = 1 ==> NonLinear
@2 div x@ = 1 ==> NonLinear
@x mod 2@ = 1 ==> NonLinear
@7 mod x@ = 1 ==> NonLinear
let m(a, c: int): int = @a * c@ in m(x, i) + m(x, y) = 2 ==> NonLinear
let m(a, c: int): int = a * c in m(x, i) + m(i, y) = 2 ==> Accepted
let m(a: int): int = a * i in m(@x * y@) = 2 ==> NonLinear
b => (if b then @x * y@ = 1 else b) ==> NonLinear
assert @x * y@ = 1 in b ==> NonLinear
-- Choices between numbers, and weights.
(if k then x else y) = 1 and (if pre b then 1 else 2) = x ==> Accepted
if b then x = 1 else r = 1.0 ==> Accepted
(@if b then 1 else 2@) = x ==> ControllableCondition
1 + (@if x = 1 then 1 else 2@) = 2 ==> ControllableCondition
r = (@if k and b then 1.0 else 2.0@) ==> ControllableCondition
exist u: bool in (@if u then 1 else 2@) = 1 ==> ControllableCondition
(@if b then (if b then 1 else 2) else 3@) = 1 ==> ControllableCondition
(if k then (@if b then 1 else 2@) else 3) = 1 ==> ControllableCondition
{ | i: b | pre x: b | 2 * i + pre y: b } ==> Accepted
{ | i: b | @x@: b } ==> ControllableWeight
{ | @i + (2 * x)@: b } ==> ControllableWeight
exist u: int in { | 2: { | @u@: b } | 3 + u: b } ==> ControllableWeight
let m(w: int): trace = { | @w + y@: b } in m(i) ==> ControllableWeight
let m(w: int): trace = { | w: b } in b ==> Accepted
let m(w: int): trace = { | w: b } in m(i) fby m(@y@) ==> ControllableWeight";

#[test]
fn each_cause_has_its_place(rt: HostRuntime) -> Result<(), Fail> {
    check(&rt, rt.alloc(), Asked::Answer, KINDS, ROWS)
}
