//! Which of the broken rules is told: the first in the order of the text.

use crate::found::Asked;
use crate::rows::{NODE, check};
use std::test::Fail;

// Texts that break two rules or more.
const TEXTS: &str = "\
## declarations, a name before what it declares
let l: bool = @1@ let m: bool = 2.0 ==> Mismatch
let m: bool = true let @m@: bool = u ==> Twice
node n() returns () = true node @n@() returns () = u ==> Twice
## inputs, outputs, the trace
node n(a: bool = @u@) returns (c: int = v) = w ==> Unknown
node n(a: bool) returns (c: int = @a@) = w ==> Mismatch
## an input's range, its first value, that it has a step, its first value's type
node n(i: int [0; 9; @3.0@]) returns () = true ==> Mismatch
node n(i: int [0; 9; @1000000000001@]) returns () = true ==> RangeTooLarge
node n(i: int [@9@; 0; 3]) returns () = true ==> EmptyRange
node n(i: int [0; 9; @0@]) returns () = true ==> BadStep
node n(i: int [0; 9; 3] = @u@) returns () = true ==> Unknown
node n(@i@: int [0; 9; 3] = 1.0) returns () = true ==> Mismatch
## that there is no node comes last
exception e let m: bool = @u@ ==> Unknown";

// The same of traces.
const TRACES: &str = "\
## a name, what its arguments break in themselves, their number, their types
@u@(1 = 2.0) ==> Unknown
b(@u@) ==> Unknown
let m: bool = b in m(@1 = 2.0@) ==> Mismatch
let m(x, y: bool): bool = x in m(1, @u@) ==> Unknown
let m(x: bool): bool = x in @m@(1, b) ==> Arity
let m(x, y: bool): bool = x in m(@1@, 2) ==> Mismatch
## operands before their operator, and what an `assert` stands over before its condition's type
not (1 = @u@) ==> Unknown
if 1 then b else @u@ ==> Unknown
assert @u@ in 1 ==> Unknown
assert 1 in @u@ ==> Unknown
## a weight, a bound, an item and a body before what comes behind them
{ | @1.0@: u } ==> Mismatch
loop [@1.0@, u] b ==> Mismatch
@1@ fby u ==> Mismatch
let m: bool = @1@ in u ==> Mismatch
catch @e@ in u ==> Unknown
## the types of a range's literals, their sizes, the order of its ends, its step
exist i: int [1000000000001; @0.0@] in b ==> Mismatch
exist i: int [@1000000000002@; 1000000000001] in b ==> RangeTooLarge
exist i: int [2; @-1000000000001@] in b ==> RangeTooLarge
exist i: int [1000000000001; 0; @0.0@] in b ==> Mismatch
exist i: int [1000000000001; @0.0@; 0.0] in b ==> Mismatch
exist i: int [@1000000000001@; 0; -1000000000001] in b ==> RangeTooLarge
exist i: int [2; @1000000000001@; 1000000000001] in b ==> RangeTooLarge
exist i: int [2; 0; @-1000000000001@] in b ==> RangeTooLarge
exist i: int [@2@; 0; 0] in b ==> EmptyRange
exist i: int [@2@; 0; -1] in b ==> EmptyRange
## a group's names, its range, its first value, what it may not have, its first value's type
exist u, @u@: int [3; 2] in b ==> Twice
exist i: int [@3@; 2] = u in b ==> EmptyRange
exist i: int [2; 3; @0@] = u in b ==> BadStep
let m(i: int [@3@; 2]): bool = b in b ==> EmptyRange
exist t: trace = @u@ in b ==> Unknown
exist @u@: bool [3; 2] = 1 in b ==> Mismatch
## a group before the next one, and before the trace
exist @u@: bool ref; u: int in b ==> Mismatch
exist u: int = @b@ in v ==> Mismatch";

#[test]
fn the_first_broken_rule_is_told(rt: HostRuntime) -> Result<(), Fail> {
    check(&rt, rt.alloc(), Asked::Types, "", TEXTS)?;
    check(&rt, rt.alloc(), Asked::Types, NODE, TRACES)
}
