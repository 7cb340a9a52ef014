//! That locals and counted loops are numbered in the order in which they stand in the expansion, each in a sequence of
//! its own.

use crate::found::Asked;
use crate::rows::{NODE, check};
use std::test::Fail;

const ROWS: &str = "\
-- Locals.
exist x: bool in x ==> (exist 0 in x.1); x.1: bool [0;1]
exist x, y: bool in x and y ==> (exist 0 in (exist 1 in (x.1 and y.2))); x.1: bool [0;1]; y.2: bool [0;1]
exist x: bool; y: int [0;3] = 2 in x or y = 1 ==> (exist 0 in (exist 1 in (x.1 or (y.2 = 1)))); x.1: bool [0;1]; y.2: int [0;3] = 2
exist x: bool in { exist y: bool in x and y } fby exist x: bool in x ==> (exist 0 in ((exist 1 in (x.1 and y.2)) fby (exist 2 in x.3))); x.1: bool [0;1]; y.2: bool [0;1]; x.3: bool [0;1]
try exist x: bool in x do exist y: bool in y ==> (try (exist 0 in x.1) do (exist 1 in y.2)); x.1: bool [0;1]; y.2: bool [0;1]
{ | exist x: bool in x | exist y: bool in y } ==> {|1: (exist 0 in x.1)|1: (exist 1 in y.2)}; x.1: bool [0;1]; y.2: bool [0;1]
loop exist x: bool in pre x ==> (loop (exist 0 in pre x.1)); x.1: bool [0;1]
-- Each use of a macro, or of an argument, has its own.
let m: trace = exist x: bool in x in m fby m ==> ((exist 0 in x.1) fby (exist 1 in x.2)); x.1: bool [0;1]; x.2: bool [0;1]
let m(t: trace): trace = t fby t in m({ exist x: bool in x }) ==> ((exist 0 in x.1) fby (exist 1 in x.2)); x.1: bool [0;1]; x.2: bool [0;1]
let m(t: trace): trace = exist x: bool in t in m(m(b)) ==> (exist 0 in (exist 1 in b)); x.1: bool [0;1]; x.2: bool [0;1]
let m(s, t: trace): trace = t fby s in m({ exist x: bool in x }, { exist y: bool in y }) ==> ((exist 0 in y.1) fby (exist 1 in x.2)); y.1: bool [0;1]; x.2: bool [0;1]
let m(t: trace): trace = b in m({ exist x: bool in x }) fby exist y: bool in y ==> (b fby (exist 0 in y.1)); y.1: bool [0;1]
-- First values.
exist x, y: int = 2 + 3 in x = y ==> (exist 0 in (exist 1 in (x.1 = y.2))); x.1: int [-10000;10000] = 5; y.2: int [-10000;10000] = 5
exist x: real [0.0;1.0] = 1.0 / 3.0 in x < 0.5 ==> (exist 0 in (x.1 < 50u)); x.1: real [0;100] = 33u
exist x: bool = not false in x ==> (exist 0 in x.1); x.1: bool [0;1] = true
let m(n: int): trace = exist x: int = n in x = n in m(3) ==> (exist 0 in (x.1 = 3)); x.1: int [-10000;10000] = 3
-- Counted loops.
loop [2,3] b ==> (count 0: b); 2 to 3
loop [0,0] b ==> (count 0: b); 0 to 0
loop [1,1000000] b ==> (count 0: b); 1 to 1000000
loop [if 1 < 2 then 3 else 4, 9 mod 5] b ==> (count 0: b); 3 to 4
loop ~10:2 b ==> (count 0: b); 6 to 14
loop ~1:3 b ==> (count 0: b); 0 to 7
loop ~3:0 b ==> (count 0: b); 3 to 3
loop ~(2 - 3):2 b ==> (count 0: b); 0 to 3
loop ~(0 - 2):1 b ==> (count 0: b); 0 to 0
let n: int = 5 in loop ~n:1 b ==> (count 0: b); 3 to 7
loop [1,2] { loop [3,4] b fby loop [5,6] c } ==> (count 0: ((count 1: b) fby (count 2: c))); 1 to 2; 3 to 4; 5 to 6
loop loop [1,1] loop b ==> (loop (count 0: (loop b))); 1 to 1
let m(n: int): trace = loop [n, n + 1] b in m(1) fby m(7 div 2) ==> ((count 0: b) fby (count 1: b)); 1 to 2; 3 to 4
let m(t: trace): trace = loop [1,2] t in m(m(b)) ==> (count 0: (count 1: b)); 1 to 2; 1 to 2
exist x: bool in loop [1,2] exist y: bool in loop ~4:1 y ==> (exist 0 in (count 0: (exist 1 in (count 1: y.2)))); x.1: bool [0;1]; y.2: bool [0;1]; 1 to 2; 2 to 6";

#[test]
fn locals_and_counters_are_numbered_in_preorder(rt: HostRuntime) -> Result<(), Fail> {
    check(&rt, rt.alloc(), Asked::Scenario, NODE, ROWS)
}
