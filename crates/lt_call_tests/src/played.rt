//! What scenarios play.

use crate::rows::check_rows;
use std::test::Fail;

#[test]
fn scenarios_are_played(rt: HostRuntime) -> Result<(), Fail> {
    check_rows(
        &rt,
        "",
        14,
        r#"
## priorities are played
$ run f

-- A constraint beside the choice sends it to its second alternative.
f is node n() returns (x: int [0;3]) = { &> { x = 1 |> x = 2 } &> x <> 1 }
> #seed 0\n#inputs "x":int\n#outputs
> #step 1\n2 #outs
> #end normal 1

f is node n() returns (x: int [0;3]) = try x > 3 do x = 0
> #seed 0\n#inputs "x":int\n#outputs
> #step 1\n0 #outs
> #end normal 1

f is node n() returns (b: bool) = { b |> not b }
> #seed 0\n#inputs "b":bool\n#outputs
> #step 1\nt #outs
> #end normal 1

## loops are played
$ run f
> #seed 0\n#inputs "x":int\n#outputs

f is node n() returns (x: int [0;3]) = loop [2,2] x = 1
> #step 1\n1 #outs\n#step 2\n1 #outs
> #end normal 2

-- A loop in a loop counts its turns anew.
f is node n() returns (x: int [0;3]) = loop [2,2] { loop [2,2] x = 1 fby x = 2 }
> #step 1\n1 #outs\n#step 2\n1 #outs\n#step 3\n2 #outs
> #step 4\n1 #outs\n#step 5\n1 #outs\n#step 6\n2 #outs
> #end normal 6

## catches are played
$ run f
> #seed 0\n#inputs "x":int\n#outputs
> #step 1\n1 #outs\n#step 2\n2 #outs
> #end normal 2

f is exception A node n() returns (x: int [0;3]) = catch A in { x = 1 fby raise A } do x = 2

f is node n() returns (x: int [0;3]) = trap A in { x = 1 fby raise A } do x = 2

## asserts and macros are played
$ run f

f is node n() returns (x: int [0;3]) = assert x > 1 in { x < 3 }
> #seed 0\n#inputs "x":int\n#outputs
> #step 1\n2 #outs
> #end normal 1

f is let both (c, d: trace): trace = { &> c &> d } node n() returns (b: bool) = both({b}, {b fby not b})
> #seed 0\n#inputs "b":bool\n#outputs
> #step 1\nt #outs\n#step 2\nf #outs
> #end normal 2

## numbers and locals are solved

-- 72.9 units are rounded.
$ run f -l 3
f is node n() returns (x: real [0.0;10.0] = 1.0) = loop x = 0.9 * pre x
> #seed 0\n#inputs "x":real\n#outputs
> #step 1\n0.90 #outs\n#step 2\n0.81 #outs\n#step 3\n0.73 #outs
> #end limit 3

-- A quarter of x is a half.
$ run f
f is node n() returns (x: real [0.0;9.0]) = x / 4.0 = 0.5
> #seed 0\n#inputs "x":real\n#outputs
> #step 1\n2.00 #outs
> #end normal 1

-- 100 x is 90 y in units, and that needs y to be a multiple of 10.
$ run f
f is node n() returns (x, y: real [0.01;0.09]) = x = 0.9 * y
> #seed 0\n#inputs "x":real "y":real\n#outputs
> #end deadlock 1
= 4 lurette: deadlock 1

-- A local that is entered again begins with its first value.
$ run f -l 4
f is node n() returns (x: int [0;9]) = loop { exist v: int [0;9] = 0 in { x = v and v = pre v + 1 fby x = v and v = pre v + 1 } }
> #seed 0\n#inputs "x":int\n#outputs
> #step 1\n1 #outs\n#step 2\n2 #outs\n#step 3\n1 #outs\n#step 4\n2 #outs
> #end limit 4

$ run f
f is node n() returns (x: int [0;9] = 7) = x = pre x - 3 fby x = pre x * 2 fby x = pre x mod 5
> #seed 0\n#inputs "x":int\n#outputs
> #step 1\n4 #outs\n#step 2\n8 #outs\n#step 3\n3 #outs
> #end normal 3
"#,
    )
}
