//! The variables of a scenario, and which node it is the scenario of.

use crate::found::Asked;
use crate::rows::{WHOLE, check};
use std::test::Fail;

// Nodes with inputs (`<`) and outputs (`>`), at two decimals.
const NODES: &str = "\
node n() returns () = true ==> n: true
node n() returns (x, n: bool) = true ==> n > x: bool [0;1] > n: bool [0;1]: true
node n() returns (i: int; r: real) = true ==> n > i: int [-10000;10000] > r: real [-10000;10000]: true
node n(a: bool; i: int; r: real) returns () = true ==> n < a: bool [0;1] < i: int [-1000000000000;1000000000000] < r: real [-1000000000000;1000000000000]: true
node n(i: int [5;9] = 7) returns (r: real [-0.5;1.005] = 0.25) = true ==> n < i: int [5;9] = 7 > r: real [-50;101] = 25u: true
node n(a, b: bool = true) returns (x, y: int [0;3] = 1 + 1) = true ==> n < a: bool [0;1] = true < b: bool [0;1] = true > x: int [0;3] = 2 > y: int [0;3] = 2: true
node n(i: int) returns (x: int [0;9;3] = 6; y, z: real [-1.0;0.99;0.25]; b: bool) = true ==> n < i: int [-1000000000000;1000000000000] > x: int [0;9;3] = 6 > y: real [-100;99;25] > z: real [-100;99;25] > b: bool [0;1]: true
node n() returns (x: int [0;9;1]; r: real [0.0;1.0;0.005]) = exist u: int [0;3;9] = 0 in true ==> n > x: int [0;9] > r: real [0;100]: (exist 0 in true); u.1: int [0;3;9] = 0
let k: int = 4 node n(i: int = k) returns (j: int = -k) = true ==> n < i: int [-1000000000000;1000000000000] = 4 > j: int [-10000;10000] = -4: true
node n() returns (r: real [-1.0;0.0] = -0.005) = true ==> n > r: real [-100;0] = -1u: true
let i: int = 3 node n(i: int) returns (j: int [0;9] = 1 + 2; b: bool = 1 < 2) = true ==> n < i: int [-1000000000000;1000000000000] > j: int [0;9] = 3 > b: bool [0;1] = true: true";

// One without decimals.
const ROUGH: &str = "\
node n() returns (r: real [-0.5;1.4] = 0.5; i: int [0;5] = 7 / 2) = true ==> n > r: real [-1;1] = 1u > i: int [0;5] = 3: true";

// One with six of them.
const FINE: &str = "\
node n() returns (r: real [-0.5;1.4] = 2.0 / 3.0; i: int [0;5] = 7 / 2) = true ==> n > r: real [-500000;1400000] = 666667u > i: int [0;5] = 3: true";

#[test]
fn variables_have_kinds_ranges_and_first_values(rt: HostRuntime) -> Result<(), Fail> {
    check(&rt, rt.alloc(), Asked::Scenario, WHOLE, NODES)?;
    check(&rt, rt.alloc(), Asked::RoughScenario, WHOLE, ROUGH)?;
    check(&rt, rt.alloc(), Asked::FineScenario, WHOLE, FINE)
}

// A text whose second node has no scenario, and whose third one sees more macros than the first.
const SEVERAL: &str = "node n() returns (b: bool) = b
let m: bool = true
node bad() returns (b: bool) = loop [2,1] b
let k: bool = not m
node m() returns (c: bool) = k";

// The first node, and nodes that are asked for by their names.
const ASKED: &str = "\
-- No name is asked for.
 ==> n > b: bool [0;1]: b
-- One is.
 asked for n ==> n > b: bool [0;1]: b
 asked for m ==> m > c: bool [0;1]: (not true)
 asked for k ==> UnknownNode
 asked for  ==> UnknownNode
 asked for N ==> UnknownNode
 asked for nn ==> UnknownNode
 asked for b ==> UnknownNode";

#[test]
fn the_node_that_is_asked_for_is_answered(rt: HostRuntime) -> Result<(), Fail> {
    check(&rt, rt.alloc(), Asked::Scenario, SEVERAL, ASKED)
}
