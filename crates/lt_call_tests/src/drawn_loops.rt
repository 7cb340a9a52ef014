//! Runs that are drawn by a seed, beside programs. What comes of them was worked out apart, from the rules alone.

use crate::rows::check_rows;
use std::test::Fail;

#[test]
fn drawn_values_go_to_programs_and_replies_come_back(rt: HostRuntime) -> Result<(), Fail> {
    check_rows(
        &rt,
        "",
        6,
        r##"
## drawn values go to controllers

$ run f -l 3 --seed 2616886233101442912 --sut c --oracle o
f is node n(i: int) returns (x: int [-18;8]) = loop { x >= i }
c says "# c\n1 0\n4\n+2\n"
o says "1\ntrue\nt\n"
> #seed 2616886233101442912\n#inputs "x":int\n#outputs "i":int
> #step 1\n0 #outs 1
> #step 2\n1 #outs 0
> #step 3\n0 #outs 4
> #end limit 3
c got "0\n1\n0\n"
o got "0 1\n1 0\n0 4\n"

## a late reply to drawn values is malformed

$ run f -l 3 --seed 4 --locals --sut c
f is node n(a, b: int; c, d: int = -3) returns (x: int [-3;12] = -3; y, z: int [-2;-2]) = loop { loop { 2 * y <> (-2) } }
c says "+2\t1\t0\t1\r\n3 #outs -3 #outs -5 #outs -4\n4\t1\t-4\t-"
> #seed 4\n#inputs "x":int "y":int "z":int\n#outputs "a":int "b":int "c":int "d":int\n#locals
> #step 1\n10 -2 -2 #outs 2 1 0 1 #locs
> #step 2\n1 -2 -2 #outs 3 -3 -5 -4 #locs
> #end malformed controller NotAValue 3
= 7 lurette: malformed controller NotAValue 3 at 46
c got "10 -2 -2\n1 -2 -2\n10 -2 -2\n"

## a reply out of its range is malformed

$ run f -l 4 --precision 0 --seed 13 --sut c
f is node n(y: real [-2.00;2.00]; z: int [0;5]) returns (x: bool) = loop true
c says "\t-- #outs\n \n 1.005 000000000000000005\n.5  \r\n#outs# \n  0\r\n -- #outs\n0e999 -9 \n "
> #seed 13\n#inputs "x":bool\n#outputs "y":real "z":int
> #step 1\nt #outs 1 5
> #step 2\nf #outs 1 0
> #end malformed controller OutOfRange 3
= 7 lurette: malformed controller OutOfRange 3 at 73
c got "t\nf\nt\n"

## drawn values go to oracles

$ run f -l 12 --seed 1 --oracle o
f is node n() returns (b: bool; x: int [1;2]) = loop { loop [3,3 + 1] b }
o says "1 1 t\n1\n1 f t t\nt true\nt\nt "
> #seed 1\n#inputs "b":bool "x":int\n#outputs
> #step 1\nt 1 #outs\n#step 2\nt 2 #outs\n#step 3\nt 2 #outs
> #step 4\nt 1 #outs\n#step 5\nt 2 #outs\n#step 6\nt 1 #outs
> #end oracle 6
= 1 lurette: oracle 6
o got "t 1\nt 2\nt 2\nt 1\nt 2\nt 1\n"

$ run f -l 6 --precision 0 --seed 48 --oracle o
f is node n() returns (x: real [-0.02;0.03]) = loop true
o says "T\r\nt\nt\r\nt\r\nt\n"
> #seed 48\n#inputs "x":real\n#outputs
> #step 1\n0 #outs\n#step 2\n0 #outs\n#step 3\n0 #outs\n#step 4\n0 #outs\n#step 5\n0 #outs
> #end ended oracle 6
= 8 lurette: ended oracle 6
o got "0\n0\n0\n0\n0\n0\n"

## an earlier trace is set freely

$ run f -l 3 --seed 99 --replay t
f is node n(y: real; b: bool; z: real) returns (a: bool; x: int [-2;3]) = loop true
t is "F\r\n\t000000000000000005 \n 000.500\rtrue\t1E+0\r\n\r--\nfalse\r5\n0 \n 0\n  -- c\n0\nt  007\t \n #step 1\n1e1  \n#outs# \n  F\n \n 0.005\n"
> #seed 99\n#inputs "a":bool "x":int\n#outputs "y":real "b":bool "z":real
> #step 1\nf -2 #outs 0.50 t 1.00
> #step 2\nt 1 #outs 0.00 f 0.00
> #step 3\nt 1 #outs 10.00 f 0.01
> #end limit 3
files 2
"##,
    )
}
