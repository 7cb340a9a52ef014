//! Runs against a controller, and before an oracle.

use crate::rows::check_rows;
use std::test::Fail;

#[test]
fn runs_are_played_beside_programs(rt: HostRuntime) -> Result<(), Fail> {
    check_rows(
        &rt,
        "",
        18,
        r#"
## a number may come in two pieces
f is node n(y: int) returns (x: int [0;3]) = loop x = 1
> #seed 0\n#inputs "x":int\n#outputs "y":int

$ run f -l 1 --sut c
c says "12 "
> #step 1\n1 #outs 12\n#end limit 1
c got "1\n"

$ run f -l 1 --sut c
c says "12 "
c cuts 1 2
> #step 1\n1 #outs 12\n#end limit 1
c got "1\n"

## replies are set freely
f is node n(y: int [5;9]) returns (x: int [0;9]) = loop x = y
> #seed 0\n#inputs "x":int\n#outputs "y":int
$ run f --sut c -l 2
> #step 1\n5 #outs 7\n#step 2\n7 #outs 8\n#end limit 2
c got "5\n7\n"

c says "7\n8\n"

c says "7 8"

c says "\t7\r\n\n+8 "

c says "-- ready 5\n#step 1\n7 #outs\n08\n9\n"

c says "7 -- 5 6\n8 x"

## truths and reals go both ways

$ run f --sut c --oracle o
f is node n(h: bool; r: real [0.0;10.0]) returns (b: bool; q: real [0.0;10.0]) = loop b = h and q = r
c says "T 2.5\n0 1e-1\ntrue +.005"
o says "1\nT\nfalse"
> #seed 0\n#inputs "b":bool "q":real\n#outputs "h":bool "r":real
> #step 1\nf 0.00 #outs t 2.50
> #step 2\nt 2.50 #outs f 0.10
> #step 3\nf 0.10 #outs t 0.01
> #end oracle 3
= 1 lurette: oracle 3
c got "f 0.00\nt 2.50\nf 0.10\n"
o got "f 0.00 t 2.50\nt 2.50 f 0.10\nf 0.10 t 0.01\n"

## an input begins with the value of its range nearest zero
-- A controller that says nothing shows the first output in what it is sent.
$ run f --sut c
c says ""
> #seed 0\n#inputs "x":int\n#outputs "y":int
> #end ended controller 1
= 8 lurette: ended controller 1

f is node n(y: int [5;9]) returns (x: int [-9;9]) = loop x = y
c got "5\n"

f is node n(y: int [-9;-5]) returns (x: int [-9;9]) = loop x = y
c got "-5\n"

## an input begins with its first value
-- A controller that says nothing shows the first output in what it is sent.
$ run f --sut c
c says ""
> #seed 0\n#inputs "x":int\n#outputs "y":int
> #end ended controller 1
= 8 lurette: ended controller 1

f is node n(y: int [-3;4]) returns (x: int [-9;9]) = loop x = y
c got "0\n"

f is node n(y: int [0;9] = 4) returns (x: int [-9;9]) = loop x = y
c got "4\n"

## a controller may have nothing to say
$ run f --sut c -l 2
c says ""

f is node n() returns (x: int [0;3]) = loop x = 1
> #seed 0\n#inputs "x":int\n#outputs
> #step 1\n1 #outs\n#step 2\n1 #outs\n#end limit 2
c got "1\n1\n"

f is node n() returns () = loop true
> #seed 0\n#inputs\n#outputs
> #step 1\n#outs\n#step 2\n#outs\n#end limit 2
c got "\n\n"

## the controller is started first
f is node n(y: int [5;9]) returns (x: int [0;9]) = loop x = y
> #seed 0\n#inputs "x":int\n#outputs "y":int

-- After `=` a command may begin with a dash.
$ run f --oracle ./an\soracle --sut=--sut -l 1
./an\soracle says "t "
--sut says "7 "
> #step 1\n5 #outs 7\n#end limit 1
--sut got "5\n"
./an\soracle got "5 7\n"

## a program is started for a run alone
f is node n(b: bool) returns (c: bool) = c
c says "7 "
o says "t "

$ print f --sut c --oracle o --locals
> node n ( b : bool ) returns ( c : bool ) = c

-- An oracle gives no values.
$ run f --oracle o
= 3 lurette: refused run.NeedsController

$ run f --sut c --oracle o --node m
= 3 lurette: refused expand.UnknownNode
"#,
    )
}

const PIECES: &str = r#"
## pieces of any length make the same trace
f is node n(y: int [5;9]) returns (x: int [0;9]) = loop x = y
> #seed 0\n#inputs "x":int\n#outputs "y":int
$ run f --sut c --oracle o -l 2
c says "7\n8\n"
o says "t t "
> #step 1\n5 #outs 7\n#step 2\n7 #outs 8\n#end limit 2
c got "5\n7\n"
o got "5 7\n7 8\n"

-- Whole.

c cuts 1 1 1 1 1 1 1 1

c cuts 2 2 2

c cuts 3 1

c cuts 1 4096

c cuts 0 3
"#;

#[test]
fn pieces_of_any_length_make_the_same_trace(rt: HostRuntime) -> Result<(), Fail> {
    for oracle in [
        "",
        "o cuts 1 1 1 1 1 1 1 1",
        "o cuts 2 2 2",
        "o cuts 3 1",
        "o cuts 1 4096",
        "o cuts 0 3",
    ] {
        check_rows(&rt, oracle, 6, PIECES)?;
    }
    Ok(())
}

const VERDICTS: &str = r#"
## a false verdict ends a run
f is node n() returns (x: int [0;3]) = loop x = 1
> #seed 0\n#inputs "x":int\n#outputs
o says "t f "

$ run f --oracle o
> #step 1\n1 #outs\n#step 2\n1 #outs\n#end oracle 2
= 1 lurette: oracle 2
o got "1\n1\n"

## a false verdict ends a run beside a controller
f is node n(y: int [5;9]) returns (x: int [0;9]) = loop x = y
> #seed 0\n#inputs "x":int\n#outputs "y":int
o says "t f "

$ run f --oracle o --sut c
c says "7 8 9 "
> #step 1\n5 #outs 7\n#step 2\n7 #outs 8\n#end oracle 2
= 1 lurette: oracle 2
c got "5\n7\n"
o got "5 7\n7 8\n"

-- The last step that is allowed is judged too.
$ run f --oracle o --sut c -l 2
c says "7 8 9 "
> #step 1\n5 #outs 7\n#step 2\n7 #outs 8\n#end oracle 2
= 1 lurette: oracle 2
c got "5\n7\n"
o got "5 7\n7 8\n"
"#;

#[test]
fn a_false_verdict_ends_a_run(rt: HostRuntime) -> Result<(), Fail> {
    check_rows(&rt, "", 3, VERDICTS)?;
    check_rows(&rt, "o cuts 1 1 1 1", 3, VERDICTS)
}
