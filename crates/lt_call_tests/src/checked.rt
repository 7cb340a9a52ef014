//! Traces that are checked.

use crate::rows::check_rows;
use std::test::Fail;

#[test]
fn a_check_ends_by_what_is_said_of_the_trace(rt: HostRuntime) -> Result<(), Fail> {
    check_rows(
        &rt,
        "files 2",
        12,
        r##"
## a legal trace is told with the number of its steps
$ check f --replay t

f is node n() returns (x: int [0;3]) = { |1: x = 1 |1: x = 2 }
t is "#seed 0\n#inputs "x":int\n#outputs\n#locals\n#step 1\n2 #outs #locs\n#end normal 1\n"
> legal 1

f is node n() returns (x: int [0;3]) = loop x < 3
t is "#seed 0\n#inputs "x":int\n#outputs\n#locals\n#end limit 0\n"
> legal 0

f is node n() returns (x: int [0;3]) = loop x < 3
t is "#seed 9\n#draw 3\n#inputs "x":int\n#outputs\n#locals\n#step 1\n2 #outs #locs\n#step 2\n0 #outs #locs\n#end limit 2\n"
> legal 2

-- The trace has the inputs, so no controller is needed.
f is node n(y: int [5;9]) returns (x: int [0;9]) = loop { exist v: int [0;9] in x = y and v = x }
t is "#seed 0\n#inputs "x":int\n#outputs "y":int\n#locals "v.1":int\n#step 1\n5 #outs 7 #locs 5\n#step 2\n7 #outs 8 #locs 7\n#end limit 2\n"
> legal 2

## a trace that no run writes is told with the step
$ check f --replay t

f is node n() returns (x: int [0;3]) = { x = 1 |> x = 2 }
t is "#seed 0\n#inputs "x":int\n#outputs\n#locals\n#step 1\n2 #outs #locs\n#end normal 1\n"
= 12 lurette: illegal 1

-- The end line counts as one more step.
f is node n() returns (x: int [0;3]) = x = 1 fby x = 2
t is "#seed 0\n#inputs "x":int\n#outputs\n#locals\n#step 1\n1 #outs #locs\n#end normal 1\n"
= 12 lurette: illegal 2

-- In the second instant x has to be the 7 that was answered in the first one.
f is node n(y: int [5;9]) returns (x: int [0;9]) = loop { exist v: int [0;9] in x = y and v = x }
t is "#seed 0\n#inputs "x":int\n#outputs "y":int\n#locals "v.1":int\n#step 1\n5 #outs 7 #locs 5\n#step 2\n8 #outs 8 #locs 8\n#end limit 2\n"
= 12 lurette: illegal 2

## a text that is no trace is refused with its line
$ check f --replay t
f is node n() returns (x: int [0;3]) = { |1: x = 1 |1: x = 2 }

t is "#seed 0\n#inputs "x":int\n#outputs\n#locals\n#step 1\n2 #outs #locs\n"
= 3 lurette: refused check.BadLine at 7

t is ""
= 3 lurette: refused check.BadLine at 1

-- A run without `--locals` writes no line for them.
t is "#seed 0\n#inputs "x":int\n#outputs\n#step 1\n2 #outs\n#end normal 1\n"
= 3 lurette: refused check.BadLine at 4

t is "#seed 0\n#inputs "x":int\n#outputs\n#locals\n#step 1\n02 #outs #locs\n#end normal 1\n"
= 3 lurette: refused check.BadLine at 6

t is "#seed 0\n#inputs "x":int\n#outputs\n#locals\n#step 1\n2 #outs #locs\n#end normal 1\n\n"
= 3 lurette: refused check.BadLine at 8
"##,
    )
}

#[test]
fn a_check_ends_where_a_trace_leaves_too_many_candidates(rt: HostRuntime) -> Result<(), Fail> {
    check_rows(
        &rt,
        "files 2",
        1,
        r##"
-- Each of three sides has one of 17 constraints left: 4,913 of them are over 4,096.
$ check f --replay t
f is let c (i: int): trace = { | true fby i = 0 | true fby i = 1 | true fby i = 2 | true fby i = 3 | true fby i = 4 | true fby i = 5 | true fby i = 6 | true fby i = 7 | true fby i = 8 | true fby i = 9 | true fby i = 10 | true fby i = 11 | true fby i = 12 | true fby i = 13 | true fby i = 14 | true fby i = 15 | true fby i = 16 } node n() returns (x, y, z: int [0;99]) = { &> c(x) &> c(y) &> c(z) }
t is "#seed 0\n#inputs "x":int "y":int "z":int\n#outputs\n#locals\n#step 1\n1 2 3 #outs #locs\n#end limit 1\n"
= 13 lurette: candidates 1
"##,
    )
}

#[test]
fn a_check_ends_where_a_search_is_given_up(rt: HostRuntime) -> Result<(), Fail> {
    check_rows(
        &rt,
        "files 2",
        3,
        r##"
## a search that is given up is told with its need and the step
-- It has to be known whether ten numbers of nine values can all differ: a search that needs 180 * 11 * 3^45.
$ check f --replay t
f is node n() returns (a, b, c, d, e, f, g, h, i, j: int [1;9]) = { a <> b and a <> c and a <> d and a <> e and a <> f and a <> g and a <> h and a <> i and a <> j and b <> c and b <> d and b <> e and b <> f and b <> g and b <> h and b <> i and b <> j and c <> d and c <> e and c <> f and c <> g and c <> h and c <> i and c <> j and d <> e and d <> f and d <> g and d <> h and d <> i and d <> j and e <> f and e <> g and e <> h and e <> i and e <> j and f <> g and f <> h and f <> i and f <> j and g <> h and g <> i and g <> j and h <> i and h <> j and i <> j |> a = 1 }

t is "#seed 0\n#inputs "a":int "b":int "c":int "d":int "e":int "f":int "g":int "h":int "i":int "j":int\n#outputs\n#locals\n#step 1\n1 1 1 1 1 1 1 1 1 1 #outs #locs\n#end limit 1\n"
= 10 lurette: budget 5849539158970650723313140 1

-- Nothing has to be known where no step is shown, or none that the right side makes.
t is "#seed 0\n#inputs "a":int "b":int "c":int "d":int "e":int "f":int "g":int "h":int "i":int "j":int\n#outputs\n#locals\n#end limit 0\n"
> legal 0

t is "#seed 0\n#inputs "a":int "b":int "c":int "d":int "e":int "f":int "g":int "h":int "i":int "j":int\n#outputs\n#locals\n#step 1\n2 1 1 1 1 1 1 1 1 1 #outs #locs\n#end limit 1\n"
= 12 lurette: illegal 1
"##,
    )
}

#[test]
fn a_check_reads_its_own_options(rt: HostRuntime) -> Result<(), Fail> {
    check_rows(
        &rt,
        "",
        13,
        r##"
## the decimals and the node are those that are asked for
f is node n() returns (b: bool) = b
f is node m() returns (r: real [0.0;1.0]) = r = 0.25
t is "#seed 0\n#inputs "r":real\n#outputs\n#locals\n#step 1\n0.3 #outs #locs\n#end normal 1\n"
files 2

-- With one decimal 0.25 is 0.3.
$ check f --replay t --node m --precision 1
> legal 1

$ check f --replay t --node m
= 3 lurette: refused check.BadLine at 6

$ check f --replay t --precision 1
= 3 lurette: refused check.BadLine at 2

## the other options change nothing, and no program is started
f is node n() returns (x: int [0;3]) = { |1: x = 1 |1: x = 2 }
t is "#seed 0\n#inputs "x":int\n#outputs\n#locals\n#step 1\n2 #outs #locs\n#end normal 1\n"
c says "7 8 "
> legal 1
files 2

$ check f --replay t --sut c --oracle c

$ check f --replay t -l 0 --seed 5 --draw 2 --locals

$ check f --replay t --sut nobody

$ check --budget 1 --replay=t -- f

## a check without a trace isn't made
f is node n() returns (b: bool) = b
= 2 lurette: usage: trace\nlurette MODE FILE [-l N] [--seed N] [--precision N] [--budget N] [--node NAME] [--sut CMD] [--oracle CMD] [--replay FILE] [--locals] [--draw N] [--count N]
files 0

$ check f

$ check f --sut c --oracle o --locals

-- No file is asked for, so it may be missing.
$ check nothing

## other kinds come first
f is node n() returns (b: bool) = b
files 0

$ check f --replay
= 2 lurette: usage: words\nlurette MODE FILE [-l N] [--seed N] [--precision N] [--budget N] [--node NAME] [--sut CMD] [--oracle CMD] [--replay FILE] [--locals] [--draw N] [--count N]

$ check
= 2 lurette: usage: words\nlurette MODE FILE [-l N] [--seed N] [--precision N] [--budget N] [--node NAME] [--sut CMD] [--oracle CMD] [--replay FILE] [--locals] [--draw N] [--count N]

$ checks f
= 2 lurette: usage: mode\nlurette MODE FILE [-l N] [--seed N] [--precision N] [--budget N] [--node NAME] [--sut CMD] [--oracle CMD] [--replay FILE] [--locals] [--draw N] [--count N]
"##,
    )
}

#[test]
fn a_scenario_is_refused_before_its_trace_is_read(rt: HostRuntime) -> Result<(), Fail> {
    check_rows(
        &rt,
        "$ check f --replay t",
        9,
        r##"
## there is no file of the trace, and it isn't asked for

f is node n() returns (b: bool) = b & b
= 3 lurette: refused lex.BadByte at 31

f is node n() returns (b: bool) = run
= 3 lurette: refused parse.Unexpected at 32

f is node n() returns (b: bool) = c
= 3 lurette: refused type.Unknown at 29

$ --node m
f is node n() returns (b: bool) = b
= 3 lurette: refused expand.UnknownNode

f is node n() returns (x, y: int [0;3]) = x * y = 2
= 3 lurette: refused expand.NonLinear at 37

f is node n() returns (a, b, c, d, e, f, g, h, i, j, k, l, m, n, o, p, q: bool) = a or b or c or d or e or f or g or h or i or j or k or l or m or n or o or p or q
= 3 lurette: refused run.TooManyAtoms

-- There is no controller either, and that isn't judged.
f is node z(u: bool) returns (a, b, c, d, e, f, g, h, i, j, k, l, m, n, o, p, q: bool) = a or b or c or d or e or f or g or h or i or j or k or l or m or n or o or p or q
= 3 lurette: refused run.TooManyAtoms

## then the trace is read
f is node n(u: bool) returns (b: bool) = loop b
files 2

= 9 lurette: device file 0

t is "#seed 0\n"
$ --sut q
= 3 lurette: refused check.BadLine at 2
"##,
    )
}

#[test]
fn what_fails_outside_ends_a_check(rt: HostRuntime) -> Result<(), Fail> {
    check_rows(
        &rt,
        "$ check f --replay t",
        15,
        r##"
## a file that can't be read
f is node n() returns (b: bool) = b
t is "#seed 0\n#inputs "b":bool\n#outputs\n#locals\n#step 1\nt #outs #locs\n#end normal 1\n"
= 9 lurette: device file 0

reads fail 0
files 1

reads fail 1
files 2

## the line of a legal trace may not be written, or not all of it
f is node n() returns (b: bool) = b
t is "#seed 0\n#inputs "b":bool\n#outputs\n#locals\n#step 1\nt #outs #locs\n#end normal 1\n"
files 2
> legal 1

trace holds 0 to 7
= 9 lurette: device trace 0

trace holds 8

trace cuts 1 1 1 1 1 1 1 1

trace cuts 0 3 0 0 2

## nothing is there where the first write fails
f is node n() returns (b: bool) = b
t is "#seed 0\n#inputs "b":bool\n#outputs\n#locals\n#step 1\nt #outs #locs\n#end normal 1\n"
files 2
= 9 lurette: device trace 0

writes fail 0

## a piece is there where a later one fails
f is node n() returns (b: bool) = b
t is "#seed 0\n#inputs "b":bool\n#outputs\n#locals\n#step 1\nt #outs #locs\n#end normal 1\n"
files 2
= 9 lurette: device trace 0

trace cuts 3
writes fail 1
trace holds 3
> legal 1

-- It was said in vain.
trace holds 3
> legal 1
says fails 0
= 9

## of another trace nothing is written, so no write fails
f is node n() returns (b: bool) = b
writes fail 0
trace holds 0
files 2

t is "#seed 0\n#inputs "b":bool\n#outputs\n#locals\n#step 1\nf #outs #locs\n#end normal 1\n"
= 12 lurette: illegal 1

t is "#seed 0\n#inputs "b":bool\n#outputs\n#locals\n#step 1\nt #outs #locs\n"
= 3 lurette: refused check.BadLine at 7

t is "#seed 0\n#inputs "b":bool\n#outputs\n#locals\n#step 1\nt #outs #locs\n#end deadlock 2\n"
= 12 lurette: illegal 2

## a line that can't be said changes neither status nor trace
f is node n() returns (b: bool) = b
says fails 0
files 2

t is "#seed 0\n#inputs "b":bool\n#outputs\n#locals\n#step 1\nt #outs #locs\n#end normal 1\n"
> legal 1

t is "#seed 0\n#inputs "b":bool\n#outputs\n#locals\n#step 1\nf #outs #locs\n#end normal 1\n"
= 12

t is "#seed 0\n"
= 3
"##,
    )
}
