//! Campaigns: many runs of a scenario, side by side.
//!
//! In the first round a session puts out its header, and in the second one it makes its first instant. Without programs it has a
//! step in each round from then on. Beside a controller it sends a line in one round, and reads a reply in the next.

use crate::rows::check_rows;
use std::test::Fail;

#[test]
fn sessions_go_in_rounds(rt: HostRuntime) -> Result<(), Fail> {
    check_rows(
        &rt,
        "",
        8,
        r#"
## each session has a header, a step and an end line in one round
$ campaign f -l 1 --count 2
f is node n() returns (x: int [0;3]) = loop x = 1

> #from 0 33\n#seed 0\n#inputs "x":int\n#outputs
> #from 1 33\n#seed 1\n#inputs "x":int\n#outputs
> #from 0 16\n#step 1\n1 #outs
> #from 1 16\n#step 1\n1 #outs
> #from 0 13\n#end limit 1
> #from 1 13\n#end limit 1
> #campaign 2 ended 2

-- A trace that takes a byte at a time gets the same.
> #from 0 33\n#seed 0\n#inputs "x":int\n#outputs
> #from 1 33\n#seed 1\n#inputs "x":int\n#outputs
> #from 0 16\n#step 1\n1 #outs
> #from 1 16\n#step 1\n1 #outs
> #from 0 13\n#end limit 1
> #from 1 13\n#end limit 1
> #campaign 2 ended 2
trace cuts 1 1 1 1 1 1 1 1 1 1 1 1 1 1 1 1 1 1 1 1 1 1 1 1 1 1 1 1 1 1 1 1 1 1 1 1 1 1 1 1 1 1 1 1 1 1 1 1 1 1 1 1 1 1 1 1 1 1 1 1 1 1 1 1 1 1 1 1 1 1 1 1 1 1 1 1 1 1 1 1 1 1 1 1 1 1 1 1 1 1 1 1 1 1 1 1 1 1 1 1 1 1 1 1 1 1 1 1 1 1 1 1 1 1 1 1 1 1 1 1 1 1 1 1 1 1 1 1 1 1 1 1 1 1 1 1 1 1 1 1 1 1 1 1 1 1 1 1 1 1 1 1 1 1 1 1 1 1 1 1 1 1 1 1 1 1 1 1 1 1 1 1 1 1 1 1 1 1 1 1 1 1 1 1 1 1 1 1 1 1 1 1 1 1 1 1 1 1 1 1 1 1 1 1 1 1 1 1 1 1

## a session that is over has no part in further rounds
-- In its first instant session 0 draws the trace that ends, and session 1 the one that goes on.
$ campaign f -l 2 --count 2
f is node n() returns (b: bool) = { | loop b | b }
> #from 0 34\n#seed 0\n#inputs "b":bool\n#outputs
> #from 1 34\n#seed 1\n#inputs "b":bool\n#outputs
> #from 0 16\n#step 1\nt #outs
> #from 1 16\n#step 1\nt #outs
> #from 0 14\n#end normal 1
> #from 1 16\n#step 2\nt #outs
> #from 1 13\n#end limit 2
> #campaign 2 ended 2

## a campaign has one session if no other number is asked for
f is node n() returns (x: int [0;3]) = loop x = 1
> #from 0 33\n#seed 0\n#inputs "x":int\n#outputs
> #from 0 13\n#end limit 0
> #campaign 1 ended 1

$ campaign f -l 0

$ --count 1 campaign -l 0 f

$ campaign f --count=+01 -l0

## the scenario may be over in all of them
$ campaign f --count 3
f is node n() returns (b: bool) = b fby not b
> #from 0 34\n#seed 0\n#inputs "b":bool\n#outputs
> #from 1 34\n#seed 1\n#inputs "b":bool\n#outputs
> #from 2 34\n#seed 2\n#inputs "b":bool\n#outputs
> #from 0 16\n#step 1\nt #outs
> #from 1 16\n#step 1\nt #outs
> #from 2 16\n#step 1\nt #outs
> #from 0 16\n#step 2\nf #outs
> #from 1 16\n#step 2\nf #outs
> #from 2 16\n#step 2\nf #outs
> #from 0 14\n#end normal 2
> #from 1 14\n#end normal 2
> #from 2 14\n#end normal 2
> #campaign 3 ended 3

## the seed goes up by one, and on from 0 after the greatest
f is node n() returns (x: int [0;3]) = loop x = 1

$ campaign f -l 0 --count 3 --seed 9
> #from 0 33\n#seed 9\n#inputs "x":int\n#outputs
> #from 1 34\n#seed 10\n#inputs "x":int\n#outputs
> #from 2 34\n#seed 11\n#inputs "x":int\n#outputs
> #from 0 13\n#end limit 0
> #from 1 13\n#end limit 0
> #from 2 13\n#end limit 0
> #campaign 3 ended 3

$ campaign f -l 0 --count 3 --seed 18446744073709551614
> #from 0 52\n#seed 18446744073709551614\n#inputs "x":int\n#outputs
> #from 1 52\n#seed 18446744073709551615\n#inputs "x":int\n#outputs
> #from 2 33\n#seed 0\n#inputs "x":int\n#outputs
> #from 0 13\n#end limit 0
> #from 1 13\n#end limit 0
> #from 2 13\n#end limit 0
> #campaign 3 ended 3

## the other options are the same for all of them
f is node n() returns (b: bool) = b
f is node m() returns (r: real [0.0;1.0]) = exist v: bool in r = 0.25 and v

-- With one decimal 0.25 is 0.3.
$ campaign f --count 2 --node m --precision 1 --locals --draw 3 --seed 7
> #from 0 61\n#seed 7\n#draw 3\n#inputs "r":real\n#outputs\n#locals "v.1":bool
> #from 1 61\n#seed 8\n#draw 3\n#inputs "r":real\n#outputs\n#locals "v.1":bool
> #from 0 26\n#step 1\n0.3 #outs #locs t
> #from 1 26\n#step 1\n0.3 #outs #locs t
> #from 0 14\n#end normal 1
> #from 1 14\n#end normal 1
> #campaign 2 ended 2
"#,
    )
}

#[test]
fn the_first_session_that_ends_badly_is_told(rt: HostRuntime) -> Result<(), Fail> {
    check_rows(
        &rt,
        "",
        9,
        r#"
## a session that ends badly has its words told
$ campaign f --count 2

f is exception Alarm node n() returns (x: int [0;3]) = { &> loop x = 1 &> raise Alarm }
> #from 0 33\n#seed 0\n#inputs "x":int\n#outputs
> #from 1 33\n#seed 1\n#inputs "x":int\n#outputs
> #from 0 19\n#end raise Alarm 1
> #from 1 19\n#end raise Alarm 1
> #campaign 2 ended 0
= 5 lurette: session 0: raise Alarm 1

f is node n() returns (x: int [0;3]) = x = 1 fby x > 3
> #from 0 33\n#seed 0\n#inputs "x":int\n#outputs
> #from 1 33\n#seed 1\n#inputs "x":int\n#outputs
> #from 0 16\n#step 1\n1 #outs
> #from 1 16\n#step 1\n1 #outs
> #from 0 16\n#end deadlock 2
> #from 1 16\n#end deadlock 2
> #campaign 2 ended 0
= 4 lurette: session 0: deadlock 2

f is node n() returns (x: int [0;3]) = x = 1 div 0
> #from 0 33\n#seed 0\n#inputs "x":int\n#outputs
> #from 1 33\n#seed 1\n#inputs "x":int\n#outputs
> #from 0 28\n#end fault DivisionByZero 1
> #from 1 28\n#end fault DivisionByZero 1
> #campaign 2 ended 0
= 6 lurette: session 0: fault DivisionByZero 1

f is node n() returns (b: bool) = {<<59 times  &> { |1: b |1: b }>> &> { |1: b |1: b } }
> #from 0 34\n#seed 0\n#inputs "b":bool\n#outputs
> #from 1 34\n#seed 1\n#inputs "b":bool\n#outputs
> #from 0 16\n#end toolarge 1
> #from 1 16\n#end toolarge 1
> #campaign 2 ended 0
= 14 lurette: session 0: toolarge 1

## a reply that is refused ends its own session alone
$ campaign f -l 1 --count 2 --sut c
f is node n(y: int) returns (x: int [0;3]) = loop x = 1
c got "1\n"
c got "1\n"

c says "12x\n"
c says "5\n"
> #from 0 41\n#seed 0\n#inputs "x":int\n#outputs "y":int
> #from 1 41\n#seed 1\n#inputs "x":int\n#outputs "y":int
> #from 0 38\n#end malformed controller NotAValue 1
> #from 1 18\n#step 1\n1 #outs 5
> #from 1 13\n#end limit 1
> #campaign 2 ended 1
= 7 lurette: session 0: malformed controller NotAValue 1 at 0

c says "5\n"
c says "12x\n"
> #from 0 41\n#seed 0\n#inputs "x":int\n#outputs "y":int
> #from 1 41\n#seed 1\n#inputs "x":int\n#outputs "y":int
> #from 0 18\n#step 1\n1 #outs 5
> #from 1 38\n#end malformed controller NotAValue 1
> #from 0 13\n#end limit 1
> #campaign 2 ended 1
= 7 lurette: session 1: malformed controller NotAValue 1 at 0

## the first by number is told, whichever ends first
f is node n(y: int) returns (x: int [0;3]) = loop x = 1

-- Session 1 ends in its first step, and session 0 in its second one. In one piece session 2 has both of its replies.
$ campaign f -l 2 --count 3 --sut c
c says "5\n"
c says "x\n"
c says "7 8 "
> #from 0 41\n#seed 0\n#inputs "x":int\n#outputs "y":int
> #from 1 41\n#seed 1\n#inputs "x":int\n#outputs "y":int
> #from 2 41\n#seed 2\n#inputs "x":int\n#outputs "y":int
> #from 0 18\n#step 1\n1 #outs 5
> #from 1 38\n#end malformed controller NotAValue 1
> #from 2 18\n#step 1\n1 #outs 7
> #from 0 24\n#end ended controller 2
> #from 2 18\n#step 2\n1 #outs 8
> #from 2 13\n#end limit 2
> #campaign 3 ended 1
= 8 lurette: session 0: ended controller 2
c got "1\n1\n"
c got "1\n"
c got "1\n1\n"

-- The sessions 0 and 1 end well. The reply of session 1 is whole once its stream has ended, which is an event of its own.
$ campaign f -l 1 --count 3 --sut c
c says "5\n"
c says "6"
c says "7.\n"
> #from 0 41\n#seed 0\n#inputs "x":int\n#outputs "y":int
> #from 1 41\n#seed 1\n#inputs "x":int\n#outputs "y":int
> #from 2 41\n#seed 2\n#inputs "x":int\n#outputs "y":int
> #from 0 18\n#step 1\n1 #outs 5
> #from 2 38\n#end malformed controller NotAValue 1
> #from 0 13\n#end limit 1
> #from 1 18\n#step 1\n1 #outs 6
> #from 1 13\n#end limit 1
> #campaign 3 ended 2
= 7 lurette: session 2: malformed controller NotAValue 1 at 0
c got "1\n"
c got "1\n"
c got "1\n"

c says "5 "
c says "9x "
c says ""
$ campaign f -l 1 --count 3 --sut c
> #from 0 41\n#seed 0\n#inputs "x":int\n#outputs "y":int
> #from 1 41\n#seed 1\n#inputs "x":int\n#outputs "y":int
> #from 2 41\n#seed 2\n#inputs "x":int\n#outputs "y":int
> #from 0 18\n#step 1\n1 #outs 5
> #from 1 38\n#end malformed controller NotAValue 1
> #from 2 24\n#end ended controller 1
> #from 0 13\n#end limit 1
> #campaign 3 ended 1
= 7 lurette: session 1: malformed controller NotAValue 1 at 0
c got "1\n"
c got "1\n"
c got "1\n"
"#,
    )
}

#[test]
fn sessions_whose_searches_are_given_up_are_told(rt: HostRuntime) -> Result<(), Fail> {
    check_rows(
        &rt,
        "",
        1,
        r#"
## each one ends by its own search
$ campaign f --count 2

-- Ten numbers of nine values are all to differ: that needs 180 * 11 * 3^45.
f is node n() returns (a, b, c, d, e, f, g, h, i, j: int [1;9]) = a = 1 and b = 1 and c = 1 and d = 1 and e = 1 and f = 1 and g = 1 and h = 1 and i = 1 and j = 1 fby a <> b and a <> c and a <> d and a <> e and a <> f and a <> g and a <> h and a <> i and a <> j and b <> c and b <> d and b <> e and b <> f and b <> g and b <> h and b <> i and b <> j and c <> d and c <> e and c <> f and c <> g and c <> h and c <> i and c <> j and d <> e and d <> f and d <> g and d <> h and d <> i and d <> j and e <> f and e <> g and e <> h and e <> i and e <> j and f <> g and f <> h and f <> i and f <> j and g <> h and g <> i and g <> j and h <> i and h <> j and i <> j
> #from 0 105\n#seed 0\n#inputs "a":int "b":int "c":int "d":int "e":int "f":int "g":int "h":int "i":int "j":int\n#outputs
> #from 1 105\n#seed 1\n#inputs "a":int "b":int "c":int "d":int "e":int "f":int "g":int "h":int "i":int "j":int\n#outputs
> #from 0 34\n#step 1\n1 1 1 1 1 1 1 1 1 1 #outs
> #from 1 34\n#step 1\n1 1 1 1 1 1 1 1 1 1 #outs
> #from 0 40\n#end budget 5849539158970650723313140 2
> #from 1 40\n#end budget 5849539158970650723313140 2
> #campaign 2 ended 0
= 10 lurette: session 0: budget 5849539158970650723313140 2
"#,
    )
}

#[test]
fn sessions_have_sides_of_their_own(rt: HostRuntime) -> Result<(), Fail> {
    check_rows(
        &rt,
        "",
        10,
        r#"
## a reply that comes in pieces takes as many rounds
$ campaign f -l 1 --count 2 --sut c
f is node n(y: int) returns (x: int [0;3]) = loop x = 1
c got "1\n"
c got "1\n"

-- One piece of the first and two of the second.
c says "5\n"
c says "6\n"
c 1 cuts 1
> #from 0 41\n#seed 0\n#inputs "x":int\n#outputs "y":int
> #from 1 41\n#seed 1\n#inputs "x":int\n#outputs "y":int
> #from 0 18\n#step 1\n1 #outs 5
> #from 0 13\n#end limit 1
> #from 1 18\n#step 1\n1 #outs 6
> #from 1 13\n#end limit 1
> #campaign 2 ended 2

-- Two of the first and one of the second.
c says "5\n"
c says "6\n"
c 0 cuts 1
> #from 0 41\n#seed 0\n#inputs "x":int\n#outputs "y":int
> #from 1 41\n#seed 1\n#inputs "x":int\n#outputs "y":int
> #from 1 18\n#step 1\n1 #outs 6
> #from 0 18\n#step 1\n1 #outs 5
> #from 1 13\n#end limit 1
> #from 0 13\n#end limit 1
> #campaign 2 ended 2

## the programs of a session are started before those of the next one, and its controller first
f is node n(y: int [5;9]) returns (x: int [0;9]) = loop x = y
> #from 0 41\n#seed 0\n#inputs "x":int\n#outputs "y":int
> #from 1 41\n#seed 1\n#inputs "x":int\n#outputs "y":int
> #from 0 18\n#step 1\n5 #outs 7
> #from 1 32\n#step 1\n5 #outs 8\n#end oracle 1
> #from 0 13\n#end limit 1
> #campaign 2 ended 1
= 1 lurette: session 1: oracle 1

$ campaign f -l 1 --count 2 --sut c --oracle o
c says "7\n"
o says "t "
c says "8\n"
o says "f "
c got "5\n"
o got "5 7\n"
c got "5\n"
o got "5 8\n"

-- One command may be that of both.
$ campaign f -l 1 --count 2 --sut c --oracle c
c says "7\n"
c says "t "
c says "8\n"
c says "f "
c got "5\n"
c got "5 7\n"
c got "5\n"
c got "5 8\n"

## a verdict that is false comes with its step
$ campaign f -l 2 --count 2 --oracle o
f is node n() returns (x: int [0;3]) = loop x = 1
o says "t f "
o says "t t "
> #from 0 33\n#seed 0\n#inputs "x":int\n#outputs
> #from 1 33\n#seed 1\n#inputs "x":int\n#outputs
> #from 0 16\n#step 1\n1 #outs
> #from 1 16\n#step 1\n1 #outs
> #from 0 30\n#step 2\n1 #outs\n#end oracle 2
> #from 1 16\n#step 2\n1 #outs
> #from 1 13\n#end limit 2
> #campaign 2 ended 1
= 1 lurette: session 0: oracle 2

o got "1\n1\n"
o got "1\n1\n"

## one earlier trace answers each session
$ campaign f -l 2 --count 2 --replay t
f is node n(y: int) returns (x: int [0;3]) = loop x = 1
files 2

t is "1 #outs 5\n1 #outs 6\n"
> #from 0 41\n#seed 0\n#inputs "x":int\n#outputs "y":int
> #from 1 41\n#seed 1\n#inputs "x":int\n#outputs "y":int
> #from 0 18\n#step 1\n1 #outs 5
> #from 1 18\n#step 1\n1 #outs 5
> #from 0 18\n#step 2\n1 #outs 6
> #from 1 18\n#step 2\n1 #outs 6
> #from 0 13\n#end limit 2
> #from 1 13\n#end limit 2
> #campaign 2 ended 2

t is "1 #outs 5\n"
> #from 0 41\n#seed 0\n#inputs "x":int\n#outputs "y":int
> #from 1 41\n#seed 1\n#inputs "x":int\n#outputs "y":int
> #from 0 18\n#step 1\n1 #outs 5
> #from 1 18\n#step 1\n1 #outs 5
> #from 0 24\n#end ended controller 2
> #from 1 24\n#end ended controller 2
> #campaign 2 ended 0
= 8 lurette: session 0: ended controller 2

t is "1 #outs 5\n1 #outs 6x\n"
> #from 0 41\n#seed 0\n#inputs "x":int\n#outputs "y":int
> #from 1 41\n#seed 1\n#inputs "x":int\n#outputs "y":int
> #from 0 18\n#step 1\n1 #outs 5
> #from 1 18\n#step 1\n1 #outs 5
> #from 0 38\n#end malformed controller NotAValue 2
> #from 1 38\n#end malformed controller NotAValue 2
> #campaign 2 ended 0
= 7 lurette: session 0: malformed controller NotAValue 2 at 18

## an earlier trace is read by 4096 bytes
-- Session 0 has its second step in the round in which session 1 has its first one, if both replies are among the first 4096
-- bytes, and else in the round after that.
$ campaign f -l 2 --count 2 --replay t --oracle o
f is node n(y: int) returns (x: int [0;3]) = loop x = 1
o says "t t "
o says " f "
o 1 cuts 1 1 1
o got "1 5\n1 6\n"
o got "1 5\n"
= 1 lurette: session 1: oracle 1
files 2

t is "1 #outs 5\n--<<4073 times x>>\n1 #outs 6\n"
> #from 0 41\n#seed 0\n#inputs "x":int\n#outputs "y":int
> #from 1 41\n#seed 1\n#inputs "x":int\n#outputs "y":int
> #from 0 18\n#step 1\n1 #outs 5
> #from 0 18\n#step 2\n1 #outs 6
> #from 1 32\n#step 1\n1 #outs 5\n#end oracle 1
> #from 0 13\n#end limit 2
> #campaign 2 ended 1

t is "1 #outs 5\n--<<4074 times x>>\n1 #outs 6\n"
> #from 0 41\n#seed 0\n#inputs "x":int\n#outputs "y":int
> #from 1 41\n#seed 1\n#inputs "x":int\n#outputs "y":int
> #from 0 18\n#step 1\n1 #outs 5
> #from 1 32\n#step 1\n1 #outs 5\n#end oracle 1
> #from 0 18\n#step 2\n1 #outs 6
> #from 0 13\n#end limit 2
> #campaign 2 ended 1
"#,
    )
}

#[test]
fn a_side_that_fails_ends_its_session(rt: HostRuntime) -> Result<(), Fail> {
    check_rows(
        &rt,
        "",
        10,
        r#"
## a line that cannot be sent ends the session in the next round
-- Session 1 has its first reply in the round in which session 0 is to send its second line.
$ campaign f -l 2 --count 2 --sut c
f is node n(y: int [5;9]) returns (x: int [0;9]) = loop x = y
c says "7\n"
c says "7 8 "
c 1 cuts 1 1
> #from 0 41\n#seed 0\n#inputs "x":int\n#outputs "y":int
> #from 1 41\n#seed 1\n#inputs "x":int\n#outputs "y":int
> #from 0 18\n#step 1\n5 #outs 7
> #from 1 18\n#step 1\n5 #outs 7
> #from 0 25\n#end device controller 2
> #from 1 18\n#step 2\n7 #outs 8
> #from 1 13\n#end limit 2
> #campaign 2 ended 1
= 9 lurette: session 0: device controller 2

c 0 fails 2
c got "5\n"
c got "5\n7\n"

-- There is room for half of the line.
c 0 holds 3
c got "5\n7"
c got "5\n7\n"

## what cannot be received ends the session in the same round
-- Session 1 has its first reply in that round.
$ campaign f -l 2 --count 2 --sut c
f is node n(y: int [5;9]) returns (x: int [0;9]) = loop x = y
c says "7\n"
c says " 7 8 "
c 1 cuts 1 1 1
> #from 0 41\n#seed 0\n#inputs "x":int\n#outputs "y":int
> #from 1 41\n#seed 1\n#inputs "x":int\n#outputs "y":int
> #from 0 18\n#step 1\n5 #outs 7
> #from 0 25\n#end device controller 2
> #from 1 18\n#step 1\n5 #outs 7
> #from 1 18\n#step 2\n7 #outs 8
> #from 1 13\n#end limit 2
> #campaign 2 ended 1
= 9 lurette: session 0: device controller 2

c 0 fails 3
c got "5\n7\n"
c got "5\n7\n"

## the last session may be the one that fails
$ campaign f -l 1 --count 2 --sut c
f is node n(y: int [5;9]) returns (x: int [0;9]) = loop x = y
c says "7\n"
c says "8\n"
> #from 0 41\n#seed 0\n#inputs "x":int\n#outputs "y":int
> #from 1 41\n#seed 1\n#inputs "x":int\n#outputs "y":int
> #from 0 18\n#step 1\n5 #outs 7
> #from 1 25\n#end device controller 1
> #from 0 13\n#end limit 1
> #campaign 2 ended 1
= 9 lurette: session 1: device controller 1

c 1 fails 0
c got "5\n"
c got ""

c 1 fails 1
c got "5\n"
c got "5\n"

## an oracle that fails ends its session
$ campaign f -l 1 --count 2 --oracle o
f is node n() returns (x: int [0;3]) = loop x = 1
o says "t "
o says "t "
> #from 0 33\n#seed 0\n#inputs "x":int\n#outputs
> #from 1 33\n#seed 1\n#inputs "x":int\n#outputs
> #from 0 21\n#end device oracle 1
> #from 1 16\n#step 1\n1 #outs
> #from 1 13\n#end limit 1
> #campaign 2 ended 1
= 9 lurette: session 0: device oracle 1

o 0 fails 0
o got ""
o got "1\n"

o 0 fails 1
o got "1\n"
o got "1\n"

## a session whose side failed isn't told if one before it ended badly
$ campaign f -l 1 --count 3 --sut c
f is node n(y: int [5;9]) returns (x: int [0;9]) = loop x = y
c says "7\n"
c says "x\n"
c says "8\n"
c 2 fails 0
> #from 0 41\n#seed 0\n#inputs "x":int\n#outputs "y":int
> #from 1 41\n#seed 1\n#inputs "x":int\n#outputs "y":int
> #from 2 41\n#seed 2\n#inputs "x":int\n#outputs "y":int
> #from 0 18\n#step 1\n5 #outs 7
> #from 1 38\n#end malformed controller NotAValue 1
> #from 2 25\n#end device controller 1
> #from 0 13\n#end limit 1
> #campaign 3 ended 1
= 7 lurette: session 1: malformed controller NotAValue 1 at 0

c got "5\n"
c got "5\n"
c got ""

## a program that ends badly changes nothing
$ campaign f -l 1 --count 2 --sut c
f is node n(y: int [5;9]) returns (x: int [0;9]) = loop x = y
c says "7\n"
c says "8\n"
> #from 0 41\n#seed 0\n#inputs "x":int\n#outputs "y":int
> #from 1 41\n#seed 1\n#inputs "x":int\n#outputs "y":int
> #from 0 18\n#step 1\n5 #outs 7
> #from 1 18\n#step 1\n5 #outs 8
> #from 0 13\n#end limit 1
> #from 1 13\n#end limit 1
> #campaign 2 ended 2
c got "5\n"
c got "5\n"

ends fail 0

ends fail 1
"#,
    )
}

#[test]
fn a_session_whose_program_cannot_be_started_makes_no_run(rt: HostRuntime) -> Result<(), Fail> {
    check_rows(
        &rt,
        "",
        7,
        r#"
## the others go on, and all are counted
$ campaign f -l 1 --count 2 --sut c
f is node n(y: int [5;9]) returns (x: int [0;9]) = loop x = y
c says "7\n"
c got "5\n"
asks c c

starts fail 0
> #from 1 41\n#seed 1\n#inputs "x":int\n#outputs "y":int
> #from 1 18\n#step 1\n5 #outs 7
> #from 1 13\n#end limit 1
> #campaign 2 ended 1
= 9 lurette: session 0: device controller 0

starts fail 1
> #from 0 41\n#seed 0\n#inputs "x":int\n#outputs "y":int
> #from 0 18\n#step 1\n5 #outs 7
> #from 0 13\n#end limit 1
> #campaign 2 ended 1
= 9 lurette: session 1: device controller 0

-- There is one program of the command, and no second one.
> #from 0 41\n#seed 0\n#inputs "x":int\n#outputs "y":int
> #from 0 18\n#step 1\n5 #outs 7
> #from 0 13\n#end limit 1
> #campaign 2 ended 1
= 9 lurette: session 1: device controller 0

## one of three
$ campaign f -l 0 --count 3 --sut c
f is node n(y: int [5;9]) returns (x: int [0;9]) = loop x = y
c says ""
c says ""
starts fail 1
> #from 0 41\n#seed 0\n#inputs "x":int\n#outputs "y":int
> #from 2 41\n#seed 2\n#inputs "x":int\n#outputs "y":int
> #from 0 13\n#end limit 0
> #from 2 13\n#end limit 0
> #campaign 3 ended 2
= 9 lurette: session 1: device controller 0

c got ""
c got ""
asks c c c

## none can be started
f is node n(y: int [5;9]) returns (x: int [0;9]) = loop x = y

$ campaign f --count 3 --sut c --oracle o
> #campaign 3 ended 0
= 9 lurette: session 0: device controller 0
asks c c c

## an oracle that cannot be started leaves its controller, which is closed at its turn
$ campaign f -l 1 --count 3 --sut c --oracle o
f is node n(y: int [5;9]) returns (x: int [0;9]) = loop x = y
c says "7\n"
o says "t "
c says "8\n"
o says "t "
c says "9\n"
asks c o c o c o

-- The starts are those of a controller and of an oracle in turn.
starts fail 3
> #from 0 41\n#seed 0\n#inputs "x":int\n#outputs "y":int
> #from 2 41\n#seed 2\n#inputs "x":int\n#outputs "y":int
> #from 0 18\n#step 1\n5 #outs 7
> #from 2 18\n#step 1\n5 #outs 9
> #from 0 13\n#end limit 1
> #from 2 13\n#end limit 1
> #campaign 3 ended 2
= 9 lurette: session 1: device oracle 0
c got "5\n"
o got "5 7\n"
c got ""
c got "5\n"
o got "5 9\n"

## a session that ends badly and stands before it is told
$ campaign f -l 1 --count 2 --sut c
f is node n(y: int [5;9]) returns (x: int [0;9]) = loop x = y
c says "7x"
> #from 0 41\n#seed 0\n#inputs "x":int\n#outputs "y":int
> #from 0 38\n#end malformed controller NotAValue 1
> #campaign 2 ended 0
= 7 lurette: session 0: malformed controller NotAValue 1 at 0

c got "5\n"
asks c c
"#,
    )
}

#[test]
fn a_trace_that_cannot_be_written_ends_all_sessions(rt: HostRuntime) -> Result<(), Fail> {
    check_rows(
        &rt,
        "",
        18,
        r#"
## a write may fail anywhere
$ campaign f -l 1 --count 2
f is node n() returns (x: int [0;3]) = loop x = 1
> #from 0 33\n#seed 0\n#inputs "x":int\n#outputs
> #from 1 33\n#seed 1\n#inputs "x":int\n#outputs
> #from 0 16\n#step 1\n1 #outs
> #from 1 16\n#step 1\n1 #outs
> #from 0 13\n#end limit 1
> #from 1 13\n#end limit 1
> #campaign 2 ended 2

-- In the first frame and in the line of the next one.
trace holds 0 to 56
= 9 lurette: device trace 0

-- In the last frame and in the last line.
trace holds 166 to 209
= 9 lurette: device trace 0

trace holds 210

## nothing is there where the first write fails
$ campaign f -l 1 --count 2
f is node n() returns (x: int [0;3]) = loop x = 1
= 9 lurette: device trace 0

writes fail 0

## as many bytes are there as were taken before, one at a time
$ campaign f -l 1 --count 2
f is node n() returns (x: int [0;3]) = loop x = 1
= 9 lurette: device trace 0
trace cuts 1 1 1 1 1 1 1 1 1 1 1 1 1 1 1 1 1 1 1 1 1 1 1 1 1 1 1 1 1 1 1 1 1 1 1 1 1 1 1 1 1 1 1 1 1 1 1 1 1 1 1 1 1 1 1 1 1 1 1 1

-- Before the header, within it, and behind it.
writes fail 11
> #from 0 33

writes fail 19
> #from 0 33\n#seed 0

writes fail 44
> #from 0 33\n#seed 0\n#inputs "x":int\n#outputs

## what was sent before stays, and all links are given back
$ campaign f -l 2 --count 2 --sut c
f is node n(y: int [5;9]) returns (x: int [0;9]) = loop x = y
c says "7\n8\n"
c says "7 8 "
c 0 cuts 2
c 1 cuts 1 1
> #from 0 41\n#seed 0\n#inputs "x":int\n#outputs "y":int
> #from 1 41\n#seed 1\n#inputs "x":int\n#outputs "y":int
> #from 0 18\n#step 1\n5 #outs 7
> #from 1 18\n#step 1\n5 #outs 7
> #from 0 18\n#step 2\n7 #outs 8
> #from 0 13\n#end limit 2
> #from 1 18\n#step 2\n7 #outs 8
> #from 1 13\n#end limit 2
> #campaign 2 ended 2

-- In the header of session 1.
trace holds 102 to 103
= 9 lurette: device trace 0
c got ""
c got ""

-- At the beginning of the first step of session 0, and at its end: both were sent a line.
trace holds 104 to 106
= 9 lurette: device trace 0
c got "5\n"
c got "5\n"

trace holds 132
= 9 lurette: device trace 0
c got "5\n"
c got "5\n"

-- In that of session 1: session 0 was sent its second line in the same round.
trace holds 133 to 135
= 9 lurette: device trace 0
c got "5\n7\n"
c got "5\n"

-- In the second step of session 0: in this round session 1 isn't served any more.
trace holds 162 to 164
= 9 lurette: device trace 0
c got "5\n7\n"
c got "5\n"

-- In an end line, or in the last line.
trace holds 191 to 193
= 9 lurette: device trace 0
c got "5\n7\n"
c got "5\n7\n"

trace holds 287
= 9 lurette: device trace 0
c got "5\n7\n"
c got "5\n7\n"

trace holds 288
c got "5\n7\n"
c got "5\n7\n"

## then no session is told, whatever came of it
$ campaign f -l 1 --count 2 --sut c
f is node n(y: int) returns (x: int [0;3]) = loop x = 1
trace holds 0
= 9 lurette: device trace 0

c says "5\n"
starts fail 0
c got ""
asks c c

-- No session goes on, and the last line can't be written.
asks c c

## a line that can't be said changes neither status nor trace
$ campaign f -l 1 --count 2 --sut c
f is node n(y: int) returns (x: int [0;3]) = loop x = 1
c says "12x\n"
c says "5\n"
> #from 0 41\n#seed 0\n#inputs "x":int\n#outputs "y":int
> #from 1 41\n#seed 1\n#inputs "x":int\n#outputs "y":int
> #from 0 38\n#end malformed controller NotAValue 1
> #from 1 18\n#step 1\n1 #outs 5
> #from 1 13\n#end limit 1
> #campaign 2 ended 1
c got "1\n"
c got "1\n"
= 7

says fails 0
"#,
    )
}

#[test]
fn files_are_refused_as_for_a_run(rt: HostRuntime) -> Result<(), Fail> {
    check_rows(
        &rt,
        "",
        13,
        r#"
## no session is started then
c says "7 "
o says "t "

$ campaign f --count 2 --sut c
f is node n() returns (b: bool) = b & b
= 3 lurette: refused lex.BadByte at 31

$ campaign f --count 2 --sut c
f is node n() returns (b: bool) = run
= 3 lurette: refused parse.Unexpected at 32

$ campaign f --count 2 --sut c
f is node n() returns (b: bool) = c
= 3 lurette: refused type.Unknown at 29

$ campaign f --count 2 --sut c --node m
f is node n() returns (b: bool) = b
= 3 lurette: refused expand.UnknownNode

$ campaign f --count 2 --sut c
f is node n(u: bool) returns (a, b, c, d, e, f, g, h, i, j, k, l, m, n, o, p, q: bool) = a or b or c or d or e or f or g or h or i or j or k or l or m or n or o or p or q
= 3 lurette: refused run.TooManyAtoms

$ campaign f --count 2 --sut c
f is <<1048577 times \s>>
= 3 lurette: refused file.TooLong

-- An oracle gives no values.
$ campaign f --count 2 --oracle o
f is node n(y: int [5;9]) returns (x: int [0;9]) = loop x = y
= 3 lurette: refused run.NeedsController

## a file that cannot be read ends the call
f is node n(y: int [5;9]) returns (x: int [0;9]) = loop x = y
= 9 lurette: device file 0

$ campaign g --count 2

$ campaign f --count 2
reads fail 0

$ campaign f --count 2 --replay t
t is "5 7 "
reads fail 1
files 2

$ campaign f --count 2 --replay t --oracle o
files 2

## wrong words ask for no campaign
f is node n(y: int [5;9]) returns (x: int [0;9]) = loop x = y
c says "7 "
t is "5 7 "
files 0

$ campaign f --sut c --replay t --count 2
= 2 lurette: usage: both\nlurette MODE FILE [-l N] [--seed N] [--precision N] [--budget N] [--node NAME] [--sut CMD] [--oracle CMD] [--replay FILE] [--locals] [--draw N] [--count N]

$ campaign f --count 65
= 2 lurette: usage: words\nlurette MODE FILE [-l N] [--seed N] [--precision N] [--budget N] [--node NAME] [--sut CMD] [--oracle CMD] [--replay FILE] [--locals] [--draw N] [--count N]
"#,
    )
}

// The call of as many sessions as there may be. None of them makes a step.
const MOST: &str = "
$ campaign f -l 0 --count 64
f is node n() returns (x: int [0;3]) = loop x = 1
";

#[test]
fn a_campaign_may_have_64_sessions(rt: HostRuntime) -> Result<(), Fail> {
    let mut row = String::from_str(rt.alloc(), MOST)?;
    for session in 0..64usize {
        let length = if session < 10 { 33 } else { 34 };
        row.push_str(&format!(in rt.alloc();
            "> #from {session} {length}\\n#seed {session}\\n#inputs \"x\":int\\n#outputs\n"
        )?)?;
    }
    for session in 0..64usize {
        row.push_str(&format!(in rt.alloc(); "> #from {session} 13\\n#end limit 0\n")?)?;
    }
    row.push_str("> #campaign 64 ended 64\n")?;
    check_rows(&rt, "", 1, &row)
}
