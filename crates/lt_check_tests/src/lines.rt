//! Which texts are traces of a scenario: each line is exactly one that a run with its locals may write there, or the first
//! one that isn't is told.

use crate::rows::check_rows;
use std::test::Fail;

#[test]
fn a_header_declares_the_variables(rt: HostRuntime) -> Result<(), Fail> {
    check_rows(
        &rt,
        38,
        r##"
## the seed may be any, and a rule of drawing is named where it isn't 1
f exception A, B node n(y: int [0;9]; c: bool) returns (x: int [0;3]; r: real; b: bool) = exist v: int [0;9] in catch B in loop true

> #seed 0/#inputs "x":int "r":real "b":bool/#outputs "y":int "c":bool/#locals "v.1":int/#step 1/1 0.50 t #outs 5 f #locs 7/#end limit 1
= legal

> #seed 18446744073709551615/#inputs "x":int "r":real "b":bool/#outputs "y":int "c":bool/#locals "v.1":int/#step 1/1 0.50 t #outs 5 f #locs 7/#end limit 1
= legal

> #seed 7/#draw 2/#inputs "x":int "r":real "b":bool/#outputs "y":int "c":bool/#locals "v.1":int/#step 1/1 0.50 t #outs 5 f #locs 7/#end limit 1
= legal

> #seed 7/#draw 3/#inputs "x":int "r":real "b":bool/#outputs "y":int "c":bool/#locals "v.1":int/#step 1/1 0.50 t #outs 5 f #locs 7/#end limit 1
= legal

> #seed 18446744073709551616/#inputs "x":int "r":real "b":bool/#outputs "y":int "c":bool/#locals "v.1":int/#step 1/1 0.50 t #outs 5 f #locs 7/#end limit 1
= line 1

> #seed 007/#inputs "x":int "r":real "b":bool/#outputs "y":int "c":bool/#locals "v.1":int/#step 1/1 0.50 t #outs 5 f #locs 7/#end limit 1
= line 1

> #seed -1/#inputs "x":int "r":real "b":bool/#outputs "y":int "c":bool/#locals "v.1":int/#step 1/1 0.50 t #outs 5 f #locs 7/#end limit 1
= line 1

> #seed/#inputs "x":int "r":real "b":bool/#outputs "y":int "c":bool/#locals "v.1":int/#step 1/1 0.50 t #outs 5 f #locs 7/#end limit 1
= line 1

> #seed  0/#inputs "x":int "r":real "b":bool/#outputs "y":int "c":bool/#locals "v.1":int/#step 1/1 0.50 t #outs 5 f #locs 7/#end limit 1
= line 1

> #seed 0~/#inputs "x":int "r":real "b":bool/#outputs "y":int "c":bool/#locals "v.1":int/#step 1/1 0.50 t #outs 5 f #locs 7/#end limit 1
= line 1

> seed 0/#inputs "x":int "r":real "b":bool/#outputs "y":int "c":bool/#locals "v.1":int/#step 1/1 0.50 t #outs 5 f #locs 7/#end limit 1
= line 1

> #inputs "x":int "r":real "b":bool/#outputs "y":int "c":bool/#locals "v.1":int/#step 1/1 0.50 t #outs 5 f #locs 7/#end limit 1
= line 1

> #seed 7/#draw 1/#inputs "x":int "r":real "b":bool/#outputs "y":int "c":bool/#locals "v.1":int/#step 1/1 0.50 t #outs 5 f #locs 7/#end limit 1
= line 2

> #seed 7/#draw 4/#inputs "x":int "r":real "b":bool/#outputs "y":int "c":bool/#locals "v.1":int/#step 1/1 0.50 t #outs 5 f #locs 7/#end limit 1
= line 2

> #seed 7/#draw 02/#inputs "x":int "r":real "b":bool/#outputs "y":int "c":bool/#locals "v.1":int/#step 1/1 0.50 t #outs 5 f #locs 7/#end limit 1
= line 2

> #seed 7/#seed 7/#inputs "x":int "r":real "b":bool/#outputs "y":int "c":bool/#locals "v.1":int/#step 1/1 0.50 t #outs 5 f #locs 7/#end limit 1
= line 2

> #seed 7/#draw 2/#draw 2/#inputs "x":int "r":real "b":bool/#outputs "y":int "c":bool/#locals "v.1":int/#step 1/1 0.50 t #outs 5 f #locs 7/#end limit 1
= line 3

> #seed 7/#inputs "x":int "r":real "b":bool/#draw 2/#outputs "y":int "c":bool/#locals "v.1":int/#step 1/1 0.50 t #outs 5 f #locs 7/#end limit 1
= line 3

> #draw 2/#seed 7/#inputs "x":int "r":real "b":bool/#outputs "y":int "c":bool/#locals "v.1":int/#step 1/1 0.50 t #outs 5 f #locs 7/#end limit 1
= line 1

## the variables are those of the scenario, in its order
f exception A, B node n(y: int [0;9]; c: bool) returns (x: int [0;3]; r: real; b: bool) = exist v: int [0;9] in catch B in loop true

> #seed 0/#inputs "r":real "x":int "b":bool/#outputs "y":int "c":bool/#locals "v.1":int/#step 1/1 0.50 t #outs 5 f #locs 7/#end limit 1
= line 2

> #seed 0/#inputs "x":int "r":real/#outputs "y":int "c":bool/#locals "v.1":int/#step 1/1 0.50 t #outs 5 f #locs 7/#end limit 1
= line 2

> #seed 0/#inputs "x":int "r":real "b":bool "z":int/#outputs "y":int "c":bool/#locals "v.1":int/#step 1/1 0.50 t #outs 5 f #locs 7/#end limit 1
= line 2

> #seed 0/#inputs "x":int "r":int "b":bool/#outputs "y":int "c":bool/#locals "v.1":int/#step 1/1 0.50 t #outs 5 f #locs 7/#end limit 1
= line 2

> #seed 0/#inputs x:int "r":real "b":bool/#outputs "y":int "c":bool/#locals "v.1":int/#step 1/1 0.50 t #outs 5 f #locs 7/#end limit 1
= line 2

> #seed 0/#inputs "x": int "r":real "b":bool/#outputs "y":int "c":bool/#locals "v.1":int/#step 1/1 0.50 t #outs 5 f #locs 7/#end limit 1
= line 2

-- No line ends in a blank.
> #seed 0/#inputs "x":int "r":real "b":bool /#outputs "y":int "c":bool/#locals "v.1":int/#step 1/1 0.50 t #outs 5 f #locs 7/#end limit 1
= line 2

> #seed 0/#inputs/#outputs "y":int "c":bool/#locals "v.1":int/#step 1/1 0.50 t #outs 5 f #locs 7/#end limit 1
= line 2

> #seed 0/#outputs "y":int "c":bool/#inputs "x":int "r":real "b":bool/#locals "v.1":int/#step 1/1 0.50 t #outs 5 f #locs 7/#end limit 1
= line 2

> #seed 0/#inputs "x":int "r":real "b":bool/#outputs "c":bool "y":int/#locals "v.1":int/#step 1/1 0.50 t #outs 5 f #locs 7/#end limit 1
= line 3

> #seed 0/#inputs "x":int "r":real "b":bool/#outputs/#locals "v.1":int/#step 1/1 0.50 t #outs 5 f #locs 7/#end limit 1
= line 3

> #seed 0/#inputs "x":int "r":real "b":bool/#outputs "y":int "c":bool/#locals "v":int/#step 1/1 0.50 t #outs 5 f #locs 7/#end limit 1
= line 4

> #seed 0/#inputs "x":int "r":real "b":bool/#outputs "y":int "c":bool/#locals "v.2":int/#step 1/1 0.50 t #outs 5 f #locs 7/#end limit 1
= line 4

> #seed 0/#inputs "x":int "r":real "b":bool/#outputs "y":int "c":bool/#locals/#step 1/1 0.50 t #outs 5 f #locs 7/#end limit 1
= line 4

-- A run without `--locals` writes no such line.
> #seed 0/#inputs "x":int "r":real "b":bool/#outputs "y":int "c":bool/#step 1/1 0.50 t #outs 5 f #locs 7/#end limit 1
= line 4

> #seed 0/#draw 2/#inputs "x":int "r":real "b":bool/#outputs "y":int "c":bool/#locals "w.1":int/#step 1/1 0.50 t #outs 5 f #locs 7/#end limit 1
= line 5

## there may be none
> #seed 0

f node n() returns (b: bool) = b
> #inputs "b":bool/#outputs/#locals/#end limit 0
= legal

f node n() returns () = true
> #inputs/#outputs/#locals/#step 1/#outs #locs/#end normal 1
= legal

f node n() returns () = true
> #inputs /#outputs/#locals/#step 1/#outs #locs/#end normal 1
= line 2
"##,
    )
}

#[test]
fn values_have_one_way_in_which_they_are_written(rt: HostRuntime) -> Result<(), Fail> {
    check_rows(
        &rt,
        58,
        r##"
## numbers and flags as a trace has them
f exception A, B node n(y: int [0;9]; c: bool) returns (x: int [0;3]; r: real; b: bool) = exist v: int [0;9] in catch B in loop true
> #seed 0/#inputs "x":int "r":real "b":bool/#outputs "y":int "c":bool/#locals "v.1":int
> #step 1

> 1 0.50 t #outs 5 f #locs 7/#end limit 1
= legal

> 0 -0.01 f #outs 0 t #locs 0/#end limit 1
= legal

> +1 0.50 t #outs 5 f #locs 7/#end limit 1
= line 6

> 01 0.50 t #outs 5 f #locs 7/#end limit 1
= line 6

> -0 0.50 t #outs 5 f #locs 7/#end limit 1
= line 6

> 1.00 0.50 t #outs 5 f #locs 7/#end limit 1
= line 6

> 1e0 0.50 t #outs 5 f #locs 7/#end limit 1
= line 6

> - 0.50 t #outs 5 f #locs 7/#end limit 1
= line 6

-- A real has two decimals here.
> 1 0.5 t #outs 5 f #locs 7/#end limit 1
= line 6

> 1 0.500 t #outs 5 f #locs 7/#end limit 1
= line 6

> 1 1 t #outs 5 f #locs 7/#end limit 1
= line 6

> 1 .50 t #outs 5 f #locs 7/#end limit 1
= line 6

> 1 00.50 t #outs 5 f #locs 7/#end limit 1
= line 6

> 1 +0.50 t #outs 5 f #locs 7/#end limit 1
= line 6

> 1 -0.00 t #outs 5 f #locs 7/#end limit 1
= line 6

> 1 5.0e-1 t #outs 5 f #locs 7/#end limit 1
= line 6

> 1 0.50 T #outs 5 f #locs 7/#end limit 1
= line 6

> 1 0.50 1 #outs 5 f #locs 7/#end limit 1
= line 6

> 1 0.50 true #outs 5 f #locs 7/#end limit 1
= line 6

-- A local alone may be out of scope.
> 1 0.50 ? #outs 5 f #locs 7/#end limit 1
= line 6

> 1 0.50 t #outs ? f #locs 7/#end limit 1
= line 6

> 1 0.50 t #outs +5 f #locs 7/#end limit 1
= line 6

> 1 0.50 t #outs 5 0 #locs 7/#end limit 1
= line 6

> 1 0.50 t #outs 5 f #locs 07/#end limit 1
= line 6

> 1 0.50 t #outs 5 f #locs -/#end limit 1
= line 6

> 1 0.50 t #outs 5 f #locs ??/#end limit 1
= line 6

## one blank stands between two words, and no other one
f exception A, B node n(y: int [0;9]; c: bool) returns (x: int [0;3]; r: real; b: bool) = exist v: int [0;9] in catch B in loop true
> #seed 0/#inputs "x":int "r":real "b":bool/#outputs "y":int "c":bool/#locals "v.1":int
> #step 1

> 1  0.50 t #outs 5 f #locs 7/#end limit 1
= line 6

> 1~0.50 t #outs 5 f #locs 7/#end limit 1
= line 6

>  1 0.50 t #outs 5 f #locs 7/#end limit 1
= line 6

> 1 0.50 t #outs 5 f #locs 7 /#end limit 1
= line 6

> 1 0.50 t  #outs 5 f #locs 7/#end limit 1
= line 6

> 1 0.50 t #outs 5 f #locs 7~/#end limit 1
= line 6

> 1 0.50 t/#outs 5 f #locs 7/#end limit 1
= line 6

## a line of values has one for each variable
f exception A, B node n(y: int [0;9]; c: bool) returns (x: int [0;3]; r: real; b: bool) = exist v: int [0;9] in catch B in loop true
> #seed 0/#inputs "x":int "r":real "b":bool/#outputs "y":int "c":bool/#locals "v.1":int
> #step 1

> 1 0.50 #outs 5 f #locs 7/#end limit 1
= line 6

> 1 0.50 t t #outs 5 f #locs 7/#end limit 1
= line 6

> 1 0.50 t #outs 5 #locs 7/#end limit 1
= line 6

> 1 0.50 t #outs 5 f t #locs 7/#end limit 1
= line 6

> 1 0.50 t #outs 5 f #locs/#end limit 1
= line 6

> 1 0.50 t #outs 5 f #locs 7 7/#end limit 1
= line 6

> 1 0.50 t #outs 5 f/#end limit 1
= line 6

> 1 0.50 t 5 f #locs 7/#end limit 1
= line 6

> 1 0.50 t #out 5 f #locs 7/#end limit 1
= line 6

> 1 0.50 t #outs 5 f #locs 7 -- so/#end limit 1
= line 6

> #end limit 1
= line 6

## numbers are at most 10^12 units of the last decimal, and inputs within their ranges
f exception A, B node n(y: int [0;9]; c: bool) returns (x: int [0;3]; r: real; b: bool) = exist v: int [0;9] in catch B in loop true
> #seed 0/#inputs "x":int "r":real "b":bool/#outputs "y":int "c":bool/#locals "v.1":int
> #step 1

> 1 0.50 t #outs 9 f #locs 7/#end limit 1
= legal

> 1 0.50 t #outs 10 f #locs 7/#end limit 1
= line 6

> 1 0.50 t #outs -1 f #locs 7/#end limit 1
= line 6

> 1 0.50 t #outs 1000000000001 f #locs 7/#end limit 1
= line 6

> 1000000000001 0.50 t #outs 5 f #locs 7/#end limit 1
= line 6

> -1000000000001 0.50 t #outs 5 f #locs 7/#end limit 1
= line 6

> 1 10000000000.01 t #outs 5 f #locs 7/#end limit 1
= line 6

> 1 0.50 t #outs 5 f #locs 1000000000001/#end limit 1
= line 6

> 1 0.50 t #outs 5 f #locs 99999999999999999999/#end limit 1
= line 6

-- Outputs and locals outside their ranges are read, and no step has them.
> 4 0.50 t #outs 5 f #locs 7/#end limit 1
= illegal 1

> 1000000000000 0.50 t #outs 5 f #locs 7/#end limit 1
= illegal 1

> 1 -10000000000.00 t #outs 5 f #locs 7/#end limit 1
= illegal 1

> 1 0.50 t #outs 5 f #locs 10/#end limit 1
= illegal 1

> 1 0.50 t #outs 5 f #locs ?/#end limit 1
= illegal 1
"##,
    )
}

#[test]
fn steps_are_numbered_from_1(rt: HostRuntime) -> Result<(), Fail> {
    check_rows(
        &rt,
        13,
        r##"
## the line before the values has the number of the step
f exception A, B node n(y: int [0;9]; c: bool) returns (x: int [0;3]; r: real; b: bool) = exist v: int [0;9] in catch B in loop true
> #seed 0/#inputs "x":int "r":real "b":bool/#outputs "y":int "c":bool/#locals "v.1":int

> #step 1/1 0.50 t #outs 5 f #locs 7/#step 2/1 0.50 t #outs 5 f #locs 7/#step 3/1 0.50 t #outs 5 f #locs 7/#end limit 3
= legal

> #step 0/1 0.50 t #outs 5 f #locs 7/#end limit 1
= line 5

> #step 2/1 0.50 t #outs 5 f #locs 7/#end limit 1
= line 5

> #step 01/1 0.50 t #outs 5 f #locs 7/#end limit 1
= line 5

> #step +1/1 0.50 t #outs 5 f #locs 7/#end limit 1
= line 5

> #step/1 0.50 t #outs 5 f #locs 7/#end limit 1
= line 5

> #step 1 /1 0.50 t #outs 5 f #locs 7/#end limit 1
= line 5

> 1 0.50 t #outs 5 f #locs 7/#end limit 1
= line 5

> #step 1/1 0.50 t #outs 5 f #locs 7/#step 1/1 0.50 t #outs 5 f #locs 7/#end limit 2
= line 7

> #step 1/1 0.50 t #outs 5 f #locs 7/#step 3/1 0.50 t #outs 5 f #locs 7/#end limit 2
= line 7

> #step 1/1 0.50 t #outs 5 f #locs 7/1 0.50 t #outs 5 f #locs 7/#end limit 2
= line 7

-- An empty line is none of a trace.
> #step 1/1 0.50 t #outs 5 f #locs 7//#step 2/1 0.50 t #outs 5 f #locs 7/#end limit 2
= line 7

> #step 1/1 0.50 t #outs 5 f #locs 7/-- so/#end limit 1
= line 7
"##,
    )
}

#[test]
fn the_last_line_has_the_number_that_a_run_writes(rt: HostRuntime) -> Result<(), Fail> {
    check_rows(
        &rt,
        56,
        r##"
## the number is that of the last step, or of the instant after it
f exception A, B node n(y: int [0;9]; c: bool) returns (x: int [0;3]; r: real; b: bool) = exist v: int [0;9] in catch B in loop true
> #seed 0/#inputs "x":int "r":real "b":bool/#outputs "y":int "c":bool/#locals "v.1":int
> #step 1/1 0.50 t #outs 5 f #locs 7

> #end limit 1
= legal

> #end oracle 1
= legal

> #end toolarge 2
= legal

> #end malformed controller TooLong 2
= legal

> #end ended oracle 2
= legal

> #end device controller 2
= legal

> #end budget 720 2
= legal

> #end deadlock 2
= illegal 2

> #end raise B 2
= illegal 2

> #end fault NegativeWeight 2
= illegal 2

> #end normal 1
= illegal 2

> #end normal 2
= line 7

> #end limit 2
= line 7

> #end oracle 2
= line 7

> #end deadlock 1
= line 7

> #end raise B 1
= line 7

> #end fault NegativeWeight 1
= line 7

> #end toolarge 1
= line 7

> #end malformed controller TooLong 1
= line 7

> #end ended oracle 1
= line 7

> #end device controller 1
= line 7

> #end budget 720 1
= line 7

> #end limit 0
= line 7

> #end toolarge 3
= line 7

## words that stand in no such line
f exception A, B node n(y: int [0;9]; c: bool) returns (x: int [0;3]; r: real; b: bool) = exist v: int [0;9] in catch B in loop true
> #seed 0/#inputs "x":int "r":real "b":bool/#outputs "y":int "c":bool/#locals "v.1":int
> #step 1/1 0.50 t #outs 5 f #locs 7

> #end
= line 7

> #end limit
= line 7

> #end limit 01
= line 7

> #end limit +1
= line 7

> #end limit 1_
= line 7

> #end  limit 1
= line 7

> end limit 1
= line 7

> #end Limit 1
= line 7

> #end limits 1
= line 7

> #end raise C 2
= line 7

> #end raise Deadlock 2
= line 7

> #end raise 2
= line 7

> #end fault 2
= line 7

> #end fault Nothing 2
= line 7

> #end malformed 2
= line 7

> #end malformed controller 2
= line 7

> #end malformed controller NoPrevious 2
= line 7

> #end malformed plant TooLong 2
= line 7

> #end ended 2
= line 7

> #end ended file 2
= line 7

> #end device trace 2
= line 7

> #end device file 2
= line 7

> #end budget 2
= line 7

> #end budget 05 2
= line 7

> #end budget -5 2
= line 7

> #end budget x 2
= line 7

> #end memory 2
= line 7

> #end usage 2
= line 7

## an oracle judges a step, so there is one
f exception A, B node n(y: int [0;9]; c: bool) returns (x: int [0;3]; r: real; b: bool) = exist v: int [0;9] in catch B in loop true
> #seed 0/#inputs "x":int "r":real "b":bool/#outputs "y":int "c":bool/#locals "v.1":int

> #end oracle 0
= line 5

> #end limit 0
= legal

> #end normal 0
= illegal 1

> #end deadlock 0
= line 5
"##,
    )
}

#[test]
fn lines_may_be_missing_or_too_many(rt: HostRuntime) -> Result<(), Fail> {
    check_rows(
        &rt,
        19,
        r##"
## where lines are missing it is the one after the last one
f exception A, B node n(y: int [0;9]; c: bool) returns (x: int [0;3]; r: real; b: bool) = exist v: int [0;9] in catch B in loop true

= line 1

> #seed 0
= line 2

> #seed 0/#inputs "x":int "r":real "b":bool/#outputs "y":int "c":bool
= line 4

> #seed 0/#inputs "x":int "r":real "b":bool/#outputs "y":int "c":bool/#locals "v.1":int
= line 5

> #seed 0/#inputs "x":int "r":real "b":bool/#outputs "y":int "c":bool/#locals "v.1":int
> #step 1
= line 6

> #seed 0/#inputs "x":int "r":real "b":bool/#outputs "y":int "c":bool/#locals "v.1":int
> #step 1/1 0.50 t #outs 5 f #locs 7
= line 7

> #seed 0/#inputs "x":int "r":real "b":bool/#outputs "y":int "c":bool/#locals "v.1":int
> #step 1/1 0.50 t #outs 5 f #locs 7
> #step 2/1 0.50 t #outs 5 f #locs 7
= line 9

## the last byte of a line is its line feed
f exception A, B node n(y: int [0;9]; c: bool) returns (x: int [0;3]; r: real; b: bool) = exist v: int [0;9] in catch B in loop true
ends early

> #seed 0
= line 1

> #seed 0/#inputs "x":int "r":real "b":bool/#outputs "y":int "c":bool/#locals "v.1":int
= line 4

> #seed 0/#inputs "x":int "r":real "b":bool/#outputs "y":int "c":bool/#locals "v.1":int
> #step 1/1 0.50 t #outs 5 f #locs 7
= line 6

> #seed 0/#inputs "x":int "r":real "b":bool/#outputs "y":int "c":bool/#locals "v.1":int
> #step 1/1 0.50 t #outs 5 f #locs 7
> #end limit 1
= line 7

## bytes behind the end are one more line
f exception A, B node n(y: int [0;9]; c: bool) returns (x: int [0;3]; r: real; b: bool) = exist v: int [0;9] in catch B in loop true
> #seed 0/#inputs "x":int "r":real "b":bool/#outputs "y":int "c":bool/#locals "v.1":int
> #step 1/1 0.50 t #outs 5 f #locs 7

> #end limit 1/x
= line 8

> #end limit 1/#end limit 1
= line 8

> #end limit 1/
= line 8

> #end limit 1/x
= line 8
ends early

> #end limit 1/#step 2/1 0.50 t #outs 5 f #locs 7/#end limit 2
= line 8

## the first line that is wrong is told, and before any step is judged
f exception A, B node n(y: int [0;9]; c: bool) returns (x: int [0;3]; r: real; b: bool) = exist v: int [0;9] in catch B in loop true

> #seed 00/#inputs/#outputs "y":int "c":bool/#locals "v.1":int/#step 1/x/#end
= line 1

> #seed 0/#inputs "x":int "r":real "b":bool/#outputs "y":int "c":bool/#locals "v.1":int/#step 1/x/#step 2/y/#end limit 1
= line 6

-- No step has this output.
> #seed 0/#inputs "x":int "r":real "b":bool/#outputs "y":int "c":bool/#locals "v.1":int/#step 1/4 0.50 t #outs 5 f #locs 7/#end limit 2
= line 7
"##,
    )
}
