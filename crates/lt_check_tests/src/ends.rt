//! How a trace may end.

use crate::rows::check_rows;
use std::test::Fail;

#[test]
fn an_end_is_one_that_a_candidate_has(rt: HostRuntime) -> Result<(), Fail> {
    check_rows(
        &rt,
        25,
        r#"
## a run is over where nothing is left to do
> #seed 0/#inputs "x":int/#outputs/#locals

f node n() returns (x: int [0;3]) = x = 1
> #step 1/1 #outs #locs/#end normal 1
= legal

f node n() returns (x: int [0;3]) = x = 1 fby x = 2
> #step 1/1 #outs #locs/#end normal 1
= illegal 2

-- One candidate has nothing left.
f node n() returns (x: int [0;3]) = { | x = 1 fby x = 2 | x = 1 }
> #step 1/1 #outs #locs/#end normal 1
= legal

f node n() returns (x: int [0;3]) = loop false
> #end normal 0
= legal

-- The loop can turn, so it isn't passed over.
f node n() returns (x: int [0;3]) = loop x = 1
> #end normal 0
= illegal 1

f node n() returns (x: int [0;3]) = loop [0,2] x = 1
> #end normal 0
= legal

f node n() returns (x: int [0;3]) = loop [2,2] x = 1
> #step 1/1 #outs #locs/#end normal 1
= illegal 2

## a deadlock needs a candidate that has nothing live
> #seed 0/#inputs "x":int/#outputs/#locals

f node n() returns (x: int [0;3]) = x > 3
> #end deadlock 1
= legal

f node n() returns (x: int [0;3]) = x = 3
> #end deadlock 1
= illegal 1

-- One of two has none, or neither.
f node n() returns (x: int [0;3]) = { | x = 1 fby x = 2 | x = 1 fby x > 3 }
> #step 1/1 #outs #locs/#end deadlock 2
= legal

f node n() returns (x: int [0;3]) = { | x = 1 fby x = 2 | x = 1 fby x = 3 }
> #step 1/1 #outs #locs/#end deadlock 2
= illegal 2

-- One alternative of one candidate is live.
f node n() returns (x: int [0;3]) = x = 1 fby { | x = 2 | x > 3 }
> #step 1/1 #outs #locs/#end deadlock 2
= illegal 2

-- What is live has no weight.
f node n() returns (x: int [0;3]) = x = 1 fby { |0: x = 2 | x > 3 }
> #step 1/1 #outs #locs/#end deadlock 2
= legal

-- No deadlock comes of what is over, raises or has a fault.
f node n() returns (x: int [0;3]) = x = 1
> #step 1/1 #outs #locs/#end deadlock 2
= illegal 2

f node n() returns (x: int [0;3]) = x = 1 div 0
> #end deadlock 1
= illegal 1

f node n() returns (x: int [0;3]) = { &> raise Deadlock &> x = 1 }
> #end deadlock 1
= legal

## a fault is that of an expression
> #seed 0/#inputs "x":int/#outputs/#locals

f node n() returns (x: int [0;3]) = x = 1 div 0
> #end fault DivisionByZero 1
= legal

f node n() returns (x: int [0;3]) = x = 1 div 0
> #end fault Overflow 1
= illegal 1

f node n() returns (x: int [0;3]) = x = 1 div 0
> #end normal 0
= illegal 1

-- It stands on the right of what can't be taken, or can.
f node n() returns (x: int [0;3]) = { x > 3 |> x = pre x }
> #end fault NoPrevious 1
= legal

f node n() returns (x: int [0;3]) = { x = 3 |> x = pre x }
> #end fault NoPrevious 1
= illegal 1

f node n() returns (x: int [0;3]) = { | 0 - 1: x = 1 | x = 2 }
> #end fault NegativeWeight 1
= legal

-- The weights are judged before the alternatives.
f node n() returns (x: int [0;3]) = { | 0 - 1: x = 1 | x = 2 }
> #step 1/2 #outs #locs/#end normal 1
= illegal 1

f node n() returns (x: int [0;3]) = x = 3 fby x = 1000000 * (1000000 * pre x)
> #step 1/3 #outs #locs/#end fault Overflow 2
= legal

-- In the first step nothing has a fault.
f node n() returns (x: int [0;3]) = x = 3 fby x = 1000000 * (1000000 * pre x)
> #end fault Overflow 1
= illegal 1
"#,
    )
}

#[test]
fn a_raise_is_of_the_written_name(rt: HostRuntime) -> Result<(), Fail> {
    check_rows(
        &rt,
        11,
        r#"
## an exception that nothing catches ends a run
> #seed 0/#inputs "x":int/#outputs/#locals
> #step 1/1 #outs #locs

f exception A, B node n() returns (x: int [0;3]) = catch A in { x = 1 fby raise B }
> #end raise B 2
= legal

-- The other one is caught, and nothing raises it.
f exception A, B node n() returns (x: int [0;3]) = catch A in { x = 1 fby raise B }
> #end raise A 2
= illegal 2

f exception A, B node n() returns (x: int [0;3]) = x = 1 fby { x = 2 |> raise B fby raise A }
> #end raise A 2
= illegal 2

-- The inner one is another one, and has the same name.
f exception A node n() returns (x: int [0;3]) = exception A in { x = 1 fby raise A }
> #end raise A 2
= legal

f exception A node n() returns (x: int [0;3]) = { x = 1 fby raise A } fby exception A in x = 1
> #end raise A 2
= legal

-- What is raised is caught.
f exception A node n() returns (x: int [0;3]) = catch A in { x = 1 fby raise A }
> #end raise A 2
= illegal 2

f exception A node n() returns (x: int [0;3]) = catch A in { x = 1 fby raise A }
> #end normal 1
= legal

-- One candidate of two raises it.
f exception A, B node n() returns (x: int [0;3]) = { | x = 1 fby raise B | x = 1 fby raise A }
> #end raise A 2
= legal

## a name has to be that of an exception that is raised or caught
> #seed 0/#inputs "x":int/#outputs/#locals

f exception A node n() returns (x: int [0;3]) = catch A in { x = 1 fby raise A }
> #step 1/1 #outs #locs/#end raise C 2
= line 7

-- The text declares it, and that is all.
f exception A, C node n() returns (x: int [0;3]) = catch A in { x = 1 fby raise A }
> #step 1/1 #outs #locs/#end raise C 2
= line 7

-- A deadlock is none.
f exception A node n() returns (x: int [0;3]) = raise Deadlock
> #end raise Deadlock 1
= line 5
"#,
    )
}

#[test]
fn an_end_that_says_nothing_of_the_scenario_is_possible(rt: HostRuntime) -> Result<(), Fail> {
    check_rows(
        &rt,
        14,
        r#"
## whatever is left to do
f node n(y: int [0;9]) returns (x: int [0;3]) = loop x = 1
> #seed 0/#inputs "x":int/#outputs "y":int/#locals
> #step 1/1 #outs 5 #locs

> #end limit 1
= legal

> #end oracle 1
= legal

> #end toolarge 2
= legal

> #end malformed controller NotAValue 2
= legal

> #end malformed controller OutOfRange 2
= legal

> #end malformed oracle TooLong 2
= legal

> #end ended controller 2
= legal

> #end ended oracle 2
= legal

> #end device controller 2
= legal

> #end device oracle 2
= legal

> #end budget 155520 2
= legal

## also where nothing can be done
f node n() returns (x: int [0;3]) = x > 3
> #seed 0/#inputs "x":int/#outputs/#locals

> #end limit 0
= legal

> #end toolarge 1
= legal

-- But the steps before it have to be possible.
> #step 1/1 #outs #locs/#end limit 1
= illegal 1
"#,
    )
}

#[test]
fn what_is_too_large_makes_no_step(rt: HostRuntime) -> Result<(), Fail> {
    check_rows(
        &rt,
        3,
        r#"
## an instant that offers too much has no step, and no end but those that say nothing of the scenario
f node n() returns (b: bool) = { <<60 times &> { |1: b |1: b } >>}
> #seed 0/#inputs "b":bool/#outputs/#locals

> #step 1/t #outs #locs/#end normal 1
= illegal 1

> #end deadlock 1
= illegal 1

> #end toolarge 1
= legal
"#,
    )
}
