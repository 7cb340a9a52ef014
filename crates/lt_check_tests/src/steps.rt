//! Which steps a run can make.

use crate::rows::check_rows;
use std::test::Fail;

#[test]
fn a_step_is_one_that_some_alternative_makes(rt: HostRuntime) -> Result<(), Fail> {
    check_rows(
        &rt,
        16,
        r#"
## any alternative with a weight above 0 may have been drawn
> #seed 0/#inputs "x":int/#outputs/#locals
> #step 1

f node n() returns (x: int [0;3]) = { |1: x = 1 |1: x = 2 }
> 2 #outs #locs/#end normal 1
= legal

f node n() returns (x: int [0;3]) = { |1: x = 1 |1: x = 2 }
> 1 #outs #locs/#end normal 1
= legal

f node n() returns (x: int [0;3]) = { |1: x = 1 |1: x = 2 }
> 3 #outs #locs/#end normal 1
= illegal 1

f node n() returns (x: int [0;3]) = { |0: x = 1 |1: x = 2 }
> 1 #outs #locs/#end normal 1
= illegal 1

-- One without a weight has the weight 1.
f node n() returns (x: int [0;3]) = { | x = 1 | x = 2 }
> 1 #outs #locs/#end normal 1
= legal

-- Of two alternatives with this value it may have been the second one.
f node n() returns (x: int [0;3]) = { |1: x = 1 fby x = 1 |1: x = 1 fby x = 2 }
> 1 #outs #locs/#step 2/2 #outs #locs/#end normal 2
= legal

-- None of the two goes on so.
f node n() returns (x: int [0;3]) = { |1: x = 1 fby x = 1 |1: x = 1 fby x = 2 }
> 1 #outs #locs/#step 2/3 #outs #locs/#end normal 2
= illegal 2

## a weight is that of the instant
f node n() returns (x: int [0;3] = 2) = loop { |2 - pre x: x = 1 |pre x: x = 0 |1: x = 3 and pre x = 1 }
> #seed 0/#inputs "x":int/#outputs/#locals

-- Before the first step x is 2, so the first alternative has the weight 0, and then 2.
> #step 1/0 #outs #locs/#step 2/1 #outs #locs/#step 3/3 #outs #locs/#end limit 3
= legal

> #step 1/1 #outs #locs/#end limit 1
= illegal 1

> #step 1/0 #outs #locs/#step 2/0 #outs #locs/#end limit 2
= illegal 2

-- Behind 3 it is below 0.
> #step 1/0 #outs #locs/#step 2/1 #outs #locs/#step 3/3 #outs #locs/#end fault NegativeWeight 4
= legal

## several values of one step
f node n() returns (x, y: int [0;9]; b: bool) = { &> x + y = 9 &> loop { b => x > y } }
> #seed 0/#inputs "x":int "y":int "b":bool/#outputs/#locals

> #step 1/5 4 t #outs #locs/#end limit 1
= legal

> #step 1/4 5 f #outs #locs/#end limit 1
= legal

> #step 1/4 5 t #outs #locs/#end limit 1
= illegal 1

> #step 1/5 5 t #outs #locs/#end limit 1
= illegal 1

-- The loop goes on after the first side.
> #step 1/5 4 t #outs #locs/#step 2/1 0 t #outs #locs/#end limit 2
= legal
"#,
    )
}

#[test]
fn what_has_to_be_preferred_comes_first(rt: HostRuntime) -> Result<(), Fail> {
    check_rows(
        &rt,
        15,
        r#"
## the right side of a priority needs a left one that can't be taken
> #seed 0/#inputs "x":int/#outputs/#locals
> #step 1

f node n() returns (x: int [0;3]) = { x = 1 |> x = 2 }
> 2 #outs #locs/#end normal 1
= illegal 1

f node n() returns (x: int [0;3]) = { x = 1 |> x = 2 }
> 1 #outs #locs/#end normal 1
= legal

f node n() returns (x: int [0;3]) = { x > 3 |> x = 2 }
> 2 #outs #locs/#end normal 1
= legal

-- An alternative on the left can be taken, which has a weight.
f node n() returns (x: int [0;3]) = { { |1: x > 3 |1: x = 1 } |> x = 2 }
> 2 #outs #locs/#end normal 1
= illegal 1

f node n() returns (x: int [0;3]) = { { |1: x > 3 |0: x = 1 } |> x = 2 }
> 2 #outs #locs/#end normal 1
= legal

-- Of three the first two can't be taken, or the second one can.
f node n() returns (x: int [0;3]) = { x > 3 |> x < 0 |> x = 2 }
> 2 #outs #locs/#end normal 1
= legal

f node n() returns (x: int [0;3]) = { x > 3 |> x = 0 |> x = 2 }
> 2 #outs #locs/#end normal 1
= illegal 1

-- Both sides do so.
f node n() returns (x: int [0;3]) = { x < 3 |> x = 2 }
> 2 #outs #locs/#end normal 1
= legal

## a fault and a raise on the left can be taken too
> #seed 0/#inputs "x":int/#outputs/#locals

f node n() returns (x: int [0;3]) = { x = 1 div 0 |> x = 2 }
> #step 1/2 #outs #locs/#end normal 1
= illegal 1

f exception A node n() returns (x: int [0;3]) = { raise A |> x = 2 }
> #step 1/2 #outs #locs/#end normal 1
= illegal 1

-- A deadlock can't.
f node n() returns (x: int [0;3]) = { raise Deadlock |> x = 2 }
> #step 1/2 #outs #locs/#end normal 1
= legal

## a loop turns as long as it can
> #seed 0/#inputs "x":int/#outputs/#locals

f node n() returns (x: int [0;3] = 0) = loop { x = pre x + 1 } fby x = 0
> #step 1/1 #outs #locs/#step 2/0 #outs #locs/#end normal 2
= illegal 2

-- No number of its range is above 3.
f node n() returns (x: int [0;3] = 0) = loop { x = pre x + 1 } fby x = 0
> #step 1/1 #outs #locs/#step 2/2 #outs #locs/#step 3/3 #outs #locs/#step 4/0 #outs #locs/#end normal 4
= legal

-- A loop with two bounds may end between them.
f node n() returns (x: int [0;3]) = loop [1,2] x = 1 fby x = 0
> #step 1/1 #outs #locs/#step 2/0 #outs #locs/#end normal 2
= legal

f node n() returns (x: int [0;3]) = loop [1,2] x = 1 fby x = 0
> #step 1/1 #outs #locs/#step 2/1 #outs #locs/#step 3/1 #outs #locs/#end limit 3
= illegal 3
"#,
    )
}

#[test]
fn a_search_is_asked_for_only_where_that_decides(rt: HostRuntime) -> Result<(), Fail> {
    check_rows(
        &rt,
        4,
        r#"
## no search is needed where a step shows its own match
budget 1
> #seed 0/#inputs "x":int/#outputs/#locals

f node n() returns (x: int [0;3]) = x = 1
> #step 1/1 #outs #locs/#end limit 1
= legal

f node n() returns (x: int [0;3]) = x = 1
> #step 1/2 #outs #locs/#end limit 1
= illegal 1

-- Nor where it matches on the left, or a fault stands there.
f node n() returns (x: int [0;3]) = { x <> 2 |> x = 2 }
> #step 1/1 #outs #locs/#end limit 1
= legal

f node n() returns (x: int [0;3]) = { x = 1 div 0 |> x = 2 }
> #step 1/2 #outs #locs/#end limit 1
= illegal 1
"#,
    )
}

#[test]
fn values_are_points_of_their_ranges(rt: HostRuntime) -> Result<(), Fail> {
    check_rows(
        &rt,
        9,
        r#"
## an output outside its range, or between its points, is in no step
f node n() returns (x: int [0;9;3]; r: real [-0.5;1.0]) = loop true
> #seed 0/#inputs "x":int "r":real/#outputs/#locals

> #step 1/9 -0.50 #outs #locs/#end limit 1
= legal

> #step 1/10 0.00 #outs #locs/#end limit 1
= illegal 1

> #step 1/8 0.00 #outs #locs/#end limit 1
= illegal 1

> #step 1/0 -0.51 #outs #locs/#end limit 1
= illegal 1

-- What no step can have stands in the second one.
> #step 1/0 0.07 #outs #locs/#step 2/3 1.01 #outs #locs/#end limit 2
= illegal 2

## an output without a range
-- It goes from -10000 to 10000.
f node n() returns (x: int) = loop true
> #seed 0/#inputs "x":int/#outputs/#locals

> #step 1/-10000 #outs #locs/#end limit 1
= legal

> #step 1/10001 #outs #locs/#end limit 1
= illegal 1

> #step 1/1000000000000 #outs #locs/#end limit 1
= illegal 1

> #step 1/1000000000001 #outs #locs/#end limit 1
= line 6
"#,
    )
}

#[test]
fn inputs_are_those_of_the_instant_before(rt: HostRuntime) -> Result<(), Fail> {
    check_rows(
        &rt,
        6,
        r#"
## an instant has the inputs that the step before shows
f node n(y: int [0;9] = 7) returns (x: int [0;9]) = x = y fby x = y fby x = pre y fby x = pre y
> #seed 0/#inputs "x":int/#outputs "y":int/#locals

> #step 1/7 #outs 3 #locs/#step 2/3 #outs 4 #locs/#step 3/3 #outs 5 #locs/#step 4/4 #outs 6 #locs/#end normal 4
= legal

> #step 1/3 #outs 3 #locs/#end limit 1
= illegal 1

> #step 1/7 #outs 3 #locs/#step 2/7 #outs 4 #locs/#end limit 2
= illegal 2

> #step 1/7 #outs 3 #locs/#step 2/3 #outs 4 #locs/#step 3/4 #outs 5 #locs/#end limit 3
= illegal 3

## an input without a first value
-- It is the number of its range that is nearest to 0.
f node n(y: int [-5;-2]) returns (x: int) = x = y fby x = pre y
> #seed 0/#inputs "x":int/#outputs "y":int/#locals

> #step 1/-2 #outs -5 #locs/#step 2/-2 #outs -5 #locs/#end normal 2
= legal

> #step 1/0 #outs -5 #locs/#end limit 1
= illegal 1
"#,
    )
}
