//! Locals, which a step shows as long as they are in scope.

use crate::rows::check_rows;
use std::test::Fail;

#[test]
fn a_step_shows_exactly_the_locals_in_scope(rt: HostRuntime) -> Result<(), Fail> {
    check_rows(
        &rt,
        12,
        r#"
## a local in scope has a value, and one out of scope has none
f node n() returns (x: int [0;3]) = x = 1 fby exist v: int [0;3] in x = v
> #seed 0/#inputs "x":int/#outputs/#locals "v.1":int

> #step 1/1 #outs #locs ?/#step 2/2 #outs #locs 2/#end normal 2
= legal

> #step 1/1 #outs #locs 2/#end limit 1
= illegal 1

> #step 1/1 #outs #locs ?/#step 2/2 #outs #locs ?/#end normal 2
= illegal 2

> #step 1/1 #outs #locs ?/#step 2/2 #outs #locs 1/#end normal 2
= illegal 2

-- It is outside its range, as the output is.
> #step 1/1 #outs #locs ?/#step 2/4 #outs #locs 4/#end normal 2
= illegal 2

## a local outside its range, or between its points, is in no step
f node n() returns (x: int [0;9]) = exist v: int [0;3]; w: real [0.0;1.0;0.25] in loop x >= v
> #seed 0/#inputs "x":int/#outputs/#locals "v.1":int "w.2":real

> #step 1/5 #outs #locs 3 0.75/#end limit 1
= legal

> #step 1/5 #outs #locs 4 0.75/#end limit 1
= illegal 1

> #step 1/5 #outs #locs 3 0.80/#end limit 1
= illegal 1

## a local keeps its value for the next instant of its scope
f node n() returns (x: int [0;9]) = exist v: int [0;9] = 4 in loop [3,3] { v = pre v + 1 } fby exist v: int [0;9] in x = v fby v = pre v
> #seed 0/#inputs "x":int/#outputs/#locals "v.1":int "v.2":int

> #step 1/0 #outs #locs 5 ?/#step 2/0 #outs #locs 6 ?/#end limit 2
= legal

> #step 1/0 #outs #locs 5 ?/#step 2/0 #outs #locs 7 ?/#end limit 2
= illegal 2

-- The second one is another local, in scope in the fourth instant and the fifth one, in which the first one is too.
> #step 1/0 #outs #locs 5 ?/#step 2/0 #outs #locs 6 ?/#step 3/0 #outs #locs 7 ?/#step 4/1 #outs #locs 9 1/#step 5/0 #outs #locs 0 1/#end normal 5
= legal

> #step 1/0 #outs #locs 5 ?/#step 2/0 #outs #locs 6 ?/#step 3/0 #outs #locs 7 ?/#step 4/1 #outs #locs 9 1/#step 5/0 #outs #locs 0 2/#end normal 5
= illegal 5
"#,
    )
}

#[test]
fn the_locals_shown_tell_which_alternative_was_taken(rt: HostRuntime) -> Result<(), Fail> {
    check_rows(
        &rt,
        4,
        r#"
## of two alternatives with their own locals the step is one of them
f node n() returns (x: int [0;3]) = { | exist v: int [0;3] in { true fby x = pre v } | exist w: int [0;3] in { true fby x = 0 } }
> #seed 0/#inputs "x":int/#outputs/#locals "v.1":int "w.2":int

> #step 1/1 #outs #locs 2 ?/#step 2/2 #outs #locs 3 ?/#end normal 2
= legal

> #step 1/1 #outs #locs ? 2/#step 2/0 #outs #locs ? 3/#end normal 2
= legal

> #step 1/1 #outs #locs 2 ?/#step 2/2 #outs #locs ? 3/#end normal 2
= illegal 2

> #step 1/1 #outs #locs 2 2/#end limit 1
= illegal 1
"#,
    )
}
