//! One run beside a controller and an oracle, in which each call of what is outside fails once.

use crate::rows::check_rows;
use std::test::Fail;

const RUN: &str = r#"
f is node n(y: int) returns (x: int [0;3]) = loop x = 1
$ run f -l 2 --sut c --oracle o
c says "5\n6\n"
o says "t t "
"#;

#[test]
fn each_call_of_a_side_fails_once(rt: HostRuntime) -> Result<(), Fail> {
    check_rows(&rt, RUN, 31, SIDES)
}

#[test]
fn each_other_call_fails_once(rt: HostRuntime) -> Result<(), Fail> {
    for cuts in [
        "",
        "c cuts 2 2\no cuts 2 2",
        "c cuts 1 1 1 1\no cuts 1 1 1 1",
    ] {
        let run = format!(in rt.alloc(); "{RUN}{cuts}")?;
        check_rows(&rt, &run, 10, ELSEWHERE)?;
    }
    Ok(())
}

// In which pieces a side speaks says which of its calls is which, since lines and pieces are counted together: those of
// a whole line each are the calls 1 and 3, and those of a byte each the calls 1, 2, 4 and 5. Where all that it says is
// one piece, nothing is received in the second instant.
const SIDES: &str = r#"
## nothing fails
> #seed 0\n#inputs "x":int\n#outputs "y":int
> #step 1\n1 #outs 5\n#step 2\n1 #outs 6\n#end limit 2
c got "1\n1\n"
o got "1 5\n1 6\n"

c cuts 2 2
o cuts 2 2

c cuts 1 1 1 1
o cuts 1 1 1 1

-- These calls aren't made.
c fails 3
o fails 3

c cuts 2 2
o cuts 2 2
c fails 4
o fails 4

c cuts 1 1 1 1
o cuts 1 1 1 1
c fails 6
o fails 6

## the controller's first line can't be sent
> #seed 0\n#inputs "x":int\n#outputs "y":int
> #end device controller 1
= 9 lurette: device controller 1
c got ""
o got ""

c fails 0

c cuts 2 2
o cuts 2 2
c fails 0

c cuts 1 1 1 1
o cuts 1 1 1 1
c fails 0

## the controller's first reply can't be received
> #seed 0\n#inputs "x":int\n#outputs "y":int
> #end device controller 1
= 9 lurette: device controller 1
c got "1\n"
o got ""

c fails 1

c cuts 2 2
o cuts 2 2
c fails 1

c cuts 1 1 1 1
o cuts 1 1 1 1
c fails 1

-- Half of it was received.
c cuts 1 1 1 1
o cuts 1 1 1 1
c fails 2

## the controller's second line can't be sent
> #seed 0\n#inputs "x":int\n#outputs "y":int
> #step 1\n1 #outs 5\n#end device controller 2
= 9 lurette: device controller 2
c got "1\n"
o got "1 5\n"

c fails 2

c cuts 2 2
o cuts 2 2
c fails 2

c cuts 1 1 1 1
o cuts 1 1 1 1
c fails 3

## the controller's second reply can't be received
> #seed 0\n#inputs "x":int\n#outputs "y":int
> #step 1\n1 #outs 5\n#end device controller 2
= 9 lurette: device controller 2
c got "1\n1\n"
o got "1 5\n"

c cuts 2 2
o cuts 2 2
c fails 3

c cuts 1 1 1 1
o cuts 1 1 1 1
c fails 4

c cuts 1 1 1 1
o cuts 1 1 1 1
c fails 5

## the oracle's first line can't be sent
> #seed 0\n#inputs "x":int\n#outputs "y":int
> #end device oracle 1
= 9 lurette: device oracle 1
c got "1\n"
o got ""

o fails 0

c cuts 2 2
o cuts 2 2
o fails 0

c cuts 1 1 1 1
o cuts 1 1 1 1
o fails 0

## the oracle's first verdict can't be received
> #seed 0\n#inputs "x":int\n#outputs "y":int
> #end device oracle 1
= 9 lurette: device oracle 1
c got "1\n"
o got "1 5\n"

o fails 1

c cuts 2 2
o cuts 2 2
o fails 1

c cuts 1 1 1 1
o cuts 1 1 1 1
o fails 1

-- Half of it was received.
c cuts 1 1 1 1
o cuts 1 1 1 1
o fails 2

## the oracle's second line can't be sent
> #seed 0\n#inputs "x":int\n#outputs "y":int
> #step 1\n1 #outs 5\n#end device oracle 2
= 9 lurette: device oracle 2
c got "1\n1\n"
o got "1 5\n"

o fails 2

c cuts 2 2
o cuts 2 2
o fails 2

c cuts 1 1 1 1
o cuts 1 1 1 1
o fails 3

## the oracle's second verdict can't be received
> #seed 0\n#inputs "x":int\n#outputs "y":int
> #step 1\n1 #outs 5\n#end device oracle 2
= 9 lurette: device oracle 2
c got "1\n1\n"
o got "1 5\n1 6\n"

c cuts 2 2
o cuts 2 2
o fails 3

c cuts 1 1 1 1
o cuts 1 1 1 1
o fails 4

c cuts 1 1 1 1
o cuts 1 1 1 1
o fails 5
"#;

// What else fails, whatever the pieces are in which the sides speak.
const ELSEWHERE: &str = r#"
## what fails before the run leaves no trace

reads fail 0
= 9 lurette: device file 0

starts fail 0
= 9 lurette: device controller 0
asks c

starts fail 1
= 9 lurette: device oracle 0
c got ""
asks c o

writes fail 0
= 9 lurette: device trace 0
c got ""
o got ""

## what fails in the run leaves the texts before it
> #seed 0\n#inputs "x":int\n#outputs "y":int

writes fail 1
= 9 lurette: device trace 1
c got "1\n"
o got "1 5\n"

writes fail 2
> #step 1\n1 #outs 5
= 9 lurette: device trace 2
c got "1\n1\n"
o got "1 5\n1 6\n"

writes fail 3
> #step 1\n1 #outs 5\n#step 2\n1 #outs 6
= 9 lurette: device trace 3
c got "1\n1\n"
o got "1 5\n1 6\n"

## calls that aren't made don't fail
> #seed 0\n#inputs "x":int\n#outputs "y":int
> #step 1\n1 #outs 5\n#step 2\n1 #outs 6\n#end limit 2
c got "1\n1\n"
o got "1 5\n1 6\n"

reads fail 1
starts fail 2
writes fail 4
says fails 0

## a program that ends badly changes nothing
> #seed 0\n#inputs "x":int\n#outputs "y":int
> #step 1\n1 #outs 5\n#step 2\n1 #outs 6\n#end limit 2
c got "1\n1\n"
o got "1 5\n1 6\n"

ends fail 0

ends fail 1
"#;
