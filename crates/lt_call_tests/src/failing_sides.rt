//! Programs that fail, or can't be started.

use crate::rows::check_rows;
use std::test::Fail;

#[test]
fn programs_that_fail_end_calls(rt: HostRuntime) -> Result<(), Fail> {
    check_rows(
        &rt,
        "",
        16,
        r#"
## a controller that fails ends the run
-- It is sent its line by the calls 0 and 2, and replies in the calls 1 and 3.
f is node n(y: int [5;9]) returns (x: int [0;9]) = loop x = y
> #seed 0\n#inputs "x":int\n#outputs "y":int

$ run f --sut c -l 3
c says "7\n"
c fails 0
> #end device controller 1
= 9 lurette: device controller 1
c got ""

$ run f --sut c -l 3
c says "7\n"
c fails 1
> #end device controller 1
= 9 lurette: device controller 1
c got "5\n"

$ run f --sut c -l 3
c says "7\n"
c fails 2
> #step 1\n5 #outs 7\n#end device controller 2
= 9 lurette: device controller 2
c got "5\n"

$ run f --sut c -l 3
c says "7\n"
c fails 3
> #step 1\n5 #outs 7\n#end device controller 2
= 9 lurette: device controller 2
c got "5\n7\n"

## a controller that fails after its last reply ends the run
-- The call 3 is the second that receives: its first reply came in one piece.
f is node n(y: int) returns (x: int [0;3]) = loop x = 1
> #seed 0\n#inputs "x":int\n#outputs "y":int

$ run f --sut c -l 3
c says "5\n"
c fails 3
> #step 1\n1 #outs 5\n#end device controller 2
= 9 lurette: device controller 2
c got "1\n1\n"

## an oracle that fails ends the run
f is node n() returns (x: int [0;3]) = loop x = 1
> #seed 0\n#inputs "x":int\n#outputs

$ run f --oracle o
o says "t "
o fails 0
> #end device oracle 1
= 9 lurette: device oracle 1
o got ""

$ run f --oracle o
o says "t "
o fails 1
> #end device oracle 1
= 9 lurette: device oracle 1
o got "1\n"

$ run f --oracle o
o says "t "
o fails 2
> #step 1\n1 #outs\n#end device oracle 2
= 9 lurette: device oracle 2
o got "1\n"

$ run f --oracle o
o says "t "
o fails 3
> #step 1\n1 #outs\n#end device oracle 2
= 9 lurette: device oracle 2
o got "1\n1\n"

## a prefix of a line may be sent
f is node n(y: int [5;9]) returns (x: int [0;9]) = loop x = y
> #seed 0\n#inputs "x":int\n#outputs "y":int

-- Room for three bytes is room for a line and a prefix of the next one.
$ run f --sut c
c says "7 8 "
c holds 3
> #step 1\n5 #outs 7\n#end device controller 2
= 9 lurette: device controller 2
c got "5\n7"

## programs that cannot be started end the call
$ run f --oracle o --sut c
f is node n(y: int [5;9]) returns (x: int [0;9]) = loop x = y

c says "7 "
o says "t "
starts fail 0
= 9 lurette: device controller 0
asks c

-- Where the oracle is missing, the controller was started, and sent nothing.
c says "7 "
o says "t "
starts fail 1
= 9 lurette: device oracle 0
c got ""
asks c o

o says "t "
= 9 lurette: device controller 0
asks c

c says "7 "
= 9 lurette: device oracle 0
c got ""
asks c o

## a header that cannot be written ends a run beside programs

-- Both programs are finished.
$ run f --oracle o --sut c
f is node n(y: int [5;9]) returns (x: int [0;9]) = loop x = y
c says "7 8 "
o says "t t "
writes fail 0
= 9 lurette: device trace 0
c got ""
o got ""

## a step that cannot be written ends a run beside programs
f is node n(y: int [5;9]) returns (x: int [0;9]) = loop x = y
> #seed 0\n#inputs "x":int\n#outputs "y":int

$ run f --oracle o --sut c
c says "7 8 "
o says "t t "
writes fail 1
= 9 lurette: device trace 1
c got "5\n"
o got "5 7\n"
"#,
    )
}
