//! Files and traces that fail.

use crate::rows::check_rows;
use std::test::Fail;

#[test]
fn files_and_traces_that_fail_end_calls(rt: HostRuntime) -> Result<(), Fail> {
    check_rows(
        &rt,
        "",
        26,
        r#"
## files are refused
f is node n() returns (b: bool) = b fby not b
= 9 lurette: device file 0

$ run g

$ run f
reads fail 0

$ print g

$ print f
reads fail 0

## a write that fails ends the run
-- The header ends after 34 bytes, each of two steps after 16 more, and the end line after 80.
$ run f
f is node n() returns (b: bool) = b fby not b
> #seed 0\n#inputs "b":bool\n#outputs\n#step 1\nt #outs\n#step 2\nf #outs\n#end normal 2

trace holds 0 to 33
= 9 lurette: device trace 0

trace holds 34 to 49
= 9 lurette: device trace 1

trace holds 50 to 65
= 9 lurette: device trace 2

trace holds 66 to 79
= 9 lurette: device trace 3

trace holds 80

## each write may fail
$ run f
f is node n() returns (b: bool) = b fby not b

-- The texts before it are there, and nothing of it or of those after it.
writes fail 0
= 9 lurette: device trace 0

writes fail 1
> #seed 0\n#inputs "b":bool\n#outputs
= 9 lurette: device trace 1

writes fail 2
> #seed 0\n#inputs "b":bool\n#outputs
> #step 1\nt #outs
= 9 lurette: device trace 2

writes fail 3
> #seed 0\n#inputs "b":bool\n#outputs
> #step 1\nt #outs\n#step 2\nf #outs
= 9 lurette: device trace 3

## a trace may take its texts in pieces
$ run f
f is node n() returns (b: bool) = b fby not b
> #seed 0\n#inputs "b":bool\n#outputs\n#step 1\nt #outs\n#step 2\nf #outs\n#end normal 2

trace cuts 1 1 1 1 1 1 1 1 1 1 1 1 1 1 1 1 1 1 1 1 1 1 1 1 1 1 1 1 1 1 1 1 1 1 1 1 1 1 1 1 1 1 1 1 1 1 1 1 1 1 1 1 1 1 1 1

trace cuts 0 100 3 0

trace cuts 20
trace holds 21 to 33
= 9 lurette: device trace 0

## a write may fail within a text
$ run f
f is node n() returns (b: bool) = b fby not b

-- The first line of the header has eight bytes, and so has that of a step.
trace cuts 8
writes fail 1
> #seed 0
= 9 lurette: device trace 0

trace cuts 100 8
writes fail 2
> #seed 0\n#inputs "b":bool\n#outputs\n#step 1
= 9 lurette: device trace 1

trace cuts 100 100 8
writes fail 3
> #seed 0\n#inputs "b":bool\n#outputs\n#step 1\nt #outs\n#step 2
= 9 lurette: device trace 2

## a write that fails cuts the printed program
$ print f
f is node n() returns (b: bool) = b fby not b
> node n ( ) returns ( b : bool ) = b fby not b

trace holds 0 to 45
= 9 lurette: device trace 0

trace holds 46

## a line that can't be said changes neither status nor trace
says fails 0

$ run f
f is node n() returns (x: int [0;3]) = x > 3
> #seed 0\n#inputs "x":int\n#outputs\n#end deadlock 1
= 4

-- It was said in vain that the trace can't be written.
$ run f
f is node n() returns (x: int [0;3]) = x > 3
> #seed 0\n#inputs "x":int\n#outputs
writes fail 1
= 9

$ run f
f is node n() returns (x: int [0;3]) = y
= 3

$ run g
f is node n() returns (x: int [0;3]) = x > 3
= 9

$ run
f is node n() returns (x: int [0;3]) = x > 3
= 2
files 0
"#,
    )
}
