//! Earlier traces that are played again.

use crate::rows::check_rows;
use std::test::Fail;

#[test]
fn earlier_traces_are_played_again(rt: HostRuntime) -> Result<(), Fail> {
    check_rows(
        &rt,
        "",
        21,
        r##"
## the trace of a run is played again
-- After the row of a run stands that of its trace, which is played again without the controller.
c says "7 8 "
o says "t f "

$ run f --sut c -l 2
f is node n(y: int [5;9]) returns (x: int [0;9]) = loop x = y
> #seed 0\n#inputs "x":int\n#outputs "y":int
> #step 1\n5 #outs 7\n#step 2\n7 #outs 8\n#end limit 2
c got "5\n7\n"

$ run f --replay t -l 2
f is node n(y: int [5;9]) returns (x: int [0;9]) = loop x = y
> #seed 0\n#inputs "x":int\n#outputs "y":int
> #step 1\n5 #outs 7\n#step 2\n7 #outs 8\n#end limit 2
t is its trace
files 2

$ run f --sut c -l 2 --seed 2 --draw 3
f is node n(y: int) returns (x: int [0;3]) = loop x <> 2
> #seed 2\n#draw 3\n#inputs "x":int\n#outputs "y":int
> #step 1\n1 #outs 7\n#step 2\n3 #outs 8\n#end limit 2
c got "1\n3\n"

$ run f --replay t -l 2 --seed 2 --draw 3
f is node n(y: int) returns (x: int [0;3]) = loop x <> 2
> #seed 2\n#draw 3\n#inputs "x":int\n#outputs "y":int
> #step 1\n1 #outs 7\n#step 2\n3 #outs 8\n#end limit 2
t is its trace
files 2

$ run f --sut c
f is node n(y: int [5;9]) returns (x: int [0;9]) = x = y fby x = y
> #seed 0\n#inputs "x":int\n#outputs "y":int
> #step 1\n5 #outs 7\n#step 2\n7 #outs 8\n#end normal 2
c got "5\n7\n"

$ run f --replay t
f is node n(y: int [5;9]) returns (x: int [0;9]) = x = y fby x = y
> #seed 0\n#inputs "x":int\n#outputs "y":int
> #step 1\n5 #outs 7\n#step 2\n7 #outs 8\n#end normal 2
t is its trace
files 2

$ run f --sut c --oracle o
f is node n(y: int [5;9]) returns (x: int [0;9]) = loop x = y
> #seed 0\n#inputs "x":int\n#outputs "y":int
> #step 1\n5 #outs 7\n#step 2\n7 #outs 8\n#end oracle 2
= 1 lurette: oracle 2
c got "5\n7\n"
o got "5 7\n7 8\n"

$ run f --replay t --oracle o
f is node n(y: int [5;9]) returns (x: int [0;9]) = loop x = y
> #seed 0\n#inputs "x":int\n#outputs "y":int
> #step 1\n5 #outs 7\n#step 2\n7 #outs 8\n#end oracle 2
= 1 lurette: oracle 2
o got "5 7\n7 8\n"
t is its trace
files 2

$ run f --sut c
f is node n(y: int [5;9]) returns (x: int [0;9]) = x = y fby x > 9
> #seed 0\n#inputs "x":int\n#outputs "y":int
> #step 1\n5 #outs 7\n#end deadlock 2
= 4 lurette: deadlock 2
c got "5\n"

$ run f --replay t
f is node n(y: int [5;9]) returns (x: int [0;9]) = x = y fby x > 9
> #seed 0\n#inputs "x":int\n#outputs "y":int
> #step 1\n5 #outs 7\n#end deadlock 2
= 4 lurette: deadlock 2
t is its trace
files 2

-- What is after `#locs` is passed over.
$ run f --sut c --locals -l 2
f is node n(y: int [5;9]) returns (x: int [0;9]) = loop { exist v: int [0;9] in x = y and v = x }
> #seed 0\n#inputs "x":int\n#outputs "y":int\n#locals "v.1":int
> #step 1\n5 #outs 7 #locs 5\n#step 2\n7 #outs 8 #locs 7\n#end limit 2
c got "5\n7\n"

$ run f --replay t --locals -l 2
f is node n(y: int [5;9]) returns (x: int [0;9]) = loop { exist v: int [0;9] in x = y and v = x }
> #seed 0\n#inputs "x":int\n#outputs "y":int\n#locals "v.1":int
> #step 1\n5 #outs 7 #locs 5\n#step 2\n7 #outs 8 #locs 7\n#end limit 2
t is its trace
files 2

## an earlier trace gives the replies
f is node n(y: int [5;9]) returns (x: int [0;9]) = loop x = y
> #seed 0\n#inputs "x":int\n#outputs "y":int

$ run f -l 10 --replay t
t is "5 #outs 7\n7 #outs 4\n"
> #step 1\n5 #outs 7\n#end malformed controller OutOfRange 2
= 7 lurette: malformed controller OutOfRange 2 at 18
files 2

-- The outputs of the earlier run are let go, if they are numbers.
$ run f -l 10 --replay t
t is "-30 #outs 7\n3.5 #outs 8\n"
> #step 1\n5 #outs 7\n#end malformed controller NotAValue 2
= 7 lurette: malformed controller NotAValue 2 at 12
files 2

## an earlier trace may end too early
f is node n(y: int) returns (x: int [0;3]) = loop x = 1
> #seed 0\n#inputs "x":int\n#outputs "y":int

$ run f -l 10 --replay t
t is "#step 1\n1 #outs 5\n#step 2\n1 #outs 6\n#step 3\n1 #o"
> #step 1\n1 #outs 5\n#step 2\n1 #outs 6\n#end ended controller 3
= 8 lurette: ended controller 3
files 2

## an earlier trace may end too early where nothing is given
f is node n() returns (x: int [0;3]) = loop x = 1
> #seed 0\n#inputs "x":int\n#outputs

-- The steps of a scenario without inputs are counted by its outputs.
$ run f -l 10 --replay t
t is "1 #outs\n2 "
> #step 1\n1 #outs\n#step 2\n1 #outs\n#end ended controller 3
= 8 lurette: ended controller 3
files 2

## an earlier trace that cannot be read ends the call
f is node n(y: int [5;9]) returns (x: int [0;9]) = loop x = y
= 9 lurette: device file 0
files 2

$ run f --replay t --oracle o

$ run f --replay t
t is "5 7 "
reads fail 1

## a wrong scenario is refused before an earlier trace is read

$ run f --replay t
f is node n() returns (b: bool) = c
= 3 lurette: refused type.Unknown at 29
files 1

## a controller and an earlier trace are too much
f is node n(b: bool) returns (c: bool) = c
t is "t t "
c says "t "

$ run f --sut c --replay t
= 2 lurette: usage: both\nlurette MODE FILE [-l N] [--seed N] [--precision N] [--budget N] [--node NAME] [--sut CMD] [--oracle CMD] [--replay FILE] [--locals] [--draw N] [--count N]
files 0

$ print f --sut c --replay t
> node n ( b : bool ) returns ( c : bool ) = c
files 1
"##,
    )
}
