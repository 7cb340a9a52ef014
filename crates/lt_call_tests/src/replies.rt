//! Replies that are refused, and replies that are missing.

use crate::rows::check_rows;
use std::test::Fail;

#[test]
fn replies_are_refused_and_missed(rt: HostRuntime) -> Result<(), Fail> {
    check_rows(
        &rt,
        "",
        11,
        r#"
## replies are refused at their places
-- Of the replies of a controller 5 to 9 are allowed.
f is node n(y: int [5;9]) returns (x: int [0;9]) = loop x = y
> #seed 0\n#inputs "x":int\n#outputs "y":int

$ run f --sut c
c says "7x\n"
> #end malformed controller NotAValue 1
= 7 lurette: malformed controller NotAValue 1 at 0
c got "5\n"

$ run f --sut c
c says "7\n-- eleven\n 11 "
> #step 1\n5 #outs 7\n#end malformed controller OutOfRange 2
= 7 lurette: malformed controller OutOfRange 2 at 13
c got "5\n7\n"

-- A word has ended where its stream has.
$ run f --sut c
c says "7 8 t"
> #step 1\n5 #outs 7\n#step 2\n7 #outs 8\n#end malformed controller NotAValue 3
= 7 lurette: malformed controller NotAValue 3 at 4
c got "5\n7\n8\n"

## verdicts are refused at their places
f is node n() returns (x: int [0;3]) = loop x = 1
> #seed 0\n#inputs "x":int\n#outputs

$ run f --oracle o
o says "t 2 "
> #step 1\n1 #outs\n#end malformed oracle NotAValue 2
= 7 lurette: malformed oracle NotAValue 2 at 2
o got "1\n1\n"

## replies that are missing end runs
f is node n(y: int [5;9]) returns (x: int [0;9]) = loop x = y
> #seed 0\n#inputs "x":int\n#outputs "y":int

$ run f --sut c
c says "7 8"
> #step 1\n5 #outs 7\n#step 2\n7 #outs 8\n#end ended controller 3
= 8 lurette: ended controller 3
c got "5\n7\n8\n"

$ run f --sut c
c says "7\n# 8"
> #step 1\n5 #outs 7\n#end ended controller 2
= 8 lurette: ended controller 2
c got "5\n7\n"

## verdicts that are missing end runs
f is node n() returns (x: int [0;3]) = loop x = 1
> #seed 0\n#inputs "x":int\n#outputs

$ run f --oracle o
o says "t "
> #step 1\n1 #outs\n#end ended oracle 2
= 8 lurette: ended oracle 2
o got "1\n1\n"

$ run f --oracle o
o says ""
> #end ended oracle 1
= 8 lurette: ended oracle 1
o got "1\n"

## a reply that misses a value ended

$ run f --sut c
f is node n(y, z: int) returns (x: int [0;3]) = loop x = 1
c says "4 5\n6"
> #seed 0\n#inputs "x":int\n#outputs "y":int "z":int
> #step 1\n1 #outs 4 5\n#end ended controller 2
= 8 lurette: ended controller 2
c got "1\n1\n"

## long replies are refused
-- Of 65,536 bytes none may be missing after a value.
$ run f --sut c -l 1
f is node n(y: int) returns (x: int [0;3]) = loop x = 1
> #seed 0\n#inputs "x":int\n#outputs "y":int

c says "<<65534 times \s>>7 "
> #step 1\n1 #outs 7\n#end limit 1
c got "1\n"

c says "<<65535 times \s>>7 "
> #end malformed controller TooLong 1
= 7 lurette: malformed controller TooLong 1 at 0
c got "1\n"
"#,
    )
}
