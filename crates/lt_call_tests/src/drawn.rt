//! What is drawn, and which solution it gives.

use crate::rows::check_rows;
use std::test::Fail;

#[test]
fn what_is_drawn_is_named_by_the_seed(rt: HostRuntime) -> Result<(), Fail> {
    // The same call twice writes the same.
    for _ in 0..2 {
        check_rows(&rt, "", 32, DRAWN)?;
    }
    Ok(())
}

const DRAWN: &str = r#"
## what is drawn is named by the seed

$ run f -l 3 --seed 0
f is node n() returns (x: int [0;999]) = loop true
> #seed 0\n#inputs "x":int\n#outputs
> #step 1\n928 #outs\n#step 2\n576 #outs\n#step 3\n865 #outs
> #end limit 3

$ run f -l 3 --seed 1
f is node n() returns (x: int [0;999]) = loop true
> #seed 1\n#inputs "x":int\n#outputs
> #step 1\n997 #outs\n#step 2\n930 #outs\n#step 3\n769 #outs
> #end limit 3

$ run f -l 8 --seed 0
f is node n() returns (x: int [0;3]) = loop { |3: x = 1 |1: x = 2 }
> #seed 0\n#inputs "x":int\n#outputs
> #step 1\n1 #outs\n#step 2\n2 #outs\n#step 3\n1 #outs\n#step 4\n1 #outs
> #step 5\n1 #outs\n#step 6\n2 #outs\n#step 7\n1 #outs\n#step 8\n1 #outs
> #end limit 8

$ run f -l 8 --seed 7
f is node n() returns (x: int [0;3]) = loop { |3: x = 1 |1: x = 2 }
> #seed 7\n#inputs "x":int\n#outputs
> #step 1\n2 #outs\n#step 2\n1 #outs\n#step 3\n2 #outs\n#step 4\n1 #outs
> #step 5\n1 #outs\n#step 6\n1 #outs\n#step 7\n1 #outs\n#step 8\n1 #outs
> #end limit 8

$ run f -l 5 --seed 0
f is node n() returns (x: int [0;9] = 5) = exist d: int [-1;1] in loop x = pre x + d
> #seed 0\n#inputs "x":int\n#outputs
> #step 1\n4 #outs\n#step 2\n3 #outs\n#step 3\n2 #outs\n#step 4\n1 #outs\n#step 5\n0 #outs
> #end limit 5

$ run f -l 5 --seed 5
f is node n() returns (x: int [0;9] = 5) = exist d: int [-1;1] in loop x = pre x + d
> #seed 5\n#inputs "x":int\n#outputs
> #step 1\n4 #outs\n#step 2\n3 #outs\n#step 3\n2 #outs\n#step 4\n3 #outs\n#step 5\n2 #outs
> #end limit 5

-- The last seed.
$ run f -l 0 --seed 18446744073709551615
f is node n() returns (x: int [0;999]) = loop true
> #seed 18446744073709551615\n#inputs "x":int\n#outputs
> #end limit 0

## each further try of a choice takes a further word

-- Its first word is 2 by 3, which takes the third, that can't be; the next one is 0 by 2, and the first one is odd.
$ run f
f is node n() returns (x: int [0;3]) = { | x = 1 | x = 2 | x > 3 }
> #seed 0\n#inputs "x":int\n#outputs
> #step 1\n1 #outs\n#end normal 1

## the first solution is the first from the drawn point

$ run f
f is node n() returns (a, b: bool) = a or b
> #seed 0\n#inputs "a":bool "b":bool\n#outputs
> #step 1\nf t #outs
> #end normal 1

$ run f -l 4
f is node n() returns (a, b, c: bool) = loop { (a xor b) and (b => c) fby a }
> #seed 0\n#inputs "a":bool "b":bool "c":bool\n#outputs
> #step 1\nf t t #outs\n#step 2\nt t t #outs\n#step 3\nt f f #outs\n#step 4\nt t t #outs
> #end limit 4

$ run f
f is node n() returns (a, b, c, d, e, f, g, h, i: bool) = a
> #seed 0\n#inputs "a":bool "b":bool "c":bool "d":bool "e":bool "f":bool "g":bool "h":bool "i":bool\n#outputs
> #step 1\nt f f f t t t f f #outs
> #end normal 1

$ run f -l 4
f is node n() returns (x, y: int [0;3]) = loop x + y = 3
> #seed 0\n#inputs "x":int "y":int\n#outputs
> #step 1\n0 3 #outs\n#step 2\n0 3 #outs\n#step 3\n1 2 #outs\n#step 4\n0 3 #outs
> #end limit 4

## by the second rule of drawing each variable has a direction of its own

-- Nothing is said of a target, so it is taken in each direction.
$ run f -l 3 --draw 2
f is node n() returns (x: int [0;999]) = loop true
> #seed 0\n#draw 2\n#inputs "x":int\n#outputs
> #step 1\n928 #outs\n#step 2\n576 #outs\n#step 3\n865 #outs
> #end limit 3

$ run f --draw 2
f is node n() returns (x: int [0;3]) = x = 1
> #seed 0\n#draw 2\n#inputs "x":int\n#outputs
> #step 1\n1 #outs\n#end normal 1

-- The targets are 8, 6, 5, 4, 8, and the second, the third and the last lead downward.
$ run f -l 5 --draw 2
f is node n() returns (x: int [0;9] = 5) = exist d: int [-1;1] in loop x = pre x + d
> #seed 0\n#draw 2\n#inputs "x":int\n#outputs
> #step 1\n4 #outs\n#step 2\n5 #outs\n#step 3\n5 #outs\n#step 4\n4 #outs\n#step 5\n5 #outs
> #end limit 5

$ run f -l 5 --draw 1
f is node n() returns (x: int [0;9] = 5) = exist d: int [-1;1] in loop x = pre x + d
> #seed 0\n#inputs "x":int\n#outputs
> #step 1\n4 #outs\n#step 2\n3 #outs\n#step 3\n2 #outs\n#step 4\n1 #outs\n#step 5\n0 #outs
> #end limit 5

-- Three more targets are 7, 5, 4, and only the last of them leads downward. The fifth step goes down to 7, and up it would be 2.
$ run f -l 8 --draw 2
f is node n() returns (x: int [0;9]) = loop (x = 2 or x = 7)
> #seed 0\n#draw 2\n#inputs "x":int\n#outputs
> #step 1\n2 #outs\n#step 2\n2 #outs\n#step 3\n2 #outs\n#step 4\n7 #outs
> #step 5\n7 #outs\n#step 6\n7 #outs\n#step 7\n7 #outs\n#step 8\n2 #outs
> #end limit 8

## by the third rule of drawing each variable aims between the least and the greatest number that it can have

-- In turn 2, 2, 2 and 3 are aimed at. 2 can't be: the first and the third one lead downward, and the second one upward.
$ run f -l 4 --seed 2 --draw 3
f is node n() returns (x: int [0;3]) = loop x <> 2
> #seed 2\n#draw 3\n#inputs "x":int\n#outputs
> #step 1\n1 #outs\n#step 2\n3 #outs\n#step 3\n1 #outs\n#step 4\n3 #outs
> #end limit 4

-- By 3 the words leave 1, 1, 1, 2, 1, 0.
$ run f -l 6 --draw 3
f is node n() returns (x: int [0;100]) = loop x > 97
> #seed 0\n#draw 3\n#inputs "x":int\n#outputs
> #step 1\n99 #outs\n#step 2\n99 #outs\n#step 3\n99 #outs\n#step 4\n100 #outs
> #step 5\n99 #outs\n#step 6\n98 #outs
> #end limit 6

-- The first one can have 3 to 9, and its words leave 6, 6, 2, 4 by 7. Then the second one can have one number alone.
$ run f -l 4 --draw 3
f is node n() returns (x, y: int [0;9]) = loop x + y = 12
> #seed 0\n#draw 3\n#inputs "x":int "y":int\n#outputs
> #step 1\n9 3 #outs\n#step 2\n9 3 #outs\n#step 3\n5 7 #outs\n#step 4\n7 5 #outs
> #end limit 4

-- It can have 2.50, 5.00, 7.50 and 10.00, and the words leave 2, 2, 2, 3 by 4.
$ run f -l 4 --seed 2 --draw 3
f is node n() returns (x: real [0.0;10.0;2.5]) = loop x > 1.0
> #seed 2\n#draw 3\n#inputs "x":real\n#outputs
> #step 1\n7.50 #outs\n#step 2\n7.50 #outs\n#step 3\n7.50 #outs\n#step 4\n10.00 #outs
> #end limit 4

-- Booleans that constraints name one by one are as they say, and others are the same by each rule.
$ run f --draw 3
f is node n() returns (a, b, c, d, e, f, g, h, i: bool) = a
> #seed 0\n#draw 3\n#inputs "a":bool "b":bool "c":bool "d":bool "e":bool "f":bool "g":bool "h":bool "i":bool\n#outputs
> #step 1\nt f f f t t t f f #outs
> #end normal 1

## an alternative without weight is never taken
f is node n() returns (x: int [0;3]) = { |0: x = 1 |3: x = 2 }

$ run f --seed 0
> #seed 0\n#inputs "x":int\n#outputs
> #step 1\n2 #outs\n#end normal 1

$ run f --seed 1
> #seed 1\n#inputs "x":int\n#outputs
> #step 1\n2 #outs\n#end normal 1

$ run f --seed 2
> #seed 2\n#inputs "x":int\n#outputs
> #step 1\n2 #outs\n#end normal 1

$ run f --seed 3
> #seed 3\n#inputs "x":int\n#outputs
> #step 1\n2 #outs\n#end normal 1

$ run f --seed 4
> #seed 4\n#inputs "x":int\n#outputs
> #step 1\n2 #outs\n#end normal 1

$ run f --seed 5
> #seed 5\n#inputs "x":int\n#outputs
> #step 1\n2 #outs\n#end normal 1

$ run f --seed 6
> #seed 6\n#inputs "x":int\n#outputs
> #step 1\n2 #outs\n#end normal 1

$ run f --seed 7
> #seed 7\n#inputs "x":int\n#outputs
> #step 1\n2 #outs\n#end normal 1

$ run f --seed 8
> #seed 8\n#inputs "x":int\n#outputs
> #step 1\n2 #outs\n#end normal 1

$ run f --seed 9
> #seed 9\n#inputs "x":int\n#outputs
> #step 1\n2 #outs\n#end normal 1
"#;
