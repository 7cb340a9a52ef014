//! How runs end.

use crate::rows::check_rows;
use std::test::Fail;

#[test]
fn runs_end_for_their_reasons(rt: HostRuntime) -> Result<(), Fail> {
    check_rows(
        &rt,
        "",
        36,
        r#"
## a run is written to its end or limit
f is node n() returns (b: bool) = b fby not b
> #seed 0\n#inputs "b":bool\n#outputs

$ run f -l 10
> #step 1\nt #outs\n#step 2\nf #outs\n#end normal 2

$ run f -l 3
> #step 1\nt #outs\n#step 2\nf #outs\n#end normal 2

$ run f -l 2
> #step 1\nt #outs\n#step 2\nf #outs\n#end limit 2

$ run f -l 1
> #step 1\nt #outs\n#end limit 1

$ run f -l 0
> #end limit 0

$ run f -l 1000000
> #step 1\nt #outs\n#step 2\nf #outs\n#end normal 2

$ run f
> #step 1\nt #outs\n#step 2\nf #outs\n#end normal 2

## a loop is written to its end or limit
> #seed 0\n#inputs "b":bool\n#outputs

$ run f -l 3
f is node n() returns (b: bool) = loop { loop b }
> #step 1\nt #outs\n#step 2\nt #outs\n#step 3\nt #outs\n#end limit 3

-- A loop whose body can't begin is passed over.
$ run f
f is node n() returns (b: bool) = loop false fby { b } -- once
> #step 1\nt #outs\n#end normal 1

## deadlocks end runs
$ run f
> #seed 0\n#inputs "x":int\n#outputs

f is node n() returns (x: int [0;3]) = x > 3
> #end deadlock 1
= 4 lurette: deadlock 1

-- No alternative has a weight.
f is node n() returns (x: int [0;3]) = { |0: x = 1 |0: x = 2 }
> #end deadlock 1
= 4 lurette: deadlock 1

f is node n() returns (x: int [0;3]) = { &> raise Deadlock &> x = 1 }
> #end deadlock 1
= 4 lurette: deadlock 1

-- What was begun is not left.
f is node n() returns (x: int [0;3]) = { x = 1 fby x > 3 } fby x = 2
> #step 1\n1 #outs\n#end deadlock 2
= 4 lurette: deadlock 2

## a loop without its turns deadlocks

-- One turn was asked for, and a turn that takes no instant is none.
$ run f
f is node n() returns (b: bool) = loop [1,1] { loop false }
> #seed 0\n#inputs "b":bool\n#outputs
> #end deadlock 1
= 4 lurette: deadlock 1

## exceptions that nothing catches end runs
$ run f
> #seed 0\n#inputs "x":int\n#outputs

f is exception Alarm node n() returns (x: int [0;3]) = { &> loop x = 1 &> raise Alarm }
> #end raise Alarm 1
= 5 lurette: raise Alarm 1

-- Of two at once the one that is written first counts.
f is exception A, B node n() returns (x: int [0;3]) = { &> raise B &> raise A }
> #end raise B 1
= 5 lurette: raise B 1

-- The first that is raised isn't the first that is declared, and another one is caught.
f is exception A, B, C node n() returns (x: int [0;3]) = catch B in { x = 1 fby { &> try raise C do x = 2 &> x = 3 } fby raise A }
> #step 1\n1 #outs\n#end raise C 2
= 5 lurette: raise C 2

f is exception A, B node n() returns (x: int [0;3]) = catch A in { x = 1 fby raise A } do { x = 2 fby raise B }
> #step 1\n1 #outs\n#step 2\n2 #outs\n#end raise B 3
= 5 lurette: raise B 3

## arithmetic faults end runs
$ run f
> #seed 0\n#inputs "x":int\n#outputs

f is node n() returns (x: int [0;3]) = x = pre x
> #end fault NoPrevious 1
= 6 lurette: fault NoPrevious 1

f is node n() returns (x: int [0;3]) = x = 1 div 0
> #end fault DivisionByZero 1
= 6 lurette: fault DivisionByZero 1

-- What is asserted is worked out before what it holds over.
f is node n() returns (x: int [0;3]) = assert x = pre x in x = 1 div 0
> #end fault NoPrevious 1
= 6 lurette: fault NoPrevious 1

f is node n() returns (x: int [0;3]) = { |0 - 1: x = 1 |1: x = 2 }
> #end fault NegativeWeight 1
= 6 lurette: fault NegativeWeight 1

f is node n() returns (x: int [0;3]) = x = 2 fby x = 1000000 * (1000000 * pre x)
> #step 1\n2 #outs\n#end fault Overflow 2
= 6 lurette: fault Overflow 2

## an instant that offers too much ends a run
-- Sixty choices of two, side by side, are too much.
$ run f
> #seed 0\n#inputs "b":bool\n#outputs
> #end toolarge 1
= 14 lurette: toolarge 1

f is node n() returns (b: bool) = {<<59 times  &> { |1: b |1: b }>> &> { |1: b |1: b } }

-- What the last side may raise is counted once, however many sides stand before it.
f is exception stop node n() returns (b: bool) = {<<59 times  &> { |1: b |1: b }>> &> { |1: b |1: raise stop } }

## an instant may offer 65536 leaves and choices
-- Each of two traces has fourteen choices of two side by side: once such a choice has 3 leaves and choices, and each
-- further one doubles them and adds one, so fourteen have 32,767.
$ run f
> #seed 0\n#inputs "b":bool\n#outputs

f is node n() returns (b: bool) = { | {<<14 times  &> { |1: b |1: b }>> } | {<<14 times  &> { |1: b |1: b }>> } | b }
> #step 1\nt #outs\n#end normal 1

f is node n() returns (b: bool) = { | {<<14 times  &> { |1: b |1: b }>> } | {<<14 times  &> { |1: b |1: b }>> } | b | b }
> #end toolarge 1
= 14 lurette: toolarge 1

## a search begins at once, whatever it needs
> #seed 0\n#inputs "x":int "y":int "z":int\n#outputs

-- An equation of three variables of six values each needs 180 * 4 * 216.
$ run f
f is node n() returns (x, y, z: int [0;5]) = 2 * x + 2 * y + 2 * z = 7
> #end deadlock 1
= 4 lurette: deadlock 1

$ run f --budget 155520
f is node n() returns (x, y, z: int [0;5]) = 2 * x + 2 * y + 2 * z = 7
> #end deadlock 1
= 4 lurette: deadlock 1

$ run f --budget 1
f is node n() returns (x, y, z: int [0;5]) = 2 * x + 2 * y + 2 * z = 7
> #end deadlock 1
= 4 lurette: deadlock 1

-- No sum of even numbers is odd, whatever the ranges are.
$ run f
f is node n() returns (x, y, z: int) = 2 * x + 2 * y - 2 * z = 7
> #end deadlock 1
= 4 lurette: deadlock 1

-- Differences need no more than 720, whatever the ranges are.
$ run f
f is node n() returns (x, y, z: int) = x < y and y < z and z < x
> #end deadlock 1
= 4 lurette: deadlock 1

-- What no values meet needs no search, however many there are.
$ run f
f is node n() returns (x, y, z: int) = false
> #end deadlock 1
= 4 lurette: deadlock 1

-- The first number that does for x is 1, and then the first one for y from its target is 3.
$ run f
f is node n() returns (x, y, z: int) = x + 2 * y + 3 * z = 100 and x > 0 and y > 0 and z > 0
> #step 1\n1 3 31 #outs\n#end normal 1

-- Any point does, so the targets are taken.
$ run f --budget 1
f is node n() returns (x, y, z: int [0;5]) = true
> #step 1\n4 0 0 #outs\n#end normal 1

$ run f --budget 1
f is node n() returns (x, y, z: int [0;5]) = loop [0,0] true
> #end normal 0

## numbers of many values run too
-- The target of x is 41.68, and half of the way from 20.00 to it is 30.84.
$ run f
f is node n() returns (x, y: real [0.0;42.0] = 20.0) = y = (pre y + x) / 2.0
> #seed 0\n#inputs "x":real "y":real\n#outputs
> #step 1\n41.68 30.84 #outs\n#end normal 1

## a search that isn't done within its allowance is given up where its need is over the budget
-- Ten numbers of nine values are all to differ. Each of the 45 comparisons is a choice: it needs 180 * 11 * 3^45.
$ run f
f is node n() returns (a, b, c, d, e, f, g, h, i, j: int [1;9]) = a = 1 and b = 1 and c = 1 and d = 1 and e = 1 and f = 1 and g = 1 and h = 1 and i = 1 and j = 1 fby a <> b and a <> c and a <> d and a <> e and a <> f and a <> g and a <> h and a <> i and a <> j and b <> c and b <> d and b <> e and b <> f and b <> g and b <> h and b <> i and b <> j and c <> d and c <> e and c <> f and c <> g and c <> h and c <> i and c <> j and d <> e and d <> f and d <> g and d <> h and d <> i and d <> j and e <> f and e <> g and e <> h and e <> i and e <> j and f <> g and f <> h and f <> i and f <> j and g <> h and g <> i and g <> j and h <> i and h <> j and i <> j
> #seed 0\n#inputs "a":int "b":int "c":int "d":int "e":int "f":int "g":int "h":int "i":int "j":int\n#outputs
> #step 1\n1 1 1 1 1 1 1 1 1 1 #outs
> #end budget 5849539158970650723313140 2
= 10 lurette: budget 5849539158970650723313140 2
"#,
    )
}
