//! Texts that are refused.

use crate::rows::check_rows;
use std::test::Fail;

const UNREAD: &str = "
f is node n() (*
= 3 lurette: refused lex.OpenComment at 9

f is node n() returns (b: bool) = b & b
= 3 lurette: refused lex.BadByte at 31

f is let 1234567890123456789
= 3 lurette: refused lex.NumberTooLong at 4

f is node n() returns (b: bool) = run
= 3 lurette: refused parse.Unexpected at 32

f is node n()
= 3 lurette: refused parse.Unexpected at 8

f is node n() returns (b: bool) = b fby
= 3 lurette: refused parse.Unexpected at 34

f is node n() returns (b: bool) = <<201 times (>>
= 3 lurette: refused parse.TooDeep at 229
";

#[test]
fn texts_are_refused_with_their_places(rt: HostRuntime) -> Result<(), Fail> {
    check_rows(&rt, "$ run f", 7, UNREAD)?;
    check_rows(&rt, "$ campaign f --count 2", 7, UNREAD)?;
    check_rows(&rt, "$ print f", 7, UNREAD)
}

const ILL_TYPED: &str = "
= 3 lurette: refused type.NoNode

f is exception A
= 3 lurette: refused type.NoNode

f is node n() returns (b: bool) = c
= 3 lurette: refused type.Unknown at 29

f is node n() returns (b, b: bool) = b
= 3 lurette: refused type.Twice at 21

f is node n() returns (b: bool) = b()
= 3 lurette: refused type.Arity at 29

f is node n() returns (x: int) = x
= 3 lurette: refused type.Mismatch at 28

f is node n() returns (x: int [3;0]) = true
= 3 lurette: refused type.EmptyRange at 26

f is let m(): int = 1 node n() returns (b: bool) = pre m
= 3 lurette: refused type.PreOfExpression at 50
";

// They are printed, which needs no types.
#[test]
fn programs_that_break_a_rule_of_types_are_refused(rt: HostRuntime) -> Result<(), Fail> {
    check_rows(&rt, "$ run f --precision 6", 8, ILL_TYPED)?;
    check_rows(&rt, "$ run f --precision 0", 8, ILL_TYPED)?;
    check_rows(&rt, "$ campaign f --count 2", 8, ILL_TYPED)?;
    check_rows(&rt, "$ print f\nis printed", 8, ILL_TYPED)
}

const WITHOUT_SCENARIO: &str = "
## nodes without a scenario are refused

$ f --node m
f is node n() returns (b: bool) = b fby not b
= 3 lurette: refused expand.UnknownNode

$ f --node m
f is let m: bool = true node n() returns (b: bool) = b
= 3 lurette: refused expand.UnknownNode

$ f --node n
f is node n() returns (b: bool) = loop [2,1] b
= 3 lurette: refused expand.BadStatic at 35

$ f --node n
f is node n() returns (x, y: int [0;3]) = x * y = 2
= 3 lurette: refused expand.NonLinear at 37

$ f --node n
f is node n() returns (b: bool; x: int [0;3]) = (if b then x else 1) = 2
= 3 lurette: refused expand.ControllableCondition at 44

$ f --node n
f is node n() returns (x: int [0;3]) = { |x: x = 1 |1: x = 2 }
= 3 lurette: refused expand.ControllableWeight at 37

## inputs that nobody gives are refused

$ f --node n
f is node n(y: bool) returns (b: bool) = b
= 3 lurette: refused run.NeedsController

$ f --node n
f is node n(y: int) returns (x: int [0;3]) = loop x = 1
= 3 lurette: refused run.NeedsController
";

#[test]
fn nodes_without_a_scenario_are_refused(rt: HostRuntime) -> Result<(), Fail> {
    check_rows(&rt, "$ run", 8, WITHOUT_SCENARIO)?;
    check_rows(&rt, "$ campaign --count 2", 8, WITHOUT_SCENARIO)?;
    check_rows(&rt, "$ print\nis printed", 8, WITHOUT_SCENARIO)
}

const TOO_MANY_ATOMS: &str = r#"
## a conjunct of more than 16 atoms is refused
f is node z() returns (a, b, c, d, e, f, g, h, i, j, k, l, m, n, o, p, q: bool; x, y: int [0;1]) =
= 3 lurette: refused run.TooManyAtoms

f is a or b or c or d or e or f or g or h or i or j or k or l or m or n or o or p or q

-- No instant comes to it.
f is { a |> assert a or b or c or d or e or f or g or h or i or j or k or l or m or n or o or p or q in b }

-- It stands among other conjuncts.
f is a and (b => a or b or c or d or e or f or g or h or i or j or k or l or m or n or o or p or q) and x = y

-- A comparison that is denied is another one.
f is a or b or c or d or e or f or g or h or i or j or k or l or m or n or o or x = y or x <> y

-- A comparison that is known is one too.
f is a or b or c or d or e or f or g or h or i or j or k or l or m or n or o or p or pre x = 1

## that comes before the inputs
$ --node z
f is node z(u: bool) returns (a, b, c, d, e, f, g, h, i, j, k, l, m, n, o, p, q: bool) =

f is a or b or c or d or e or f or g or h or i or j or k or l or m or n or o or p or q
= 3 lurette: refused run.TooManyAtoms

f is a or b or c or d or e or f or g or h or i or j or k or l or m or n or o or p or u
= 3 lurette: refused run.TooManyAtoms

f is a or b or c or d or e or f or g or h or i or j or k or l or m or n or o or p
= 3 lurette: refused run.NeedsController

## there may be 16 atoms, and any number of conjuncts, whatever they need
$ --budget 1
f is node z() returns (a, b, c, d, e, f, g, h, i, j, k, l, m, n, o, p: bool) =
> #seed 0\n#inputs "a":bool "b":bool "c":bool "d":bool "e":bool "f":bool "g":bool "h":bool "i":bool "j":bool "k":bool "l":bool "m":bool "n":bool "o":bool "p":bool\n#outputs
> #step 1\n<<16 times t >>#outs
> #end normal 1

f is (a or b or c or d or e or f or g or h or i or j or k or l or m or n or o or p) and a and b and c and d and e and f and g and h and i and j and k and l and m and n and o and p

-- An atom that occurs again is no further one.
f is (a or b or c or d or e or f or g or h or i or j or k or l or m or n or o or p or not a or (b and p)) and a and b and c and d and e and f and g and h and i and j and k and l and m and n and o and p

## a constraint may have as many conjuncts or repeated atoms as fit into a scenario
> #seed 0\n#inputs "b":bool\n#outputs
> #step 1\nt #outs
> #end normal 1

f is node z() returns (b: bool) = <<4999 times b and >>b

f is node z() returns (b: bool) = <<4999 times b or >>b
"#;

#[test]
fn conjuncts_of_too_many_atoms_are_refused(rt: HostRuntime) -> Result<(), Fail> {
    check_rows(&rt, "$ run f", 12, TOO_MANY_ATOMS)
}

#[test]
fn ranges_are_judged_and_macros_put_in(rt: HostRuntime) -> Result<(), Fail> {
    check_rows(
        &rt,
        "",
        5,
        r#"
## a range is judged by its decimals
f is node n() returns (x: real [0.3;0.2]) = true

$ run f --precision 6
= 3 lurette: refused type.EmptyRange at 27

-- With no decimals both ends of the range are 0.
$ run f --precision 0
> #seed 0\n#inputs "x":real\n#outputs
> #step 1\n0 #outs
> #end normal 1

## a node is run with its macros away
-- A program of two nodes, macros and an exception that nobody raises.
f is exception e
f is let twice (c: bool): trace = { c fby c }
f is node n() returns (b: bool = false) = twice(b)
f is node m() returns (a: bool; b: bool) = let other: bool = not a in let a: bool = true in twice(other and a) fby b

$ run f
> #seed 0\n#inputs "b":bool\n#outputs
> #step 1\nt #outs\n#step 2\nt #outs
> #end normal 2

$ run f --node n
> #seed 0\n#inputs "b":bool\n#outputs
> #step 1\nt #outs\n#step 2\nt #outs
> #end normal 2

$ run f --node m
> #seed 0\n#inputs "a":bool "b":bool\n#outputs
> #step 1\nf f #outs\n#step 2\nf t #outs\n#step 3\nt t #outs
> #end normal 3
"#,
    )
}
