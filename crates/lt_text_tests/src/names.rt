//! Which names are visible where, and what they are used as.

use crate::found::Asked;
use crate::rows::{NODE, check};
use std::test::Fail;

// Names of texts.
const TEXTS: &str = "\
## names of the text, inputs and outputs are visible behind their declarations
let m: bool = true node n() returns () = m ==> Accepted
node n() returns () = @m@ let m: bool = true ==> Unknown
let m(x: bool): bool = @m@(x) ==> Unknown
exception e node n() returns () = raise e ==> Accepted
node n() returns () = raise @e@ exception e ==> Unknown
node n(a: bool; c: bool = a) returns (d: bool = c) = d ==> Accepted
node n(a: bool = @a@) returns () = a ==> Unknown
node n(a: bool = @d@) returns (d: bool) = d ==> Unknown
node n(a: bool) returns () = a let m: bool = @a@ ==> Unknown
## variables and macros, nodes, and exceptions have names of their own
exception n node n() returns (n: bool) = catch n in n ==> Accepted
let n: bool = true node n() returns () = n ==> Accepted
node n() returns () = true let m: bool = @n@ ==> Unknown
node n(a: bool) returns () = raise @a@ ==> Unknown
exception e node n() returns () = @e@ ==> Unknown
let m: bool = true node n() returns () = raise @m@ ==> Unknown
## names are declared once among declarations, and once among inputs and outputs
node l() returns () = true node n() returns () = true ==> Accepted
node l() returns () = true node @l@() returns () = l ==> Twice
let m: bool = true let @m@: int = 1 ==> Twice
exception e exception f, @e@ ==> Twice
exception @Deadlock@ ==> Twice
let a: bool = true node n(a: int) returns (c: int) = a = c ==> Accepted
node n(a: bool; @a@: int) returns () = a ==> Twice
node n(a: bool) returns (c, @a@: bool) = a ==> Twice
node n() returns (a: bool; @a@: int) = a ==> Twice
## an input hides a macro of the text
let b: int = 1 node n(b: bool) returns () = b let m: int = b ==> Accepted
let b: int = 1 node n(b: bool) returns () = @b = 1@ ==> Mismatch";

// Names in traces.
const TRACES: &str = "\
## names in a trace are visible behind their declarations
let m(x: bool): bool = x in m(b) ==> Accepted
let m(x: bool): bool = x in @x@ ==> Unknown
exist u: bool; v: bool = u in v ==> Accepted
exist u: bool = @v@; v: bool in u ==> Unknown
exist u, v: bool = @u@ in v ==> Unknown
{ exist u: bool in u } fby @u@ ==> Unknown
let m: bool = b in m ==> Accepted
let m: bool = @m@ in m ==> Unknown
let m(x: bool): bool = @m@(x) in m(b) ==> Unknown
{ let m: bool = b in m } fby @m@ ==> Unknown
exception e in raise e ==> Accepted
{ exception e in raise e } fby raise @e@ ==> Unknown
trap e in raise e do raise e ==> Accepted
{ trap e in b } fby raise @e@ ==> Unknown
catch Deadlock in raise Deadlock ==> Accepted
catch @e@ in b ==> Unknown
## names are declared once in a list
let m(x: bool; @x@: int): bool = b in b ==> Twice
exist u: bool; @u@: int in b ==> Twice
exception e, @e@ in b ==> Twice
exception Deadlock in raise Deadlock ==> Accepted
## names in a trace hide those outside it, and no longer behind it
{ exist b: int in b = 1 } fby b ==> Accepted
exist b: int in @b@ ==> Mismatch
exist b: bool = b in b ==> Accepted
exist b: int = @b@ in b = 1 ==> Mismatch
{ let b: int = if b then 1 else 2 in b = 1 } fby b ==> Accepted
let b: int = 1 in @b@ ==> Mismatch
let m(b: int): bool = b = 1 in m(2) and b ==> Accepted
let m(b: int): bool = @b@ in b ==> Mismatch
let m(m: bool): bool = m in m(b) ==> Accepted
exist u: bool in let u: int = 1 in @u@ ==> Mismatch
let u: bool = b in exist u: int in @u@ ==> Mismatch
exception e in { exception e in raise e } fby raise e ==> Accepted
exception e in { trap e in b do raise e } fby raise e ==> Accepted
trap e in { trap e in raise e } fby raise e ==> Accepted
trap Deadlock in raise Deadlock ==> Accepted
## a name is used as what it stands for: with its number of arguments, and `pre` with a variable
let f: bool = b in f and f() ==> Accepted
let f(): bool = b in f and f() ==> Accepted
let f: bool = b in @f@(b) ==> Arity
let f(x, y: bool): bool = x in f(b, b) ==> Accepted
let f(x: bool): bool = x in @f@ ==> Arity
let f(x: bool): bool = x in @f@() ==> Arity
let f(x: bool): bool = x in @f@(b, b) ==> Arity
@b@(b) ==> Arity
let f(x: bool): bool = @x@() in b ==> Arity
let f(x: bool ref): bool = @x@() in b ==> Arity
pre b ==> Accepted
let m: bool = b in pre @m@ ==> PreOfExpression
pre @u@ ==> Unknown";

#[test]
fn names_are_visible_and_used_as_declared(rt: HostRuntime) -> Result<(), Fail> {
    check(&rt, rt.alloc(), Asked::Types, "", TEXTS)?;
    check(&rt, rt.alloc(), Asked::Types, NODE, TRACES)
}
