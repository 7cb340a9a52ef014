//! Texts whose programs follow from the grammar.

use crate::found::Asked;
use crate::rows::check;
use std::test::Fail;

const PROGRAMS: &str = "\
## a program is printed with a blank between two tokens
 ==>␠
let m(x: real; t: trace): trace = exist u: int[-1;2] = 0 in t ==> let m ( x : real ; t : trace ) : trace = exist u : int [ - 1 ; 2 ] = 0 in t␊
node n() returns (x: int[0;9;3]; r: real [-1.0;1.0;-0.25] = 0.5) = b ==> node n ( ) returns ( x : int [ 0 ; 9 ; 3 ] ; r : real [ - 1.0 ; 1.0 ; - 0.25 ] = 0.5 ) = b␊
node n() returns (b: bool) = a fby {|2:a|{b|>c}} -- the end␊exception e,f ==> node n ( ) returns ( b : bool ) = a fby { | 2 : a | { b |> c } }␊exception e , f␊
node n() returns (b: bool) = try catch e in raise e do loop ~1:2 (a=>not b=not c) ==> node n ( ) returns ( b : bool ) = try catch e in raise e do loop ~ 1 : 2 ( a => not b = not c )␊
node n() returns (b: bool) = try try a do b do c ==> node n ( ) returns ( b : bool ) = try try a do b do c␊
node n() returns (b: bool) = run a:=s() in run c,d:=t(b,1+2*a) in b fby c ==> node n ( ) returns ( b : bool ) = run a := s ( ) in run c , d := t ( b , 1 + 2 * a ) in b fby c␊
## a line is printed for each declaration
node toggle() returns (b: bool) = b fby not b exception stop ==> node toggle ( ) returns ( b : bool ) = b fby not b␊exception stop␊";

// Macros that stand for an operator, each with the places of its two operands.
const OPERATORS: &str = "\
let m: bool = a or b and c ==> Or 14-15 19-26
let m: bool = a => b => c ==> Implies 14-15 19-25
let m: int = 1 - 2 - 3 ==> Sub 13-18 21-22";

#[test]
fn programs(rt: HostRuntime) -> Result<(), Fail> {
    check(&rt, rt.alloc(), Asked::Program, "", PROGRAMS)?;
    check(&rt, rt.alloc(), Asked::Operands, "", OPERATORS)
}
