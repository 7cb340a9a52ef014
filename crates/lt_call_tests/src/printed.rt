//! Programs that are printed.

use crate::rows::check_rows;
use std::test::Fail;

#[test]
fn programs_are_printed(rt: HostRuntime) -> Result<(), Fail> {
    check_rows(
        &rt,
        "",
        4,
        "
## a program is printed
f is exception e, f
f is let m(x, y: int; z: bool ref; u: trace): bool = x < y and z = true
f is let t(u: trace): trace = try u do raise e (* anew *)
f is node n(p: real [-1.5; 2]; q: bool = false) returns (a, b: bool; i: int [0;9] = 3) =
f is     exist k: int [0;5] = 1 in let s: bool = pre q in exception g in
f is     catch e in {|2: a|b} fby {|>a|>not b} do
f is     trap g in loop [1,3] {&>a&>b} do
f is     try assert i - -1 * 2 / 3 + 4 >= 5 in
f is     loop ~2:(1) m(1, i mod 2, q, {t({a})}) or s xor a => (if a then b else i div 2 <> 7)
> exception e , f
> let m ( x , y : int ; z : bool ref ; u : trace ) : bool = x < y and z = true
> let t ( u : trace ) : trace = try u do raise e
> node n ( p : real [ - 1.5 ; 2 ] ; q : bool = false ) returns ( a , b : bool ; i : int [ 0 ; 9 ] = 3 ) = exist k : int [ 0 ; 5 ] = 1 in let s : bool = pre q in exception g in catch e in { | 2 : a | b } fby { |> a |> not b } do trap g in loop [ 1 , 3 ] { &> a &> b } do try assert i - - 1 * 2 / 3 + 4 >= 5 in loop ~ 2 : ( 1 ) m ( 1 , i mod 2 , q , { t ( { a } ) } ) or s xor a => ( if a then b else i div 2 <> 7 )

$ print f

$ print f -l 0

$ print f --precision 6 -l 0

## a program with no blanks is printed

$ print f
f is node n()returns(b:bool)=b--x
> node n ( ) returns ( b : bool ) = b
",
    )
}
