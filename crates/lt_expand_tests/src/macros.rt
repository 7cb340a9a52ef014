//! That a macro is replaced by what it means, a parameter by its argument, and that a name keeps the meaning of the
//! place where it was written.

use crate::found::Asked;
use crate::rows::{NODE, WHOLE, check};
use std::test::Fail;

const ROWS: &str = "\
-- Macros for expressions.
let m: bool = b in m ==> b
let m: bool = b in m() ==> b
let m(): bool = b in m and m() ==> (b and b)
let m(x: bool): bool = not x in m(b and c) ==> (not (b and c))
let m(x, y: bool): bool = x and not y in m(b, c) or m(c, b) ==> ((b and (not c)) or (c and (not b)))
let m(x: bool): bool = b in m(c) ==> b
let k: int = 3 in k = 3 + k ==> (3 = (3 + 3))
let h: real = 0.125 in h < 1.0 ==> (13u < 100u)
let m: bool = b or c in not m and m ==> ((not (b or c)) and (b or c))
let m(x: int): int = x * x in m(m(2)) = 16 ==> (((2 * 2) * (2 * 2)) = 16)
let m(x: bool): bool = not x in let l(y: bool): bool = m(y) and m(m(y)) in l(b) ==> ((not b) and (not (not b)))
let m(x: bool ref): bool = x and not pre x in m(c) ==> (c and (not pre c))
let m(x: bool ref): bool = pre x in let l(y: bool ref): bool = m(y) in l(b) ==> pre b
let m(x: bool ref): bool = pre x in exist y: bool in m(y) ==> (exist 0 in pre y.1); y.1: bool [0;1]
let w: int = 2 in { | w: b | w + 1: c } ==> {|2: b|(2 + 1): c}
-- Macros for traces.
let t: trace = b fby c in { t |> (t) } ==> ((b fby c) |> (b fby c))
let t: trace = b in t fby t ==> (b fby b)
let m(t: trace): trace = t fby t in m(b) ==> (b fby b)
let m(t: trace): trace = t fby t in m({ b fby c }) ==> ((b fby c) fby (b fby c))
let m(t: trace): trace = t fby t in m({ b |> c }) ==> ((b |> c) fby (b |> c))
let m(t: trace): trace = loop t in m(m(b)) ==> (loop (loop b))
let m(s, t: trace): trace = t fby s in m(b, { c }) ==> (c fby b)
let m(x: bool): trace = let l: bool = not x in l fby l in m(b) fby m(c) ==> (((not b) fby (not b)) fby ((not c) fby (not c)))
let m(n: int; t: trace): trace = { | n: t | n + n: t } in m(2, b) ==> {|2: b|(2 + 2): b}
let m(x: bool; t: trace): trace = assert x in t in m(b, m(c, b)) ==> (assert b in (assert c in b))
-- Names that stand for several things.
-- An argument means what it means where it is used.
let m(c: bool): bool = c and b in m(b) ==> (b and b)
let m(b: bool): bool = b and c in m(not b) ==> ((not b) and c)
let m(b, c: bool): bool = b and not c in m(c, b) ==> (c and (not b))
let m(x: bool): bool = not x in let l(x: bool): bool = m(c and x) in l(b) ==> (not (c and b))
let m(x: bool): trace = exist c: bool in x and c in m(c) ==> (exist 0 in (c and c.1)); c.1: bool [0;1]
let m(t: trace): trace = exist b: bool in { t &> b } in m({ b fby c }) ==> (exist 0 in ((b fby c) &> b.1)); b.1: bool [0;1]
let m(t: trace): trace = let b: bool = c in t fby b in m(b) ==> (b fby c)
-- A name means what it was declared as where the macro was written.
let m: bool = b in exist b: bool in m and b ==> (exist 0 in (b and b.1)); b.1: bool [0;1]
let m: bool = b in let l: bool = m in let m: bool = c in l and m ==> (b and c)
exist b: bool in let m: bool = b in exist b: bool in m and b ==> (exist 0 in (exist 1 in (b.1 and b.2))); b.1: bool [0;1]; b.2: bool [0;1]
-- An inner name hides an outer one, as far as it reaches.
let b: bool = c in b ==> c
{ let b: bool = c in b } fby b ==> (c fby b)
let m: bool = b in let m: bool = not m in m ==> (not b)
let m: bool = b in let l(m: bool): bool = m in l(c) ==> c
let m(x: bool): trace = exist x: bool in x in m(b) ==> (exist 0 in x.1); x.1: bool [0;1]
let m(x: bool): bool = x in let x: bool = c in m(b) and x ==> (b and c)
-- A macro in a macro sees the outer one's parameters.
let m(x: bool): trace = let l(y: bool): bool = x and y in l(not x) in m(b) ==> (b and (not b))
let m(x: bool): trace = let l(x: bool): bool = not x in l(x) fby x in m(b and c) ==> ((not (b and c)) fby (b and c))";

const TEXTS: &str = "\
let m: bool = true node n() returns (b: bool) = m ==> n > b: bool [0;1]: true
let b: bool = false node n() returns (b: bool) = b ==> n > b: bool [0;1]: b
node n() returns (b: bool) = b let b: bool = true ==> n > b: bool [0;1]: b
let i: bool = true let m: bool = i node n(i: bool) returns () = i and m ==> n < i: bool [0;1]: (i and true)
let m(x: bool): bool = not x node n(i: bool) returns (b: bool) = m(i) and pre i ==> n < i: bool [0;1] > b: bool [0;1]: ((not i) and pre i)
let twice(c: bool): trace = { c fby c } node n() returns (b: bool) = twice(b) ==> n > b: bool [0;1]: (b fby b)
let m: bool = true let l: bool = not m node n() returns () = let m: bool = l in m ==> n: (not true)";

#[test]
fn a_macro_is_replaced_by_what_it_means(rt: HostRuntime) -> Result<(), Fail> {
    check(&rt, rt.alloc(), Asked::Scenario, NODE, ROWS)?;
    check(&rt, rt.alloc(), Asked::Scenario, WHOLE, TEXTS)
}
