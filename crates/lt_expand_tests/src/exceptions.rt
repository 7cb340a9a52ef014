//! Which exceptions an expansion has, and their order: those that are raised by their first `raise`, and then those that
//! are only caught by their first `catch`.

use crate::found::Asked;
use crate::rows::check;
use std::test::Fail;

const NODE: &str =
    "exception e, f node n() returns (b, c: bool) =  ==> n > b: bool [0;1] > c: bool [0;1]: ";

const ROWS: &str = "\
-- What raises and catches stand for.
raise e ==> raise 0; e
raise f fby raise e fby raise f ==> (raise 0 fby (raise 1 fby raise 0)); f; e
catch e in b ==> (catch 0 in b do eps); e
catch e in b do c ==> (catch 0 in b do c); e
catch e in catch f in b do c ==> (catch 0 in (catch 1 in b do c) do eps); e; f
catch f in raise e ==> (catch 1 in raise 0 do eps); e; f
catch e in b do raise f ==> (catch 1 in b do raise 0); f; e
catch f in catch e in raise f ==> (catch 0 in (catch 1 in raise 0 do eps) do eps); f; e
trap z in raise z ==> (catch 0 in raise 0 do eps); z
trap z in raise z do raise z ==> (catch 0 in raise 0 do raise 0); z
trap z in trap z in raise z ==> (catch 1 in (catch 0 in raise 0 do eps) do eps); z; z
-- A deadlock is no exception of a name.
raise Deadlock ==> dead
catch Deadlock in b do c ==> (try b do c)
catch Deadlock in raise Deadlock ==> (try dead do eps)
exception Deadlock in raise Deadlock ==> raise 0; Deadlock
trap Deadlock in raise Deadlock do b ==> (catch 0 in raise 0 do b); Deadlock
-- Exceptions that are declared in a trace: each copy of a declaration declares its own.
exception g in b ==> b
exception g, h in raise h fby raise g ==> (raise 0 fby raise 1); h; g
exception g in { raise g fby exception g in raise g } ==> (raise 0 fby raise 1); g; g
let m: trace = exception g in catch g in raise g in m fby m ==> ((catch 0 in raise 0 do eps) fby (catch 1 in raise 1 do eps)); g; g
let m: trace = trap z in raise z in m fby m ==> ((catch 0 in raise 0 do eps) fby (catch 1 in raise 1 do eps)); z; z
let m: trace = exception g, h in { raise g |> raise h } in m fby m ==> ((raise 0 |> raise 1) fby (raise 2 |> raise 3)); g; h; g; h
let m(t: trace): trace = t fby t in m({ exception g in raise g }) ==> (raise 0 fby raise 1); g; g
let m(t: trace): trace = exception g in catch g in { t &> raise g } in m(m(b)) ==> (catch 1 in ((catch 0 in (b &> raise 0) do eps) &> raise 1) do eps); g; g
-- One that isn't copied is one.
exception g in let m: trace = catch g in raise g in m fby m ==> ((catch 0 in raise 0 do eps) fby (catch 0 in raise 0 do eps)); g
exception g in let m(t: trace): trace = t fby t in m({ raise g }) ==> (raise 0 fby raise 0); g
let m: trace = raise e in m fby m ==> (raise 0 fby raise 0); e
-- A name of an exception keeps the meaning of the place where it was written.
let m: trace = raise e in exception e in { m fby raise e } ==> (raise 0 fby raise 1); e; e
let m: trace = raise e in trap e in m do b ==> (catch 1 in raise 0 do b); e; e
let m(t: trace): trace = trap e in t do b in m({ raise e }) ==> (catch 1 in raise 0 do b); e; e
let m(t: trace): trace = catch e in t in exception e in m({ raise e }) ==> (catch 1 in raise 0 do eps); e; e
let m(t: trace): trace = catch e in t in exception f in m({ raise e }) ==> (catch 0 in raise 0 do eps); e";

#[test]
fn exceptions_are_numbered_by_what_raises_and_catches_them(rt: HostRuntime) -> Result<(), Fail> {
    check(&rt, rt.alloc(), Asked::Scenario, NODE, ROWS)
}
