//! Texts whose refusals follow from the lexical rules and the grammar.

use crate::found::Asked;
use crate::rows::check;
use lt_lexer::LexRefusal;
use std::test::Fail;

const NO_TOKENS: &str = "\
1..5 ==> BadByte(2)
.5 ==> BadByte(0)
_a ==> BadByte(0)
& ==> BadByte(0)
a & (* ==> BadByte(2)
␀ ==> BadByte(0)
aé ==> BadByte(1)
␌ ==> BadByte(0)
(*) ==> OpenComment(0)
(* * ==> OpenComment(0)
(*␊--* ==> OpenComment(0)
node n() (* ==> OpenComment(9)
1234567890123456789 ==> NumberTooLong(0)
1.234567890123456789 ==> NumberTooLong(0)
1234567890123456789. ==> NumberTooLong(0)
a 1234567890123456789 & ==> NumberTooLong(2)
node n() returns (b: bool) = b & b ==> BadByte(31)";

const NO_PROGRAM: &str = "\
node n() (* ==> Lex(OpenComment(9))
node n() returns (b: bool) = b & b ==> Lex(BadByte(31))
node n() returns (b: bool) = run ==> Unexpected(32)
node n() returns (b: bool) = run a, := s() in b ==> Unexpected(36)
node n() returns (b: bool) = run a = s() in b ==> Unexpected(35)
node n() returns (b: bool) = run a := s in b ==> Unexpected(40)
node n() returns (b: bool) = run a := s({ b }) in b ==> Unexpected(40)
node n() returns (b: bool) = run a := s(1,) in b ==> Unexpected(42)
node n() returns (b: bool) = run a := s() b ==> Unexpected(42)
node n() returns (b: bool) = b fby run a := s() in b ==> Unexpected(35)
node n() returns (b: bool := 1 ==> Unexpected(26)
let m: trace = run a := s() in b ==> Unexpected(15)
node n() returns (b: bool) = b and  ==> Unexpected(35)
node n() returns (b: bool) = { b : b } ==> Unexpected(33)
node n() returns (b: bool) = a < b < c ==> Unexpected(35)
node n() returns (b: bool) = loop ~3 b ==> Unexpected(37)
let m: bool = a fby b ==> Unexpected(16)
node n() returns (x: int [0;9;]) = b ==> Unexpected(30)
node n() returns (x: int [0;9;3;1]) = b ==> Unexpected(31)
node n() returns (x: int [0]) = b ==> Unexpected(27)
try a do b do c ==> Unexpected(0)
node n() returns (b: bool) = try a do b do c ==> Unexpected(40)";

// Texts that open one level of nesting. Where the trace of a node is 200 times such a text, it ends too soon. With one
// time more it is refused at the token that opens a level. A run has a parenthesis, which opens one more while it is read.
const OPENERS: &str = "\
{ ==> Unexpected(229) TooDeep(229)
( ==> Unexpected(229) TooDeep(229)
f( ==> Unexpected(429) TooDeep(430)
loop  ==> Unexpected(1029) TooDeep(1029)
not  ==> Unexpected(829) TooDeep(829)
-  ==> Unexpected(429) TooDeep(429)
if  ==> Unexpected(629) TooDeep(629)
a =>  ==> Unexpected(1029) TooDeep(1031)
assert a in  ==> Unexpected(2429) TooDeep(2429)
exist u: bool in  ==> Unexpected(3429) TooDeep(3429)
let m: bool = a in  ==> Unexpected(3829) TooDeep(3829)
exception e in  ==> Unexpected(3029) TooDeep(3029)
catch e in  ==> Unexpected(2229) TooDeep(2229)
trap e in  ==> Unexpected(2029) TooDeep(2029)
try  ==> Unexpected(829) TooDeep(829)
run a := s() in  ==> TooDeep(3213) TooDeep(3213)";

#[test]
fn texts_are_refused_at_a_place(rt: HostRuntime) -> Result<(), Fail> {
    check(&rt, rt.alloc(), Asked::Tokens, "", NO_TOKENS)?;
    check(&rt, rt.alloc(), Asked::Parsed, "", NO_PROGRAM)?;
    check(&rt, rt.alloc(), Asked::Program, "", NO_PROGRAM)?;
    check(&rt, rt.alloc(), Asked::Levels, "", OPENERS)
}

// A refusal, and what it tells.
#[derive(Clone, Copy)]
struct Told {
    refusal: LexRefusal,
    code: &'static str,
    place: Option<usize>,
}

#[test]
fn codes_and_places(rt: HostRuntime) {
    let cases = [
        Told {
            refusal: LexRefusal::BadByte(7),
            code: "lex.BadByte",
            place: Some(7),
        },
        Told {
            refusal: LexRefusal::OpenComment(8),
            code: "lex.OpenComment",
            place: Some(8),
        },
        Told {
            refusal: LexRefusal::NumberTooLong(9),
            code: "lex.NumberTooLong",
            place: Some(9),
        },
        Told {
            refusal: LexRefusal::Memory,
            code: "lex.Memory",
            place: None,
        },
    ];
    for case in cases {
        assert_eq!(rt; case.refusal.code(), case.code);
        assert_eq!(rt; case.refusal.place(), case.place);
    }
}
