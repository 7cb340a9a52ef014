//! Texts whose tokens follow from the rules.

use crate::found::{Asked, tokens_of};
use crate::rows::check;
use std::test::Fail;

const TOKENS: &str = "\
x_1 ==> Name 0-3
 ==>
 ␉␍␊ ==>
␉a␍␊ ==> Name 1-2
1. ==> Number 0-2
1.5 ==> Number 0-3
12ab ==> Number 0-2 Name 2-4
123456789012345678 ==> Number 0-18
1234567890.12345678 ==> Number 0-19
123456789012345678. ==> Number 0-19
-- ==>
--a␍b ==>
a--b ==> Name 0-1
--(*␊a ==> Name 5-6
- - ==> Minus 0-1 Minus 2-3
(**) ==>
(***) ==>
(* ( * *)x ==> Name 9-10
(* (* *)x ==> Name 8-9
*) ==> Star 0-1 Close 1-2
<> ==> Unequal 0-2
< > ==> Less 0-1 Greater 2-3
<=> ==> LessEqual 0-2 Greater 2-3
|>&>=> ==> Priority 0-2 Parallel 2-4 Implies 4-6
=|~ ==> Equal 0-1 Bar 1-2 Tilde 2-3
::=:= ==> Colon 0-1 Assign 1-3 Assign 3-5";

// A comment may hold what is no text.
const BYTES: &[u8] = b"(*\0\xff--*)z";

#[test]
fn tokens(rt: HostRuntime) -> Result<(), Fail> {
    check(&rt, rt.alloc(), Asked::Tokens, "", TOKENS)?;
    let found = tokens_of(rt.alloc(), BYTES)?;
    assert!(rt; found.as_str() == " Name 8-9");
    Ok(())
}

// Tokens, each with its sign, its place and its letters.
const LETTERS: &str = "\
loop loops 2.0 3 => < ==> \
    Loop 0-4 loop Name 5-10 loops Number 11-14 2.0 Number 15-16 3 Implies 17-19 => Less 20-21 <";

// How many tokens there are, how many have the bytes of their letters, and how many are spelled as their sign is. The
// language has 32 words and 25 symbols.
const SPELLED: &str = "\
loop loops 2.0 3 => < ==> 6 6 3
node returns let in exist bool int real trace ref fby loop assert raise catch do trap try exception pre not and or xor if then else div mod true false run ( ) { } [ ] : ; , = <> < <= > >= + - * / => | |> &> ~ := ==> 57 57 57";

#[test]
fn signs_and_letters_of_tokens(rt: HostRuntime) -> Result<(), Fail> {
    check(&rt, rt.alloc(), Asked::Letters, "", LETTERS)?;
    check(&rt, rt.alloc(), Asked::Spelled, "", SPELLED)
}
