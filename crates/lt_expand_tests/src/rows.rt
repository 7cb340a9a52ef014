//! Texts, each with what it stands for, or with why it has no scenario.
//!
//! A table is text, and each of its lines a row. What is judged stands before ` ==> `, the answer behind it. A line that
//! begins with `--` is a comment. The head of a table is as a row: its parts stand before those of each row. Two signs `@` stand around the place that a refusal tells, and aren't part of the text.
//!
//! In a text `<<3 times b >>` stands for `b b b `. Each piece that is repeated has a name of its own: they are `d1`, `d2`
//! and so on. `%` stands for the name of the piece, and `#` for that of the one before; behind the pieces it stands for the
//! name of the last one.

use crate::found::{Asked, found_of};
use std::alloc::{AllocError, Global};
use std::process::Abort;
use std::test::Fail;

/// The head of a node of two outputs, behind which its trace stands.
pub const NODE: &str = "node n() returns (b, c: bool) =  ==> n > b: bool [0;1] > c: bool [0;1]: ";

/// No head: rows are whole texts.
pub const WHOLE: &str = "";

/// The head of a node with inputs and outputs of each kind.
pub const KINDS: &str =
    "node n(k: bool; i: int; s: real) returns (b: bool; x, y: int [0;9]; r: real) = ";

/// That what is asked of the text of each row, behind this head, has the answer of the row.
pub fn check(
    rt: &impl Abort,
    alloc: Global,
    asked: Asked,
    head: &str,
    table: &str,
) -> Result<(), Fail> {
    for line in table.lines() {
        if !line.starts_with("--") {
            let row = behind(alloc, head, line)?;
            check_row(rt, alloc, asked, &row)?;
        }
    }
    Ok(())
}

// A row with its head.
fn behind(alloc: Global, head: &str, line: &str) -> Result<String, AllocError> {
    let (before, shown) = halves(head, " ==> ");
    let (text, answer) = halves(line, " ==> ");
    format!(in alloc; "{before}{text} ==> {shown}{answer}")
}

/// The same of one row, which has its head.
pub fn check_row(rt: &impl Abort, alloc: Global, asked: Asked, row: &str) -> Result<(), Fail> {
    let (text, answer) = halves(row, " ==> ");
    let due = due_of(alloc, text, answer)?;
    let found = found_in(alloc, asked, text)?;
    assert!(rt; found == due, "{found}\nin {row}");
    Ok(())
}

// What is to be found: the answer, with the place between signs `@` as refusals tell it.
fn due_of(alloc: Global, text: &str, answer: &str) -> Result<String, AllocError> {
    let Some((before, rest)) = text.split_once('@') else {
        return String::from_str(alloc, answer);
    };
    let (at, _) = halves(rest, "@");
    let start = before.len();
    let end = start.saturating_add(at.len());
    format!(in alloc; "{answer}(Span {{ start: {start}, end: {end} }})")
}

// What is found of a text that is written with signs.
fn found_in(alloc: Global, asked: Asked, written: &str) -> Result<String, Fail> {
    let mut text = String::new(alloc);
    let mut pieces = 0usize;
    for part in written.split("<<") {
        put_part(&mut text, &mut pieces, part)?;
    }
    found_of(alloc, asked, &text)
}

// Puts what stands behind a sign `<<`, or before the first one, and counts the pieces.
fn put_part(text: &mut String, pieces: &mut usize, part: &str) -> Result<(), Fail> {
    let (repeated, rest) = part.split_once(">>").unwrap_or(("0 times ", part));
    let (times, piece) = halves(repeated, " times ");
    for _ in 0..times.parse::<usize>()? {
        put_piece(text, *pieces, piece)?;
        *pieces = pieces.saturating_add(1);
    }
    put_piece(text, *pieces, rest)
}

// Puts a text before which so many pieces stand.
fn put_piece(text: &mut String, pieces: usize, piece: &str) -> Result<(), Fail> {
    for sign in piece.chars() {
        let put = match sign {
            '@' => Ok(()),
            '%' => write!(text, "d{}", pieces.saturating_add(1)),
            '#' => write!(text, "d{pieces}"),
            other => text.push(other),
        };
        put?;
    }
    Ok(())
}

/// The two parts of a text that this sign stands between; the second is empty where it doesn't stand there.
pub fn halves<'a>(text: &'a str, sign: &'static str) -> (&'a str, &'a str) {
    text.split_once(sign).unwrap_or((text, ""))
}
