//! Tables of texts, each with what is found of it.
//!
//! A table is text, which is proved in a tenth of the time of a table of values. A line is a row: a text, the sign ` ==>`,
//! and what is to be found of the text. A line that begins with `## ` says what the rows behind it show. In a row `␊` is
//! a line feed, and so is each other picture its character. Two signs `@` stand around the place that a refusal tells, and
//! aren't part of the text.

use crate::found::{Asked, found_of};
use std::alloc::{AllocError, Global};
use std::process::Abort;
use std::test::Fail;

/// The head of a node, behind which its trace stands.
pub const NODE: &str = "node n() returns (b: bool) = ";

/// That what is asked of the text of each row, with this head before it, has the answer of the row.
pub fn check(
    rt: &impl Abort,
    alloc: Global,
    asked: Asked,
    head: &str,
    table: &str,
) -> Result<(), Fail> {
    for line in table.lines() {
        if !line.starts_with("## ") {
            check_row(rt, alloc, asked, head, line)?;
        }
    }
    Ok(())
}

// The same of a row.
fn check_row(
    rt: &impl Abort,
    alloc: Global,
    asked: Asked,
    head: &str,
    line: &str,
) -> Result<(), Fail> {
    let row = written(alloc, head, line)?;
    let due = due_of(alloc, &row)?;
    let found = found_in(alloc, asked, &row)?;
    assert!(rt; found == due, "{found}\nin {row}");
    Ok(())
}

// A line behind the head of its table, with each character in place of its picture.
fn written(alloc: Global, head: &str, line: &str) -> Result<String, AllocError> {
    let mut row = String::from_str(alloc, head)?;
    for sign in line.chars() {
        row.push(match sign {
            '␀' => '\0',
            '␉' => '\t',
            '␊' => '\n',
            '␌' => '\x0c',
            '␍' => '\r',
            '␠' => ' ',
            other => other,
        })?;
    }
    Ok(row)
}

// What is to be found of the text of a row: what the row says, with the place between signs `@` as refusals tell it.
fn due_of(alloc: Global, row: &str) -> Result<String, AllocError> {
    let (text, answer) = halves(row, " ==>");
    let Some((before, rest)) = text.split_once('@') else {
        return String::from_str(alloc, answer);
    };
    let (at, _) = halves(rest, "@");
    let start = before.len();
    let end = start.saturating_add(at.len());
    format!(in alloc; "{answer}(Span {{ start: {start}, end: {end} }})")
}

// What is found of the text of a row, without its signs `@`.
fn found_in(alloc: Global, asked: Asked, row: &str) -> Result<String, Fail> {
    let (text, _) = halves(row, " ==>");
    let (before, rest) = halves(text, "@");
    let (at, behind) = halves(rest, "@");
    let text = format!(in alloc; "{before}{at}{behind}")?;
    found_of(alloc, asked, &text)
}

// The two parts of a text that this sign stands between; the second is empty where it doesn't stand there.
fn halves<'a>(text: &'a str, sign: &'static str) -> (&'a str, &'a str) {
    text.split_once(sign).unwrap_or((text, ""))
}
