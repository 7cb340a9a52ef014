//! Tables of text: each row is a scenario, a trace, and what is said of it.
//!
//! A block of lines ends with an empty line. One that begins with `## ` says in its first line what the rows after it
//! show, and its other lines are lines of each of them, before their own. Any other block is a row. Each of its lines says
//! one thing:
//!
//! ```text
//! -- A line that begins so is passed over.
//! f node n() ..        a line of the text of a scenario
//! > #seed 0            a line of the trace, with its line feed
//! > #step 1/2 #outs    two lines of the trace: `/` stands for a line feed, `~` for a tab and `_` for a blank
//! ends early           the last line of the trace has no line feed
//! budget 1             the budget, which is 10,000,000 without such a line
//! = legal              what is said: `legal`, `illegal K`, `candidates K`, `budget NEED K`, or `line K` where that line of
//!                      the trace isn't one
//! ```
//!
//! In all of it `<<3 times no >>` is `no no no `. A line that can't be read fails the test.

use crate::answering::answer_of;
use crate::reading::{push_after, value_of};
use std::alloc::{AllocError, Global};
use std::process::Abort;
use std::test::Fail;

// What a line may begin with.
const BEGINNINGS: &str = "## ;-- ;f ;> ;ends early;budget ;= ";

/// Each row of a table that has so many comes to what it says.
pub fn check_rows(rt: &(impl Abort + AllocGlobal), count: usize, table: &str) -> Result<(), Fail> {
    let mut head = "";
    let mut found = 0usize;
    for block in table.trim().split("\n\n") {
        if block.starts_with("## ") {
            head = block;
        } else {
            check_row(rt, head, block)?;
            found = found.saturating_add(1);
        }
    }
    assert_eq!(rt; found, count, "rows");
    Ok(())
}

fn check_row(rt: &(impl Abort + AllocGlobal), head: &str, lines: &str) -> Result<(), Fail> {
    let row = format!(in rt.alloc(); "{head}\n{lines}")?;
    check_is_read(&row)?;
    let due = value_of(&row, "= ").ok_or("no answer")?;
    let found = found_of(rt.alloc(), &row)?;
    assert!(rt; found.as_str() == due, "{found}\nin {row}");
    Ok(())
}

// Each line of a row says something. The failure has the line that doesn't.
fn check_is_read(row: &str) -> Result<(), Fail> {
    for line in row.lines() {
        if !line.is_empty() && !is_read(line) {
            return Err(Fail::new(line));
        }
    }
    Ok(())
}

fn is_read(line: &str) -> bool {
    for beginning in BEGINNINGS.split(';') {
        if line.starts_with(beginning) {
            return true;
        }
    }
    false
}

// What is said of the trace of a row.
fn found_of(alloc: Global, row: &str) -> Result<String, Fail> {
    let mut scenario = String::new(alloc);
    push_after(&mut scenario, row, "f ")?;
    let budget = value_of(row, "budget ").unwrap_or("10000000");
    let trace = trace_of(alloc, row)?;
    answer_of(alloc, &scenario, &trace, budget.parse::<u64>()?)
}

// The trace of a row.
fn trace_of(alloc: Global, row: &str) -> Result<String, Fail> {
    let mut written = String::new(alloc);
    push_after(&mut written, row, "> ")?;
    if value_of(row, "ends early").is_some() {
        let _line_feed = written.pop();
    }
    Ok(with_blanks(alloc, &written)?)
}

// A text with what its signs stand for.
fn with_blanks(alloc: Global, written: &str) -> Result<String, AllocError> {
    let mut text = String::new(alloc);
    for sign in written.chars() {
        text.push(meaning_of(sign))?;
    }
    Ok(text)
}

// What a sign stands for.
fn meaning_of(sign: char) -> char {
    match sign {
        '/' => '\n',
        '~' => '\t',
        '_' => ' ',
        other => other,
    }
}
