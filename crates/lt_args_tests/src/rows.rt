//! Calls, each with what comes of it.
//!
//! A table is a text, which is cheaper to prove than values. Each of its lines is a row: the words of a call, the sign
//! `==>`, and the request in a line, or the refusal. Words are split at blanks; one that is empty or has blanks in it
//! stands between two signs `'`. A line that begins with `## ` says what the rows after it show.

use lt_args::requested;
use lt_loop::InputSource;
use std::alloc::{AllocError, Global};
use std::process::Abort;
use std::test::Fail;

// What comes of words, in a line: the mode and the file, the numbers, the words of options, whether locals are
// asked for, the rule of drawing, and how many sessions a campaign has.
fn answered(alloc: Global, words: &[String]) -> Result<String, AllocError> {
    match requested(alloc, words) {
        Ok(of) => {
            let numbers = (of.limit, of.seed, of.decimals, of.budget);
            let (sut, replay) = sources_of(of.inputs);
            let words = (of.node, sut, of.oracle, replay);
            format!(in alloc;
                "{:?} {}; {numbers:?}; {words:?}; {}; {:?}; {}",
                of.mode, of.file, of.locals, of.draw, of.count
            )
        }
        Err(refusal) => format!(in alloc; "{refusal:?}"),
    }
}

// The command of the controller and the file of the earlier trace, where one of them is the source of the inputs.
fn sources_of(inputs: InputSource<'_>) -> (Option<&str>, Option<&str>) {
    match inputs {
        InputSource::Nobody => (None, None),
        InputSource::Program(command) => (Some(command), None),
        InputSource::Trace(file) => (None, Some(file)),
    }
}

// The words of a call.
fn words_of(alloc: Global, call: &str) -> Result<Vec<String>, Fail> {
    let mut words = Vec::new(alloc);
    let mut is_quoted = false;
    for part in call.split('\'') {
        if is_quoted {
            words.push(String::from_str(alloc, part)?)?;
        } else {
            push_words(alloc, &mut words, part)?;
        }
        is_quoted = !is_quoted;
    }
    if is_quoted {
        Ok(words)
    } else {
        Err(Fail::new("a sign `'` stands alone"))
    }
}

// Adds the words that blanks split.
fn push_words(alloc: Global, words: &mut Vec<String>, text: &str) -> Result<(), AllocError> {
    for word in text.split_ascii_whitespace() {
        words.push(String::from_str(alloc, word)?)?;
    }
    Ok(())
}

// That of the call in a row comes what the row says.
fn check_row(rt: &(impl Abort + AllocGlobal), row: &str) -> Result<(), Fail> {
    let (call, wanted) = row.split_once("==> ").ok_or("a row with its answer")?;
    let words = words_of(rt.alloc(), call)?;
    let found = answered(rt.alloc(), &words)?;
    assert_eq!(rt; found.as_str(), wanted, "{row}");
    Ok(())
}

/// The same of each row of a table, which has so many.
pub fn check(rt: &(impl Abort + AllocGlobal), table: &str, count: usize) -> Result<(), Fail> {
    let mut found = 0usize;
    for row in table.lines() {
        if !row.is_empty() && !row.starts_with("## ") {
            check_row(rt, row)?;
            found = found.saturating_add(1);
        }
    }
    assert_eq!(rt; found, count, "rows");
    Ok(())
}
