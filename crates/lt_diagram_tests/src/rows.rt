//! Tables, each one text with a row a line: what is given stands before ` ==>`, and what is found of it behind. A text is
//! proved at once, and a table of values value by value.

use crate::bounds::put_least;
use crate::diagrams::{put_paths, put_truths};
use std::alloc::Global;
use std::process::Abort;
use std::test::Fail;

/// What is found of what is given in the rows of a table.
#[derive(Clone, Copy)]
pub(crate) enum Told {
    /// Of a formula and the number of its flags: its truths in all lists of truths, in which the last flag changes first.
    Truths,

    /// Of a formula, the number of its flags, and truths of the first of these: its paths, in turn.
    Paths,

    /// Of bounds: the least values that meet them, or that there are none.
    Least,
}

/// That what is found in each row of a table, which has so many, is what stands there.
pub(crate) fn check(
    rt: &impl Abort,
    alloc: Global,
    told: Told,
    table: &str,
    count: u32,
) -> Result<(), Fail> {
    let mut rows = 0u32;
    for row in table.lines() {
        check_row(rt, alloc, told, row)?;
        rows = rows.saturating_add(1);
    }
    assert_eq!(rt; rows, count);
    Ok(())
}

// That what is found in a row is what stands there.
fn check_row(rt: &impl Abort, alloc: Global, told: Told, row: &str) -> Result<(), Fail> {
    let (given, _) = halves(row, " ==>");
    let mut found = format!(in alloc; "{given} ==>")?;
    match told {
        Told::Truths => put_truths(&mut found, alloc, given)?,
        Told::Paths => put_paths(&mut found, alloc, given)?,
        Told::Least => put_least(&mut found, alloc, given)?,
    }
    check_found(rt, &found, row);
    Ok(())
}

// That what was found is what is due.
fn check_found(rt: &impl Abort, found: &str, due: &str) {
    assert_eq!(rt; found, due);
}

/// The two parts of a text that this sign stands between. The second is empty where it doesn't stand there.
pub(crate) fn halves<'a>(text: &'a str, sign: &'static str) -> (&'a str, &'a str) {
    text.split_once(sign).unwrap_or((text, ""))
}
