//! Tables of text: each row is a call, and what comes of it. They are text, since that is proved in a tenth of the time
//! of tables of values.
//!
//! A block of lines ends with an empty line. One that begins with `## ` says in its first line what the rows after it
//! show, and its other lines are lines of each of them. Any other block is a row. Each of its lines says one thing:
//!
//! ```text
//! -- A line that begins so is passed over.
//! $ run f --sut c -l 2      words of the call. Those of several such lines stand after each other
//! f is node n() ..          the text of the file `f`. Several such lines are lines of that text
//! t is "5 #outs 7\n"        the file `t`, which an earlier trace stands in. There is none without such a line
//! t is its trace            the file `t` has the trace that comes of the call
//! c says "7 8 "             there is a program `c`, and this is all that it says. Several such lines are that of the first
//!                           one of this name that is started, that of the second one, and so on
//! c cuts 1 3                the most bytes of each piece in which it says that
//! c holds 3                 it has room for so many bytes that it is sent
//! c 1 holds 3               the second one has; likewise with `cuts` and `fails`. The first one is 0
//! c fails 1                 the calls of it that fail, where the first one is 0; likewise with
//! reads fail 0              the files that are read,
//! starts fail 0             the programs that are started,
//! ends fail 0               the programs that are waited for,
//! writes fail 0             the texts of the trace that are written, and
//! says fails 0              the texts of the line that is said
//! trace cuts 1 3            the most bytes of each piece in which the trace takes its texts. Each piece is a write
//! trace holds 9             there is room for so many bytes of the trace, and no more of the lines `>` come of the call
//! trace holds 4 to 9        that is so for each of these numbers
//! beside plants             the programs are plants, each by its word
//!
//! > #step 1\n5 #outs 7      lines of the trace that comes of it, each with its line feed
//! = 4 lurette: deadlock 1   the status, and the line that is said. Without such a line they are 0 and nothing
//! = 4                       the status where nothing is said
//! c got "5\n7\n"            what a program was sent, in the order in which they were finished
//! asks c o                  the commands that were asked for. Without such a line they are those that got something
//! files 2                   how many files were asked for. Without such a line it is one
//! is printed                the status is 0 and nothing is said, whatever other lines say of what comes of the call
//! ```
//!
//! In all of it `\n`, `\r` and `\t` are as in Rust, `\s` is a blank within a word, and `<<3 times no >>` is `no no no `. A
//! line that can't be read fails the test.

use crate::calling::found_of;
use crate::reading::{push_after, push_unescaped, push_unquoted, told_of_program, value_of};
use std::alloc::{AllocError, Global};
use std::process::Abort;
use std::test::Fail;

// What a line may begin with, and what may stand after the name of a program.
const BEGINNINGS: &str =
    "## ;$;f is ;t is ;reads fail ;starts fail ;ends fail ;writes fail ;says fails ;trace cuts ;trace holds ;beside plants;> ;= ;asks ;files ;is printed";

const OF_PROGRAMS: &str = "says ;cuts ;holds ;fails ;got ";

// What may stand after its number where several have that name.
const OF_ONE_OF_THEM: &str = "cuts ;holds ;fails ";

// Each row of tables that have so many comes to what it says. All of them share these lines, which stand in prefix.
pub fn check_rows(
    rt: &(impl Abort + AllocGlobal),
    shared: &str,
    count: usize,
    tables: &str,
) -> Result<(), Fail> {
    let mut head = "";
    let mut found = 0usize;
    for block in tables.trim().split("\n\n") {
        if block.starts_with("## ") {
            head = block;
        } else {
            check_row(rt, shared, head, block)?;
            found = found.saturating_add(1);
        }
    }
    assert_eq!(rt; found, count, "rows");
    Ok(())
}

fn check_row(
    rt: &(impl Abort + AllocGlobal),
    shared: &str,
    head: &str,
    lines: &str,
) -> Result<(), Fail> {
    let row = row_of(rt.alloc(), shared, head, lines)?;
    check_rooms(rt, &row)
}

// The lines of a row after those that it shares with others, without what is passed over.
fn row_of(alloc: Global, shared: &str, head: &str, lines: &str) -> Result<String, AllocError> {
    let mut row = String::new(alloc);
    push_lines(&mut row, shared)?;
    push_lines(&mut row, head)?;
    push_lines(&mut row, lines)?;
    Ok(row)
}

fn push_lines(row: &mut String, lines: &str) -> Result<(), AllocError> {
    for line in lines.lines() {
        if !line.is_empty() && !line.starts_with("-- ") {
            row.push_str(line)?;
            row.push_str("\n")?;
        }
    }
    Ok(())
}

// A row comes to what it says with each room for its trace.
fn check_rooms(rt: &(impl Abort + AllocGlobal), row: &str) -> Result<(), Fail> {
    check_is_read(row)?;
    let rooms = value_of(row, "trace holds ", "").unwrap_or("100000");
    let (least, most) = rooms.split_once(" to ").unwrap_or((rooms, rooms));
    for room in least.parse::<usize>()?..=most.parse::<usize>()? {
        check_room(rt, row, room)?;
    }
    Ok(())
}

// Each line of a row says something. The failure has the line that doesn't.
fn check_is_read(row: &str) -> Result<(), Fail> {
    for line in row.lines() {
        if !is_read(row, line) {
            return Err(Fail::new(line));
        }
    }
    Ok(())
}

// Whether a line says something. A program of which it does is one that says something.
fn is_read(row: &str, line: &str) -> bool {
    if begins_with_one(line, BEGINNINGS) {
        return true;
    }
    let Some((program, rest)) = line.split_once(' ') else {
        return false;
    };
    is_of_program(rest) && value_of(row, program, " says ").is_some()
}

// Whether this may stand after the name of a program.
fn is_of_program(rest: &str) -> bool {
    let Some((number, behind)) = rest.split_once(' ') else {
        return false;
    };
    begins_with_one(rest, OF_PROGRAMS)
        || (number.parse::<usize>().is_ok() && begins_with_one(behind, OF_ONE_OF_THEM))
}

fn begins_with_one(line: &str, beginnings: &str) -> bool {
    for beginning in beginnings.split(';') {
        if line.starts_with(beginning) {
            return true;
        }
    }
    false
}

fn check_room(rt: &(impl Abort + AllocGlobal), row: &str, room: usize) -> Result<(), Fail> {
    let found = found_of(rt.alloc(), row, room)?;
    let mut due = String::new(rt.alloc());
    push_due(&mut due, row, room)?;
    let is_due = if is_printed(row) {
        found.ends_with(due.as_str())
    } else {
        found == due
    };
    assert!(rt; is_due, "{found}\nin {row}");
    Ok(())
}

fn is_printed(row: &str) -> bool {
    value_of(row, "is printed", "").is_some()
}

// What is to be found of the call of a row with this room for its trace, or, where it is printed, what that ends with.
fn push_due(due: &mut String, row: &str, room: usize) -> Result<(), Fail> {
    if is_printed(row) {
        due.push_str("0 files 1\n")?;
        return Ok(());
    }
    push_after(due, row, "> ")?;
    if due.is_char_boundary(room) {
        due.truncate(room);
    }
    push_due_ending(due, row)?;
    push_due_sent(due, row)?;
    push_due_commands(due, row)
}

// The status and the line that is said, and how many files were asked for.
fn push_due_ending(due: &mut String, row: &str) -> Result<(), Fail> {
    let ending = value_of(row, "= ", "").unwrap_or("0");
    if ending.contains(' ') {
        push_after(due, row, "= ")?;
    } else {
        due.push_str(ending)?;
        due.push_str(" ")?;
    }
    due.push_str("files ")?;
    due.push_str(value_of(row, "files ", "").unwrap_or("1"))?;
    due.push_str("\n")?;
    Ok(())
}

// What the programs of a row are to be sent, with a line `.` after each.
fn push_due_sent(due: &mut String, row: &str) -> Result<(), Fail> {
    for line in row.lines() {
        if let Some((_, quoted)) = told_of_program(line, "got ") {
            push_unquoted(due, quoted)?;
            due.push_str(".\n")?;
        }
    }
    Ok(())
}

// The commands that a row asks for, a line each.
fn push_due_commands(due: &mut String, row: &str) -> Result<(), Fail> {
    if let Some(asked) = value_of(row, "asks ", "") {
        for command in asked.split(' ') {
            push_unescaped(due, command)?;
            due.push_str("\n")?;
        }
        return Ok(());
    }
    for line in row.lines() {
        if let Some((program, _)) = told_of_program(line, "got ") {
            push_unescaped(due, program)?;
            due.push_str("\n")?;
        }
    }
    Ok(())
}
