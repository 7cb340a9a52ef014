//! The calls of rows, over what is in memory.

use crate::keeping::{Finished, KeepingSpawner};
use crate::plant_link::PlantSpawner;
use crate::reading::{
    numbers_of, push_after, push_unescaped, push_unquoted, told_of_program, value_of,
};
use lt_call::lurette;
use lt_io::{Calls, MemFiles, MemSink, MemSpawner, ScriptLink, Spawner};
use std::alloc::{AllocError, Global};
use std::str;
use std::test::Fail;

// What comes of the call of a row, as text: what `called` tells, what each program was sent, with a line `.` after it,
// and the commands that were asked for, a line each.
pub fn found_of(alloc: Global, row: &str, room: usize) -> Result<String, Fail> {
    if value_of(row, "beside plants", "").is_some() {
        return found_beside_plants(alloc, row, room);
    }
    let mut spawner = KeepingSpawner {
        programs: programs_of(alloc, row)?,
        finished: Finished::Nobody,
        ends: Calls::new(numbers_of(alloc, value_of(row, "ends fail ", ""))?),
        faults: 0,
    };
    let mut found = called(alloc, row, room, &mut spawner)?;
    spawner.finished.write_sent(&mut found)?;
    push_names(&mut found, &spawner.programs.asked)?;
    Ok(found)
}

// The same of a call beside plants, which do not tell what they were sent.
fn found_beside_plants(alloc: Global, row: &str, room: usize) -> Result<String, Fail> {
    let mut plants = PlantSpawner {
        asked: Vec::new(alloc),
        faults: 0,
    };
    let mut found = called(alloc, row, room, &mut plants)?;
    push_names(&mut found, &plants.asked)?;
    Ok(found)
}

fn push_names(text: &mut String, names: &[String]) -> Result<(), AllocError> {
    for name in names {
        text.push_str(name)?;
        text.push_str("\n")?;
    }
    Ok(())
}

// What comes of the call of a row over these programs, with so much room for its trace: the trace, the status, the line
// that is said, and how many files were asked for.
pub fn called<S: Spawner>(
    alloc: Global,
    row: &str,
    room: usize,
    programs: &mut S,
) -> Result<String, Fail> {
    let mut words = Vec::new(alloc);
    push_words(alloc, &mut words, row)?;
    let mut files = files_of(alloc, row)?;
    let cuts = numbers_of(alloc, value_of(row, "trace cuts ", ""))?;
    let failing = numbers_of(alloc, value_of(row, "writes fail ", ""))?;
    let mut trace = MemSink::make(alloc, room, cuts, failing)?;
    let failing = numbers_of(alloc, value_of(row, "says fails ", ""))?;
    let mut says = MemSink::make(alloc, 1_000, Vec::new(alloc), failing)?;
    call_over(alloc, &words, &mut files, programs, &mut trace, &mut says)
}

fn call_over<S: Spawner>(
    alloc: Global,
    words: &[String],
    files: &mut MemFiles,
    programs: &mut S,
    trace: &mut MemSink,
    says: &mut MemSink,
) -> Result<String, Fail> {
    let code = lurette(alloc, words, files, programs, trace, says).code();
    let trace = text_of(trace.written());
    let said = text_of(says.written());
    let asked = files.asked.len();
    Ok(format!(in alloc; "{trace}{code} {said}files {asked}\n")?)
}

pub fn text_of(bytes: &[u8]) -> &str {
    str::from_utf8(bytes).unwrap_or("what is not text")
}

// The words of a row, without their escapes.
fn push_words(alloc: Global, words: &mut Vec<String>, row: &str) -> Result<(), Fail> {
    for line in row.lines() {
        for word in line.strip_prefix("$").unwrap_or("").split_whitespace() {
            words.push(unescaped(alloc, word)?)?;
        }
    }
    Ok(())
}

fn unescaped(alloc: Global, escaped: &str) -> Result<String, Fail> {
    let mut text = String::new(alloc);
    push_unescaped(&mut text, escaped)?;
    Ok(text)
}

// The files `f` and, where a row has it, `t`.
fn files_of(alloc: Global, row: &str) -> Result<MemFiles, Fail> {
    let mut entries = Vec::new(alloc);
    push_scenario(alloc, &mut entries, row)?;
    if let Some(contents) = value_of(row, "t is ", "") {
        push_earlier(alloc, &mut entries, row, contents)?;
    }
    let failing = numbers_of(alloc, value_of(row, "reads fail ", ""))?;
    Ok(MemFiles {
        entries,
        asked: Vec::new(alloc),
        calls: Calls::new(failing),
    })
}

fn push_scenario(
    alloc: Global,
    entries: &mut Vec<(String, Vec<u8>)>,
    row: &str,
) -> Result<(), Fail> {
    let mut text = String::new(alloc);
    push_after(&mut text, row, "f is ")?;
    let _line_feed = text.pop();
    push_file(alloc, entries, "f", text)
}

fn push_earlier(
    alloc: Global,
    entries: &mut Vec<(String, Vec<u8>)>,
    row: &str,
    contents: &str,
) -> Result<(), Fail> {
    let mut trace = String::new(alloc);
    if contents == "its trace" {
        push_after(&mut trace, row, "> ")?;
    } else {
        push_unquoted(&mut trace, contents)?;
    }
    push_file(alloc, entries, "t", trace)
}

fn push_file(
    alloc: Global,
    entries: &mut Vec<(String, Vec<u8>)>,
    name: &str,
    contents: String,
) -> Result<(), Fail> {
    let name = String::from_str(alloc, name)?;
    entries.push((name, contents.into_bytes()))?;
    Ok(())
}

fn programs_of(alloc: Global, row: &str) -> Result<MemSpawner, Fail> {
    let mut links = Vec::new(alloc);
    push_links(alloc, &mut links, row)?;
    let failing = numbers_of(alloc, value_of(row, "starts fail ", ""))?;
    Ok(MemSpawner {
        links,
        asked: Vec::new(alloc),
        calls: Calls::new(failing),
    })
}

// A link for each program of a row.
fn push_links(alloc: Global, links: &mut Vec<(String, ScriptLink)>, row: &str) -> Result<(), Fail> {
    for line in row.lines() {
        if let Some((program, replies)) = told_of_program(line, "says ") {
            let name = unescaped(alloc, program)?;
            let number = count_of(links, &name);
            let link = link_of(alloc, row, program, number, replies)?;
            links.push((name, link))?;
        }
    }
    Ok(())
}

// How many of the links have this name.
fn count_of(links: &[(String, ScriptLink)], name: &str) -> usize {
    let mut count = 0usize;
    for (other, _) in links {
        if other.as_str() == name {
            count = count.saturating_add(1);
        }
    }
    count
}

// The link of a program that has this number among those of its name.
fn link_of(
    alloc: Global,
    row: &str,
    program: &str,
    number: usize,
    replies: &str,
) -> Result<ScriptLink, Fail> {
    let room = link_value_of(alloc, row, program, number, "holds ")?.unwrap_or("100");
    let room = room.parse::<usize>()?;
    let cuts = numbers_of(alloc, link_value_of(alloc, row, program, number, "cuts ")?)?;
    let failing = numbers_of(alloc, link_value_of(alloc, row, program, number, "fails ")?)?;
    let mut says = String::new(alloc);
    push_unquoted(&mut says, replies)?;
    Ok(ScriptLink::make(alloc, says.into_bytes(), cuts, room, failing)?)
}

// What stands after this word for the link of this number of a program, or else for all of its links.
fn link_value_of<'a>(
    alloc: Global,
    row: &'a str,
    program: &str,
    number: usize,
    word: &str,
) -> Result<Option<&'a str>, Fail> {
    let own = format!(in alloc; " {number} {word}")?;
    let shared = format!(in alloc; " {word}")?;
    Ok(value_of(row, program, &own).or(value_of(row, program, &shared)))
}
