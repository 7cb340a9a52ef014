//! Links and spawners with ample memory, which no clause can promise, and those of the real system.
//!
//! What is done with a link stands in a list: a text in quotes is sent, and `?` receives into four bytes. `?6` receives six
//! bytes, or those before the end or a failure, and `and back` after a text as many as it has.

use crate::files_and_sinks::{put_names, put_taken};
use crate::flaky::{FailingReader, FailingWriter};
use crate::rows::{bytes_of, check, halves, numbers_of, put_unquoted};
use crate::subject::Subject;
use lt_io::{Calls, ChildSpawner, Link, MemSpawner, ScriptLink, Spawner, StdLink};
use std::alloc::{AllocError, Global};
use std::str;
use std::test::Fail;

// Links in memory that give "abcdefg": the most bytes of each piece, the room for what is sent, and the calls that fail, with
// what comes of each call, what is sent in all, and how many calls failed. The last links are over a reader and a writer.
const LINKS: &str = r#"
a link in memory gives its pieces
cuts, room 0, fails: ?, ?, ?, ? ==> "abcd" "efg" "" "" "" 0
cuts 1 1 1, room 0, fails: ?, ?, ?, ?, ? ==> "a" "b" "c" "defg" "" "" 0
cuts 0 9 2, room 0, fails: ?, ?, ?, ? ==> "a" "bcde" "fg" "" "" 0
cuts 3 1, room 0, fails 0 2: ?, ?, ?, ?, ? ==> Failed "abc" Failed "d" "efg" "" 2

it takes what it has room for
cuts, room 6, fails 7 8: "abc", "abc" ==> Ok(()) Ok(()) "abcabc" 0
cuts, room 4, fails 7 8: "abc", "abc" ==> Ok(()) Err(Failed) "abca" 1
cuts, room 0, fails 7 8: "abc", "abc" ==> Err(Failed) Err(Failed) "" 2
cuts, room 6, fails 0 8: "abc", "abc" ==> Err(Failed) Ok(()) "abc" 1

a link over a reader of "abcdef" and a writer of four bytes counts its faults
reader and writer: "abc", "de", ?, ?, ? ==> Ok(()) Err(Failed) "abcd" "ef" "" "abcd" 1

so does one whose reader or writer fails in some calls, and it goes on after them
reader fails, writer fails 0: "abc", "de", ?, ?, ? ==> Err(Failed) Ok(()) "abcd" "ef" "" "de" 1
reader fails 1, writer fails: "abc", "de", ?, ?, ?, ? ==> Ok(()) Ok(()) "abcd" Failed "ef" "" "abcde" 1
reader fails 0 2, writer fails 1: "abc", ?, "de", ?, ?, "fg", ? ==> Ok(()) Failed Err(Failed) "abcd" Failed Ok(()) "ef" "abcfg" 3
"#;

/// Puts what comes of the calls of a link, what is sent in all, and how many calls failed.
pub fn put_link(found: &mut String, alloc: Global, given: &str) -> Result<(), Fail> {
    let (link, calls) = halves(given, ": ")?;
    if let Some(script) = link.strip_prefix("cuts") {
        return put_script(found, alloc, script, calls);
    }
    match link.strip_prefix("reader fails") {
        Some(failing) => put_failing(found, alloc, failing, calls),
        None => put_reader_and_writer(found, alloc, calls),
    }
}

fn put_script(found: &mut String, alloc: Global, script: &str, calls: &str) -> Result<(), Fail> {
    let mut link = link_of(alloc, script)?;
    put_calls(found, alloc, &mut link, calls)?;
    put_taken(found, link.sent(), link.faults())
}

// The link in memory of a row.
fn link_of(alloc: Global, script: &str) -> Result<ScriptLink, Fail> {
    let (cuts, rest) = halves(script, ", room ")?;
    let (room, failing) = halves(rest, ", fails")?;
    let room = room.parse()?;
    let failing = numbers_of(alloc, failing)?;
    let cuts = numbers_of(alloc, cuts)?;
    let left = b"abcdefg".to_vec(alloc)?;
    Ok(ScriptLink::make(alloc, left, cuts, room, failing)?)
}

fn put_reader_and_writer(found: &mut String, alloc: Global, calls: &str) -> Result<(), Fail> {
    let mut room = [0u8; 4];
    let mut link = StdLink::new(b"abcdef".as_slice(), room.as_mut_slice());
    put_calls(found, alloc, &mut link, calls)?;
    let faults = link.faults();
    drop(link);
    put_taken(found, &room, faults)
}

fn put_failing(found: &mut String, alloc: Global, failing: &str, calls: &str) -> Result<(), Fail> {
    let (reading, writing) = halves(failing, ", writer fails")?;
    let reader = FailingReader {
        calls: Calls::new(numbers_of(alloc, reading)?),
        left: b"abcdef",
    };
    let mut writer = FailingWriter {
        calls: Calls::new(numbers_of(alloc, writing)?),
        taken: Vec::new(alloc),
    };
    let mut link = StdLink::new(reader, &mut writer);
    put_calls(found, alloc, &mut link, calls)?;
    let faults = link.faults();
    drop(link);
    put_taken(found, &writer.taken, faults)
}

// Puts what comes of the calls of a list, with a blank after each.
fn put_calls<L: Link>(
    found: &mut String,
    alloc: Global,
    link: &mut L,
    calls: &str,
) -> Result<(), Fail> {
    for call in calls.split(", ") {
        match call.strip_prefix("?") {
            Some("") => put_piece(found, link)?,
            Some(count) => put_received(found, &received(alloc, link, count.parse()?)?)?,
            None => put_sent(found, alloc, link, call)?,
        }
        found.push(' ')?;
    }
    Ok(())
}

// Receives into four bytes, and puts them.
fn put_piece<L: Link>(found: &mut String, link: &mut L) -> Result<(), Fail> {
    let mut into = [0u8; 4];
    match link.recv(&mut into) {
        Ok(count) => put_received(found, &into[..count]),
        Err(failed) => Ok(write!(found, "{failed:?}")?),
    }
}

fn put_received(found: &mut String, bytes: &[u8]) -> Result<(), Fail> {
    Ok(write!(found, "{:?}", str::from_utf8(bytes)?)?)
}

// Sends a text, puts the answer, and receives the text back where that stands there too.
fn put_sent<L: Link>(
    found: &mut String,
    alloc: Global,
    link: &mut L,
    call: &str,
) -> Result<(), Fail> {
    let echoed = call.strip_suffix(" and back");
    let text = bytes_of(alloc, echoed.unwrap_or(call))?;
    write!(found, "{:?}", link.send(&text))?;
    if echoed.is_some() {
        let back = received(alloc, link, text.len())?;
        found.push_str(if back == text { " back" } else { " not back" })?;
    }
    Ok(())
}

// Receives so many bytes, or those before the end or a failure.
fn received<L: Link>(alloc: Global, link: &mut L, count: usize) -> Result<Vec<u8>, AllocError> {
    let mut bytes = Vec::new(alloc);
    let mut piece = [0; 1000];
    for _ in 0..count {
        let room = count.saturating_sub(bytes.len()).min(piece.len());
        if room == 0 {
            break;
        }
        match link.recv(&mut piece[..room]) {
            Ok(taken) if taken > 0 => bytes.extend_from_slice(&piece[..taken])?,
            _ => break,
        }
    }
    Ok(bytes)
}

// Commands that are started in turn, with what is done with the link of each, what comes of that, and the faults that the
// spawner counts then. In memory the links of `one` give "abc" and "e", those of `two` "d" and "f", each takes one byte, and
// the fourth start fails. What a link counts is added where it is finished. After all stand the commands that were asked
// for.
const STARTS: &str = r#"
"one": "xy", ?, ?; "two": "xy", ?, ?; "one": "xy", ?, ?; "two": "xy", ?, ?; "one": "xy", ?, ?; "two": "xy", ?, ? ==> Err(Failed) "abc" "" 1; Err(Failed) "d" "" 2; Err(Failed) "e" "" 3; Failed 4; Failed 5; Err(Failed) "f" "" 6;  one two one two one two
"#;

/// Puts what comes of starting commands in memory.
pub fn put_starts(found: &mut String, alloc: Global, given: &str) -> Result<(), Fail> {
    let calls = Calls::new([3].to_vec(alloc)?);
    let mut spawner = MemSpawner {
        links: links_by_command(alloc)?,
        asked: Vec::new(alloc),
        calls,
    };
    put_starts_in_memory(found, alloc, &mut spawner, given)
}

fn put_starts_in_memory(
    found: &mut String,
    alloc: Global,
    spawner: &mut MemSpawner,
    given: &str,
) -> Result<(), Fail> {
    for start in given.split("; ") {
        put_start(found, alloc, spawner, start)?;
        write!(found, "{}; ", spawner.calls.faults)?;
    }
    put_names(found, &spawner.asked)
}

// The links in memory, by command.
fn links_by_command(alloc: Global) -> Result<Vec<(String, ScriptLink)>, Fail> {
    let mut links = Vec::new(alloc);
    for (command, left) in [("one", "abc"), ("two", "d"), ("one", "e"), ("two", "f")] {
        links.push(link_by_command(alloc, command, left)?)?;
    }
    Ok(links)
}

// A command, and a link that gives these bytes and takes one.
fn link_by_command(alloc: Global, command: &str, left: &str) -> Result<(String, ScriptLink), Fail> {
    let left = left.as_bytes().to_vec(alloc)?;
    let link = ScriptLink::make(alloc, left, Vec::new(alloc), 1, Vec::new(alloc))?;
    Ok((String::from_str(alloc, command)?, link))
}

// Starts a command, puts what comes of the calls of its link, and finishes it.
fn put_start<S: Spawner>(
    found: &mut String,
    alloc: Global,
    spawner: &mut S,
    start: &str,
) -> Result<(), Fail> {
    let (quoted, calls) = halves(start, ": ")?;
    let mut command = Vec::new(alloc);
    put_unquoted(&mut command, quoted)?;
    match spawner.start(alloc, str::from_utf8(&command)?) {
        Ok(mut link) => {
            let told = put_calls(found, alloc, &mut link, calls);
            spawner.finish(link);
            told
        }
        Err(refusal) => Ok(write!(found, "{refusal:?} ")?),
    }
}

#[test]
fn links_and_spawners_in_memory_do_what_they_are_told(rt: HostRuntime) -> Result<(), Fail> {
    check(&rt, rt.alloc(), &Subject::Links, LINKS, 12)?;
    check(&rt, rt.alloc(), &Subject::Starts, STARTS, 1)
}

// The same of programs of the system. After what comes of one stand the faults that the spawner counts then, and how many
// commands were asked for.
const PROGRAMS: &str = r#"
a program echoes what it is sent
"cat": "ab\n", ? ==> Ok(()) "ab\n" 0 of 1
" cat  - ": "ab\n", ? ==> Ok(()) "ab\n" 0 of 2
"\tcat\r\n-": "ab\n", ? ==> Ok(()) "ab\n" 0 of 3

the output of a program that has ended is at its end, and what is sent to it, more than a pipe holds, is a fault and no signal
"true": 200000 of "x", ? ==> Err(Failed) "" 1 of 4

some can't be started: a form feed is no blank, so the last command is the name of a program
"": ? ==> Failed 2 of 5
"  ": ? ==> Failed 3 of 6
"/no/such/program of any kind": ? ==> Failed 4 of 7
"cat\x0c-": ? ==> Failed 5 of 8

what a program writes meanwhile is received in turn: dd holds 4,096 bytes, a pipe to it or from it 65,536, and the link keeps
as many. More than a pipe holds, and no more than a pipe and the link do: how fast the program is makes no difference then
"dd bs=4096 status=none": 3846 of "abcdefghijklmnopqrstuvwxyz" + "abcd" and back, "abc" and back, 4230 of "abcdefghijklmnopqrstuvwxyz" + "abcdefghijklmnopqrst" and back ==> Ok(()) back Ok(()) back Ok(()) back 5 of 9

a program that writes and reads no more is a fault, and what was kept comes first all the same
"dd bs=4096 status=none": 15384 of "abcdefghijklmnopqrstuvwxyz" + "abcdefghijklmnop", ?6 ==> Err(Failed) "abcdef" 6 of 10
"yes": 15384 of "abcdefghijklmnopqrstuvwxyz" + "abcdefghijklmnop", ?6 ==> Err(Failed) "y\ny\ny\n" 7 of 11

an end that comes meanwhile is remembered: the program writes one line, and reads nothing
"echo yes": 15384 of "abcdefghijklmnopqrstuvwxyz" + "abcdefghijklmnop", ?10 ==> Err(Failed) "yes\n" 8 of 12
"#;

#[test]
fn programs_of_the_system_are_started(rt: HostRuntime) -> Result<(), Fail> {
    let mut spawner = ChildSpawner::new(&rt, rt.alloc());
    for row in PROGRAMS.lines() {
        if let Some((start, wanted)) = row.split_once(" ==> ") {
            let mut found = String::new(rt.alloc());
            put_start(&mut found, rt.alloc(), &mut spawner, start)?;
            write!(&mut found, "{} of {}", spawner.faults, spawner.asked.len())?;
            assert_eq!(rt; found.as_str(), wanted, "{start}");
        }
    }
    assert_eq!(rt; spawner.asked.len(), 12);
    Ok(())
}
