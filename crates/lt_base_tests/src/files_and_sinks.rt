//! Files and sinks: answers with ample memory, which no clause can promise, and those of the real system.

use crate::flaky::FailingWriter;
use crate::rows::{check, halves, numbers_of};
use crate::subject::Subject;
use lt_io::{Calls, DirFiles, Files, MemFiles, MemSink, Sink, StdSink};
use std::alloc::{AllocError, Global};
use std::test::Fail;
use std::{env, fs, process, str};

// The room of a sink in memory, its cuts and the calls that fail, or a sink over a writer, with what three calls of it answer
// that offer "abc", what is taken, and how many failed.
const SINKS: &str = r#"
room 9 cuts failing 7 8 ==> Ok(3) Ok(3) Ok(3) "abcabcabc" 0
room 4 cuts failing 7 8 ==> Ok(3) Ok(1) Err(Failed) "abca" 1
room 0 cuts failing 7 8 ==> Err(Failed) Err(Failed) Err(Failed) "" 3
room 9 cuts failing 0 2 ==> Err(Failed) Ok(3) Err(Failed) "abc" 2
room 9 cuts 2 0 failing 7 ==> Ok(2) Ok(1) Ok(3) "abaabc" 0
room 9 cuts 5 failing 0 ==> Err(Failed) Ok(3) Ok(3) "abcabc" 1
room 4 cuts 1 2 failing 1 ==> Ok(1) Err(Failed) Ok(2) "aab" 1
a writer of 4 ==> Ok(3) Ok(1) Err(Failed) "abca" 1
a writer that fails at ==> Ok(3) Ok(3) Ok(3) "abcabcabc" 0
a writer that fails at 1 ==> Ok(3) Err(Failed) Ok(3) "abcabc" 1
a writer that fails at 0 2 ==> Err(Failed) Ok(3) Err(Failed) "abc" 2
"#;

/// Puts what a sink answers, what it took, and how many calls failed.
pub fn put_sink(found: &mut String, alloc: Global, given: &str) -> Result<(), Fail> {
    if let Some(given) = given.strip_prefix("room ") {
        return put_sink_in_memory(found, alloc, given);
    }
    match given.strip_prefix("a writer that fails at") {
        Some(failing) => put_sink_over_failing(found, alloc, failing),
        None => put_sink_over_writer(found),
    }
}

fn put_sink_in_memory(found: &mut String, alloc: Global, given: &str) -> Result<(), Fail> {
    let (holding, failing) = halves(given, " failing ")?;
    let (room, cuts) = halves(holding, " cuts")?;
    let cuts = numbers_of(alloc, cuts)?;
    let mut sink = MemSink::make(alloc, room.parse()?, cuts, numbers_of(alloc, failing)?)?;
    put_offered(found, &mut sink)?;
    put_taken(found, sink.written(), sink.faults())
}

fn put_sink_over_writer(found: &mut String) -> Result<(), Fail> {
    let mut room = [0u8; 4];
    let mut sink = StdSink::new(room.as_mut_slice());
    put_offered(found, &mut sink)?;
    let faults = sink.faults;
    drop(sink);
    put_taken(found, &room, faults)
}

fn put_sink_over_failing(found: &mut String, alloc: Global, failing: &str) -> Result<(), Fail> {
    let mut sink = StdSink::new(FailingWriter {
        calls: Calls::new(numbers_of(alloc, failing)?),
        taken: Vec::new(alloc),
    });
    put_offered(found, &mut sink)?;
    put_taken(found, &sink.writer.taken, sink.faults)
}

/// Puts a text that was taken, and how many calls failed.
pub fn put_taken(found: &mut String, taken: &[u8], faults: u64) -> Result<(), Fail> {
    Ok(write!(found, "{:?} {faults}", str::from_utf8(taken)?)?)
}

// Offers "abc" three times, whatever the answers.
fn put_offered<S: Sink>(found: &mut String, sink: &mut S) -> Result<(), AllocError> {
    for _ in 0..3 {
        write!(found, "{:?} ", sink.write(b"abc"))?;
    }
    Ok(())
}

// Files that are read in turn, of at most so many bytes, with what is read of each. There are the files `one`, which has
// abcd, and `none`, which has nothing. A second file `one` is never read, and the third call and the tenth fail. After that
// stand how many calls were made and failed, and which files were asked for.
const FILES: &str = r#"
4 of one, 3 of one, 4 of one, 4 of two, 0 of none ==> "abcd" TooLong Failed Failed "" 5 2 one one one two none
"#;

/// Puts what is read of files in memory.
pub fn put_files(found: &mut String, alloc: Global, given: &str) -> Result<(), Fail> {
    let calls = Calls::new([2, 9].to_vec(alloc)?);
    let mut files = MemFiles {
        entries: entries_of(alloc)?,
        asked: Vec::new(alloc),
        calls,
    };
    put_read_in_memory(found, alloc, &mut files, given)
}

fn put_read_in_memory(
    found: &mut String,
    alloc: Global,
    files: &mut MemFiles,
    given: &str,
) -> Result<(), Fail> {
    put_read(found, alloc, files, given)?;
    write!(found, "{} {}", files.calls.made, files.calls.faults)?;
    put_names(found, &files.asked)
}

/// Puts names, with a blank before each.
pub fn put_names(found: &mut String, names: &[String]) -> Result<(), Fail> {
    for name in names {
        write!(found, " {name}")?;
    }
    Ok(())
}

// The files in memory, by name.
fn entries_of(alloc: Global) -> Result<Vec<(String, Vec<u8>)>, Fail> {
    let mut entries = Vec::new(alloc);
    entries.push(entry_of(alloc, "one", "abcd")?)?;
    entries.push(entry_of(alloc, "none", "")?)?;
    entries.push(entry_of(alloc, "one", "the second of a name")?)?;
    Ok(entries)
}

// A file of this name and text.
fn entry_of(alloc: Global, name: &str, text: &str) -> Result<(String, Vec<u8>), AllocError> {
    let bytes = Vec::from_slice(alloc, text.as_bytes())?;
    Ok((String::from_str(alloc, name)?, bytes))
}

// Puts what is read of each file that is named, with a blank after it.
fn put_read<F: Files>(
    found: &mut String,
    alloc: Global,
    files: &mut F,
    given: &str,
) -> Result<(), Fail> {
    for part in given.split(", ") {
        let (most, name) = halves(part, " of ")?;
        match files.read(alloc, name, most.parse()?) {
            Ok(bytes) => write!(found, "{:?} ", str::from_utf8(&bytes)?)?,
            Err(refusal) => write!(found, "{refusal:?} ")?,
        }
    }
    Ok(())
}

#[test]
fn sinks_and_files_in_memory_fail_where_told(rt: HostRuntime) -> Result<(), Fail> {
    check(&rt, rt.alloc(), &Subject::Sinks, SINKS, 11)?;
    check(&rt, rt.alloc(), &Subject::Files, FILES, 1)
}

#[test]
fn files_of_the_system_are_read(rt: HostRuntime) -> Result<(), Fail> {
    let alloc = rt.alloc();
    let folder = env::temp_dir(&rt)?;
    let folder = folder.as_str();
    let there = format!(in alloc; "{folder}/lt_io-{}", process::id(rt.process()))?;
    fs::write(&rt, there.as_str(), "abcd")?;
    let mut files = DirFiles::new(&rt, alloc);
    // The last file never ends.
    let given = format!(in alloc;
        "4 of {there}, 3 of {there}, 4 of {there}-missing, 4 of {folder}, 4 of /dev/zero"
    )?;
    let mut found = String::new(alloc);
    put_read(&mut found, alloc, &mut files, &given)?;
    fs::remove_file(&rt, there.as_str())?;
    write!(&mut found, "{} {}", files.asked.len(), files.faults)?;
    assert_eq!(rt;
        found.as_str(),
        r#""abcd" TooLong Failed Failed TooLong 5 2"#
    );
    Ok(())
}
