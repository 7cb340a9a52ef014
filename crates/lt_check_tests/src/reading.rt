//! What the lines of a row say.

use std::test::Fail;

/// What stands after this sign in the last line that begins with it.
pub fn value_of<'a>(row: &'a str, sign: &str) -> Option<&'a str> {
    let mut value = None;
    for line in row.lines() {
        if let Some(rest) = line.strip_prefix(sign) {
            value = Some(rest);
        }
    }
    value
}

/// Puts what stands after this sign in the lines that begin with it, each with a line feed.
pub fn push_after(text: &mut String, row: &str, sign: &str) -> Result<(), Fail> {
    for line in row.lines() {
        if let Some(rest) = line.strip_prefix(sign) {
            push_repeating(text, rest)?;
            text.push('\n')?;
        }
    }
    Ok(())
}

// Puts what is written after a text, with each part as often as it says.
fn push_repeating(text: &mut String, written: &str) -> Result<(), Fail> {
    for part in written.split("<<") {
        let rest = match part.split_once(">>") {
            Some((repeated, rest)) => {
                push_repeated(text, repeated)?;
                rest
            }
            None => part,
        };
        text.push_str(rest)?;
    }
    Ok(())
}

fn push_repeated(text: &mut String, repeated: &str) -> Result<(), Fail> {
    let (times, piece) = repeated.split_once(" times ").ok_or("no `times`")?;
    for _ in 0..times.parse::<usize>()? {
        text.push_str(piece)?;
    }
    Ok(())
}
