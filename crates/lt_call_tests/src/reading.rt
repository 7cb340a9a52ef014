//! What the lines of a row say.

use std::alloc::Global;
use std::num::ParseIntError;
use std::str::FromStr;
use std::test::Fail;

// What stands after these two texts in the last line that begins with them.
pub fn value_of<'a>(row: &'a str, first: &str, second: &str) -> Option<&'a str> {
    let mut value = None;
    for line in row.lines() {
        if let Some(rest) = line.strip_prefix(first)
            && let Some(found) = rest.strip_prefix(second)
        {
            value = Some(found);
        }
    }
    value
}

// The program of a line that has this word after its name, and what stands after that.
pub fn told_of_program<'a>(line: &'a str, word: &str) -> Option<(&'a str, &'a str)> {
    let (program, rest) = line.split_once(' ')?;
    Some((program, rest.strip_prefix(word)?))
}

// The numbers of a text, and none of no text.
pub fn numbers_of<N: FromStr<Err = ParseIntError> + Drop>(
    alloc: Global,
    text: Option<&str>,
) -> Result<Vec<N>, Fail> {
    let mut numbers = Vec::new(alloc);
    for word in text.unwrap_or("").split_whitespace() {
        numbers.push(word.parse::<N>()?)?;
    }
    Ok(numbers)
}

// Puts what stands in the lines with this sign after a text, each with a line feed.
pub fn push_after(text: &mut String, row: &str, sign: &str) -> Result<(), Fail> {
    for line in row.lines() {
        if let Some(rest) = line.strip_prefix(sign) {
            push_repeating(text, rest)?;
            text.push_str("\n")?;
        }
    }
    Ok(())
}

// Puts what stands between quotes after a text.
pub fn push_unquoted(text: &mut String, quoted: &str) -> Result<(), Fail> {
    let rest = quoted.strip_prefix('"').ok_or("no quote in prefix")?;
    push_repeating(text, rest.strip_suffix('"').ok_or("no quote after")?)
}

// Puts what is written after a text, with each part as often as it says.
fn push_repeating(text: &mut String, written: &str) -> Result<(), Fail> {
    for part in written.split("<<") {
        let rest = match part.split_once(">>") {
            Some((repeated, rest)) => {
                push_repeated(text, repeated)?;
                rest
            }
            None => part,
        };
        push_unescaped(text, rest)?;
    }
    Ok(())
}

fn push_repeated(text: &mut String, repeated: &str) -> Result<(), Fail> {
    let (times, escaped) = repeated.split_once(" times ").ok_or("no `times`")?;
    for _ in 0..times.parse::<usize>()? {
        push_unescaped(text, escaped)?;
    }
    Ok(())
}

// Puts a text after another one, with what each escape stands for.
pub fn push_unescaped(text: &mut String, escaped: &str) -> Result<(), Fail> {
    let mut is_after_backslash = false;
    for letter in escaped.chars() {
        if is_after_backslash {
            text.push(meaning_of(letter).ok_or("no such escape")?)?;
            is_after_backslash = false;
        } else if letter == '\\' {
            is_after_backslash = true;
        } else {
            text.push(letter)?;
        }
    }
    if is_after_backslash {
        return Err(Fail::new("a backslash at the end"));
    }
    Ok(())
}

// What a letter stands for after a backslash.
fn meaning_of(letter: char) -> Option<char> {
    match letter {
        'n' => Some('\n'),
        'r' => Some('\r'),
        't' => Some('\t'),
        's' => Some(' '),
        _ => None,
    }
}
