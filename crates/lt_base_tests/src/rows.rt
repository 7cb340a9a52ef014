//! Tables as texts, which are cheaper to prove than values.
//!
//! Each line of a table with the sign ` ==> ` is a row: what is given, the sign, and what is found of it, as text. Any
//! other line says what the rows after it show. Bytes stand in quotes, where `\n`, `\r`, `\t` and `\xff` mean what they
//! do in Rust, and `9 of "x" + "\n"` are nine times `x` and the end of a line.

use crate::subject::{Subject, put_found};
use lt_num::Kind;
use std::alloc::Global;
use std::num::ParseIntError;
use std::process::Abort;
use std::str::FromStr;
use std::test::Fail;

/// What is found of each row of a table, which has so many, is what stands in the row.
pub fn check(
    rt: &impl Abort,
    alloc: Global,
    subject: &Subject,
    table: &str,
    count: u32,
) -> Result<(), Fail> {
    let mut rows = 0u32;
    for line in table.lines() {
        if let Some((given, wanted)) = line.split_once(" ==> ") {
            let mut found = String::new(alloc);
            put_found(&mut found, alloc, subject, given)?;
            assert_eq!(rt; found.trim_end(), wanted, "{given}");
            rows = rows.saturating_add(1);
        }
    }
    assert_eq!(rt; rows, count, "rows");
    Ok(())
}

/// The two parts of a text that this sign stands between.
pub fn halves<'a>(text: &'a str, sign: &'static str) -> Result<(&'a str, &'a str), Fail> {
    Ok(text.split_once(sign).ok_or(sign)?)
}

/// The kind that a word names.
pub fn kind_of(word: &str) -> Result<Kind, Fail> {
    match word {
        "bool" => Ok(Kind::Bool),
        "int" => Ok(Kind::Int),
        "real" => Ok(Kind::Real),
        _ => Err(Fail::new("a kind")),
    }
}

/// The numbers of a text, which are apart by blanks.
pub fn numbers_of<N: FromStr<Err = ParseIntError> + Drop>(
    alloc: Global,
    text: &str,
) -> Result<Vec<N>, Fail> {
    let mut numbers = Vec::new(alloc);
    for word in text.split_whitespace() {
        numbers.push(word.parse::<N>()?)?;
    }
    Ok(numbers)
}

/// The bytes of a text in parts that follow each other, each in quotes, and maybe so many times.
pub fn bytes_of(alloc: Global, text: &str) -> Result<Vec<u8>, Fail> {
    let mut bytes = Vec::new(alloc);
    for part in text.split(" + ") {
        let (count, quoted) = part.split_once(" of ").unwrap_or(("1", part));
        for _ in 0..count.parse::<u32>()? {
            put_unquoted(&mut bytes, quoted)?;
        }
    }
    Ok(bytes)
}

/// Puts the bytes that stand between quotes.
pub fn put_unquoted(bytes: &mut Vec<u8>, text: &str) -> Result<(), Fail> {
    let rest = text.strip_prefix('"').ok_or("a quote in prefix")?;
    let rest = rest.strip_suffix('"').ok_or("a quote after")?;
    for (place, part) in rest.split('\\').enumerate() {
        if place > 0 {
            put_escaped(bytes, part.as_bytes())?;
        } else {
            bytes.extend_from_slice(part.as_bytes())?;
        }
    }
    Ok(())
}

// Puts the byte that is written after a backslash, and what stands after it.
fn put_escaped(bytes: &mut Vec<u8>, text: &[u8]) -> Result<(), Fail> {
    let (byte, plain) = match text {
        [b'n', plain @ ..] => (b'\n', plain),
        [b'r', plain @ ..] => (b'\r', plain),
        [b't', plain @ ..] => (b'\t', plain),
        [b'x', high, low, plain @ ..] => (byte_of([*high, *low])?, plain),
        _ => return Err(Fail::new("a byte after a backslash")),
    };
    bytes.push(byte)?;
    Ok(bytes.extend_from_slice(plain)?)
}

// The byte that two digits write.
fn byte_of(digits: [u8; 2]) -> Result<u8, Fail> {
    Ok(u8::from_str_radix(str::from_utf8(&digits)?, 16)?)
}
