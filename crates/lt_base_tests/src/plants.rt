//! Plants: which words name them, what they reply, and how they are served.

use crate::rows::{bytes_of, check, halves};
use crate::subject::Subject;
use lt_io::ScriptLink;
use lt_plants::{Plant, Playing, plant_of, reply, serve};
use std::alloc::Global;
use std::str;
use std::test::Fail;

// Words, with the plant that they name. The word `''` is empty, and in the first row there are none.
const NAMED: &str = "
 ==> None
thermostat ==> Some(Thermostat)
gate ==> Some(Gate)
safe ==> Some(Safe)
constant 7 ==> Some(Constant(7))
constant -007 ==> Some(Constant(-7))
constant -0 ==> Some(Constant(0))
constant -999999999999999999 ==> Some(Constant(-999999999999999999))
constant 1000000000000000000 ==> None
constant +7 ==> None
constant - ==> None
constant '' ==> None
constant 7.0 ==> None
constant ==> None
constant 7 8 ==> None
gate 7 ==> None
Gate ==> None
'' ==> None
";

/// Puts the plant that words name.
pub fn put_named(found: &mut String, alloc: Global, words: &str) -> Result<(), Fail> {
    write!(found, "{:?}", plant_named(alloc, words)?)?;
    Ok(())
}

// The plant that words name.
fn plant_named(alloc: Global, text: &str) -> Result<Option<Plant>, Fail> {
    let mut words = Vec::new(alloc);
    for word in text.split_whitespace() {
        words.push(String::from_str(alloc, word.trim_matches('\''))?)?;
    }
    Ok(plant_of(&words))
}

// A plant and the lines that it is given in turn, each between two bars, with what it replies to each.
const REPLIES: &str = "
a thermostat heats below 19.00, and goes on up to 21.00
thermostat: |19.00 f|18.99 f|19.00 t|21.00 f|21.01 t|21.00 f|-0.01 f|10000000000.00 f|-10000000000.00 f| ==> f t t t f f t f t

what is no temperature has no reply, and changes nothing
thermostat: |18.00 f|10000000000.01 f|20.00 f| ==> t none t
thermostat: |18.00 f|30.0 f|20.00 f| ==> t none t
thermostat: |18.00 f|30.000 f|20.00 f| ==> t none t
thermostat: |18.00 f|030.00 f|20.00 f| ==> t none t
thermostat: |18.00 f|+30.00 f|20.00 f| ==> t none t
thermostat: |18.00 f|-0.00 f|20.00 f| ==> t none t
thermostat: |18.00 f|.30 f|20.00 f| ==> t none t
thermostat: |18.00 f|30 f|20.00 f| ==> t none t
thermostat: |18.00 f|30.00|20.00 f| ==> t none t
thermostat: |18.00 f|30.00 |20.00 f| ==> t none t
thermostat: |18.00 f|30.00  f|20.00 f| ==> t none t
thermostat: |18.00 f|30.00 F|20.00 f| ==> t none t
thermostat: |18.00 f|30.00 f |20.00 f| ==> t none t
thermostat: |18.00 f|30.00 f t|20.00 f| ==> t none t
thermostat: |18.00 f||20.00 f| ==> t none t

a gate tells whether a truth and the one before it are true
gate: |t|t|T|true||t|f|t| ==> f t none none none t f f

a constant replies to anything
constant -12: ||whatever it is| ==> -12 -12

what is heated over 30.00 is not safe
safe: |30.00 f t|30.01 f t|30.01 t f|-30.01 t t|30.01 t|30.1 t t|30.01 t t t| ==> t f t t none none none
";

/// Puts what a plant replies to the lines of a row in turn, with a blank after each. Where it has no reply, it stays as it
/// was.
pub fn put_replies(found: &mut String, alloc: Global, given: &str) -> Result<(), Fail> {
    let (plant, lines) = halves(given, ": |")?;
    let lines = lines.strip_suffix('|').ok_or("a bar after")?;
    let mut playing = Playing::new(plant_named(alloc, plant)?.ok_or("a plant")?);
    for line in lines.split('|') {
        put_reply(found, &mut playing, line)?;
    }
    Ok(())
}

// Puts the reply to a line.
fn put_reply(found: &mut String, playing: &mut Playing, line: &str) -> Result<(), Fail> {
    let before = *playing;
    let mut into = [b'.'; 24];
    let told = match reply(playing, line.as_bytes(), &mut into) {
        Some(count) => str::from_utf8(&into[..count])?,
        None if *playing == before => "none",
        None => "none, and it changed",
    };
    found.push_str(told)?;
    Ok(found.push(' ')?)
}

// A plant and what comes of its link, with the number that it is served with and what is sent.
const SERVED: &str = r#"
lines come in any pieces
gate: "t\nt\nf\nt\n" ==> 0, "f\nt\nf\nf\n"
gate: "t\nt" ==> 0, "f\n"
gate: "" ==> 0, ""
gate: "no line" ==> 0, ""
gate: "t\n\nt\n" ==> 1, "f\n"
gate: "x\nt\n" ==> 1, ""
constant 5: "\n\n" ==> 0, "5\n5\n"
thermostat: "18.00 t\n20.00 f\n22.00 f\n20.00 f\n" ==> 0, "t\nt\nf\nf\n"
safe: "31.00 f t\r\n" ==> 1, ""

a line has so many bytes
constant 5: 4096 of "x" + "\n" ==> 0, "5\n"
constant 5: 4097 of "x" + "\n" ==> 2, ""
constant 5: 4096 of "x" ==> 0, ""
constant 5: 4097 of "x" ==> 2, ""
constant 5: 4096 of "x" + "\nx\n" ==> 0, "5\n5\n"
constant 5: 9000 of "x" + "\nx\n" ==> 2, ""
"#;

/// Puts with which number a plant is served, and what is sent.
pub fn put_service(found: &mut String, alloc: Global, given: &str) -> Result<(), Fail> {
    let (plant, text) = halves(given, ": ")?;
    let plant = plant_named(alloc, plant)?.ok_or("a plant")?;
    put_in_any_pieces(found, alloc, plant, &bytes_of(alloc, text)?)
}

// Puts that whatever the pieces are. What differs in pieces of some length is put after it.
fn put_in_any_pieces(
    found: &mut String,
    alloc: Global,
    plant: Plant,
    text: &[u8],
) -> Result<(), Fail> {
    put_served(found, alloc, plant, text, 0, &[])?;
    for cut in [1, 3, 1000] {
        let mut other = String::new(alloc);
        put_served(&mut other, alloc, plant, text, cut, &[])?;
        if other != *found {
            write!(found, " but in pieces of {cut}: {other}")?;
        }
    }
    Ok(())
}

// The calls are: a piece, a reply, a piece, a reply, the end. One of them fails.
const FAILING: &str = r#"
call 0 ==> 9, "" and faults 1
call 1 ==> 9, "" and faults 1
call 2 ==> 9, "f\n" and faults 1
call 3 ==> 9, "f\n" and faults 1
call 4 ==> 9, "f\nt\n" and faults 1
"#;

/// Puts what comes of serving a gate where a call of the link fails.
pub fn put_failing(found: &mut String, alloc: Global, given: &str) -> Result<(), Fail> {
    let call = given.strip_prefix("call ").ok_or("a call")?.parse()?;
    put_served(found, alloc, Plant::Gate, b"t\nt\n", 2, &[call])
}

// Serves a plant over a link in memory, in pieces of at most so many bytes, where these are some, and puts with which number,
// what is sent, and how many calls failed, if any did.
fn put_served(
    found: &mut String,
    alloc: Global,
    plant: Plant,
    text: &[u8],
    cut: usize,
    failing: &[u64],
) -> Result<(), Fail> {
    let cuts = vec![in alloc; cut; if cut > 0 { text.len() } else { 0 }]?;
    let failing = failing.to_vec(alloc)?;
    let mut link = ScriptLink::make(alloc, text.to_vec(alloc)?, cuts, 64, failing)?;
    let number = serve(&mut Playing::new(plant), &mut link);
    put_ending(found, number, &link)
}

fn put_ending(found: &mut String, number: u8, link: &ScriptLink) -> Result<(), Fail> {
    write!(found, "{number}, {:?}", str::from_utf8(link.sent())?)?;
    if link.faults() > 0 {
        write!(found, " and faults {}", link.faults())?;
    }
    Ok(())
}

#[test]
fn words_name_plants_that_reply_and_are_served(rt: HostRuntime) -> Result<(), Fail> {
    check(&rt, rt.alloc(), &Subject::Names, NAMED, 18)?;
    check(&rt, rt.alloc(), &Subject::PlantReplies, REPLIES, 19)?;
    check(&rt, rt.alloc(), &Subject::Services, SERVED, 15)?;
    check(&rt, rt.alloc(), &Subject::FailingServices, FAILING, 5)
}
