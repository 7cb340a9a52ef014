//! Replies to a line.

ghost use Rattle.std.specs.Prelude.{◌≡◌, ◌++◌, ◌≤◌, [], ◌∷◌, false, true, ℤ, pos, ◌<ℤ◌, length, drop, IfSome, IfNone, List, ℕ, ◌↔◌};
ghost use Rattle.lt_plants.specs.Replies.{letter, IsHeating, IsReply, HasNoReply};
ghost use Rattle.lt_plants.specs.inner.Told.{told_text};

use crate::parts::{split_truth, truth_of};
use crate::plant::Plant;
use crate::real::real_of;
use lt_num::{Fixed, print};

/// A plant, and what it keeps from one line to the next.
#[derive(Clone, Copy, Debug, PartialEq, Eq)]
pub struct Playing {
    /// The plant.
    pub plant: Plant,
    /// The last answer of a thermostat, or the last truth that a gate was given. It is false at first.
    pub last: bool,
}

impl Playing {
    /// A plant that was given no line so far.
    pub fn new(plant: Plant) -> Self
        ensures plant { result.plant ≡ plant }
        ensures last { result.last ≡ false }
    {
        Playing { plant, last: false }
    }
}

/// Writes the reply to a line at the prefix of `into`, and answers how many bytes that took. The rest of `into`
/// stays as it was. The line and the reply are without their line feeds.
///
/// It is `None` exactly where the line has not the form of the plant's lines, and then nothing changes.
pub fn reply(playing: &mut Playing, line: &[u8], into: &mut [u8; 24]) -> Option<usize>
    ensures some { IfSome result (λ n. (text : List ℕ) × (n ≡ length text) ×
        (into.new ≡ text ++ drop n into.old)
        × IsReply playing.old.plant playing.old.last line.now text playing.new.last) }
    ensures room { IfSome result (λ n. n ≤ 24) }
    ensures none { IfNone result (HasNoReply playing.old.plant playing.old.last line.now) }
    ensures kept { IfNone result ((playing.new ≡ playing.old) × (into.new ≡ into.old)) }
    ensures plant { playing.new.plant ≡ playing.old.plant }
{
    let heard = hear(*playing, line)?;
    playing.last = heard.now;
    Some(write(heard.told, into))
}

// What a plant replies with.
#[derive(Clone, Copy)]
pub enum Told {
    Truth(bool),
    Number(i64),
}

// What a plant replies to a line, and what it keeps of it.
#[derive(Clone, Copy)]
struct Heard {
    told: Told,
    now: bool,
}

// Writes a reply at the prefix of `into`, and answers how many bytes that took.
fn write(told: Told, into: &mut [u8; 24]) -> usize
    ensures room { result ≤ 24 }
    ensures count { result ≡ length (told_text told) }
    ensures text { into.new ≡ told_text told ++ drop result into.old }
{
    match told {
        Told::Truth(truth) => {
            into[0] = if truth { b't' } else { b'f' };
            1
        }
        Told::Number(number) => print(Fixed { raw: number }, 0, into),
    }
}

// What a plant hears in a line.
fn hear(playing: Playing, line: &[u8]) -> Option<Heard>
    ensures some { IfSome result (λ h.
        IsReply playing.plant playing.last line.now (told_text h.told) h.now) }
    ensures none { IfNone result (HasNoReply playing.plant playing.last line.now) }
{
    match playing.plant {
        Plant::Thermostat => thermostat(playing.last, line),
        Plant::Gate => gate(playing.last, line),
        Plant::Constant(number) => Some(Heard {
            told: Told::Number(number),
            now: playing.last,
        }),
        Plant::Safe => safe(playing.last, line),
    }
}

fn thermostat(last: bool, line: &[u8]) -> Option<Heard>
    ensures some { IfSome result (λ h.
        IsReply Plant.Thermostat last line.now (told_text h.told) h.now) }
    ensures none { IfNone result (HasNoReply Plant.Thermostat last line.now) }
{
    let (text, _door) = split_truth(line)?;
    let temperature = real_of(text)?;
    let now = is_heating(last, temperature.raw);
    Some(Heard {
        told: Told::Truth(now),
        now,
    })
}

// Whether a thermostat heats at a temperature in hundredths.
fn is_heating(last: bool, temperature: i64) -> bool
    ensures { IsHeating last temperature result }
{
    if temperature < 1900 {
        true
    } else if temperature > 2100 {
        false
    } else {
        last
    }
}

fn gate(last: bool, line: &[u8]) -> Option<Heard>
    ensures some { IfSome result (λ h. IsReply Plant.Gate last line.now (told_text h.told) h.now) }
    ensures none { IfNone result (HasNoReply Plant.Gate last line.now) }
{
    let now = truth_of(line)?;
    Some(Heard {
        told: Told::Truth(last && now),
        now,
    })
}

fn safe(last: bool, line: &[u8]) -> Option<Heard>
    ensures some { IfSome result (λ h. IsReply Plant.Safe last line.now (told_text h.told) h.now) }
    ensures none { IfNone result (HasNoReply Plant.Safe last line.now) }
{
    let (prefix, heat) = split_truth(line)?;
    let (text, _door) = split_truth(prefix)?;
    let temperature = real_of(text)?;
    Some(Heard {
        told: Told::Truth(!(temperature.raw > 3000 && heat)),
        now: last,
    })
}
