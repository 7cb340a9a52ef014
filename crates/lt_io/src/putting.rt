//! Whole texts into a sink.

ghost use Rattle.std.specs.Prelude.{◌≡◌, ◌<◌, take, length, IfErr, OnOk};
ghost use Rattle.std.specs.Io.KnownBytes.{Appends};
ghost use Rattle.lt_io.specs.Causes.{HasCause};
ghost use Rattle.lt_io.specs.Sending.{IsPut};

use crate::sink::{Failed, Sink};

/// Writes the whole text. Where it fails, a prefix of the text was written, but not all of it.
pub fn put<S: Sink>(sink: &mut S, text: &[u8]) -> Result<(), Failed>
    ensures { IsPut text.now (S.state sink.old) (S.state sink.new) result }
{
    match put_counted(sink, text) {
        Ok(()) => Ok(()),
        Err(_) => Err(Failed),
    }
}

/// Writes the whole text. Where it fails, it answers how many of its first bytes were written, which are not all.
pub fn put_counted<S: Sink>(sink: &mut S, text: &[u8]) -> Result<(), usize>
    ensures all { OnOk result (Appends (S.state sink.old).written (S.state sink.new).written
        text.now) }
    ensures part { IfErr result (λ n. n < length text.now) }
    ensures prefix { IfErr result (λ n. Appends (S.state sink.old).written
        (S.state sink.new).written (take n text.now)) }
    ensures cause { HasCause (S.state sink.old).faults (S.state sink.new).faults result }
    ensures still { (S.state sink.new).gathers ≡ (S.state sink.old).gathers }
{
    let mut written = 0;
    while written < text.len() {
        match sink.write(&text[written..]) {
            Ok(count) => written += count,
            Err(Failed) => return Err(written),
        }
    }
    Ok(())
}
