//! What is put to the trace of a campaign.

ghost use Rattle.std.specs.Prelude.{◌≡◌, ℕ, List, [], OnErr, OnOk};
ghost use Rattle.std.specs.List.{flat_map};
ghost use Rattle.lt_io.specs.Sending.{IsPut};
ghost use Rattle.lt_io.specs.Sink.{Sink};
ghost use Rattle.lt_campaign.specs.Campaign.{IsCutText};
ghost use Rattle.lt_campaign.specs.Rounds.{campaign_line, frame};
ghost use Rattle.lt_campaign.specs.inner.Writing.{HasText, PutsBehind};

use itoa::Buffer;
use lt_io::{Failed, Sink, put_counted};
use std::alloc::Global;

// How many bytes are written at once, at most.
const MOST_BYTES: usize = 65_536;

/// Room for what waits to be written together. Where memory runs out there is none, and nothing waits.
pub(crate) fn room(alloc: Global) -> Vec<u8>
    ensures { result.items ≡ [] }
{
    Vec::with_capacity(alloc, MOST_BYTES).unwrap_or(Vec::new(alloc))
}

/// Puts a piece of a session in its frame.
pub(crate) fn put_frame<S: Sink>(
    session: usize,
    text: &[u8],
    waiting: &mut Vec<u8>,
    trace: &mut S,
) -> Result<(), Failed>
    ensures { (start : Sink) (before : List ℕ) →
        HasText start (S.state trace.old) waiting.old.items before →
        PutsBehind result start (S.state trace.new) waiting.new.items before (frame session text.now) }
{
    let mut session_digits = Buffer::new();
    let mut length_digits = Buffer::new();
    let session = session_digits.format(session).as_bytes();
    let length = length_digits.format(text.len()).as_bytes();
    let pieces: [&[u8]; 6] = [b"#from ", session, b" ", length, b"\n", text];
    put_pieces(&pieces, waiting, trace)
}

/// Puts the line at the end of a campaign: so many sessions, of which so many ended well.
pub(crate) fn put_end<S: Sink>(
    sessions: usize,
    well: usize,
    waiting: &mut Vec<u8>,
    trace: &mut S,
) -> Result<(), Failed>
    ensures { (start : Sink) (before : List ℕ) →
        HasText start (S.state trace.old) waiting.old.items before →
        PutsBehind result start (S.state trace.new) waiting.new.items before
        (campaign_line sessions well) }
{
    let mut session_digits = Buffer::new();
    let mut well_digits = Buffer::new();
    let sessions = session_digits.format(sessions).as_bytes();
    let well = well_digits.format(well).as_bytes();
    let pieces: [&[u8]; 5] = [b"#campaign ", sessions, b" ended ", well, b"\n"];
    put_pieces(&pieces, waiting, trace)
}

// Puts pieces of a text, one behind the other.
fn put_pieces<S: Sink>(pieces: &[&[u8]], waiting: &mut Vec<u8>, trace: &mut S) -> Result<(), Failed>
    ensures { (start : Sink) (before : List ℕ) →
        HasText start (S.state trace.old) waiting.old.items before →
        PutsBehind result start (S.state trace.new) waiting.new.items before
        (flat_map (λ piece. piece.now) pieces.now) }
{
    for piece in pieces {
        put_piece(piece, waiting, trace)?;
    }
    Ok(())
}

// Puts a piece of a text: where the trace gathers texts and there is room, it waits to be written with others.
fn put_piece<S: Sink>(piece: &[u8], waiting: &mut Vec<u8>, trace: &mut S) -> Result<(), Failed>
    ensures { (start : Sink) (before : List ℕ) →
        HasText start (S.state trace.old) waiting.old.items before →
        PutsBehind result start (S.state trace.new) waiting.new.items before piece.now }
{
    if trace.gathers() && piece.len() <= waiting.capacity() - waiting.len() {
        waiting.extend_from_slice(piece).unwrap();
        return Ok(());
    }
    settle(waiting, trace)?;
    write_text(piece, trace)
}

/// Writes what waits.
pub(crate) fn settle<S: Sink>(waiting: &mut Vec<u8>, trace: &mut S) -> Result<(), Failed>
    ensures written { OnOk result ((start : Sink) (before : List ℕ) →
        HasText start (S.state trace.old) waiting.old.items before →
        HasText start (S.state trace.new) waiting.new.items before) }
    ensures none { OnOk result (waiting.new.items ≡ []) }
    ensures cut { OnErr result ((start : Sink) (before : List ℕ) →
        HasText start (S.state trace.old) waiting.old.items before →
        IsCutText start (S.state trace.new) before before) }
{
    write_text(waiting, trace)?;
    waiting.clear();
    Ok(())
}

// Writes a text.
fn write_text<S: Sink>(text: &[u8], trace: &mut S) -> Result<(), Failed>
    ensures put { IsPut text.now (S.state trace.old) (S.state trace.new) result }
    ensures still { (S.state trace.new).gathers ≡ (S.state trace.old).gathers }
{
    match put_counted(trace, text) {
        Ok(()) => Ok(()),
        Err(_) => Err(Failed),
    }
}
