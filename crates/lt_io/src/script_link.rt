//! A link in memory.

ghost use Rattle.std.specs.Prelude.{◌≡◌, ◌+◌, ◌-◌, ◌<◌, ◌≤◌, ◌↔◌, [], ◌++◌, Some, take, drop, length, vec_len, vec_capacity, IfOk, OnOk, OnErr, IsErr};
ghost use Rattle.std.specs.Io.{ReadsAtMost};
ghost use Rattle.std.specs.Io.KnownBytes.{Appends, Keeps, ReadConsumes};
ghost use Rattle.lt_io.specs.Calls.{IsNextToFail, none_made, with_success, with_fault};
ghost use Rattle.lt_io.specs.Causes.{HasCause};
ghost use Rattle.lt_io.specs.Sending.{AppendsPrefix};
ghost use Rattle.lt_io.specs.ScriptState.{ScriptState, FailsToSend, link_of, piece_length};

use crate::calls::Calls;
use crate::cuts::Cuts;
use crate::link::Link;
use crate::memory::Memory;
use crate::sink::Failed;
use std::alloc::Global;
use std::marker::Model;

/// A link whose bytes are given beforehand, with the pieces in which they come. It keeps what it is sent, as
/// much as it has room for, and fails where it is told to.
#[derive(Drop)]
pub struct ScriptLink {
    bytes: Vec<u8>,
    // How many of the bytes were given out.
    given: usize,
    cuts: Cuts,
    sent: Vec<u8>,
    room: usize,
    calls: Calls,
}

impl Model for ScriptLink {
    ghost Value = { ScriptState };

    ghost view = { λ l. record {
      left = drop l.given l.bytes.items;
      cuts = l.cuts;
      sent = l.sent.items;
      room = l.room;
      calls = l.calls;
    } };

    ghost invariant = { λ l. (l.given ≤ vec_len l.bytes) ×
        (vec_len l.sent + l.room ≤ vec_capacity l.sent) };
}

impl ScriptLink {
    /// A link that gives `left` and then ends. It takes `room` bytes, which it reserves.
    ///
    /// `cuts` has the most bytes of each piece in turn, where a cut of 0 counts as 1; after the last cut a piece
    /// is as long as there is room for. `failing` holds the numbers of the calls that are to fail, where `send`
    /// and `recv` are counted together and the first call is number 0.
    ///
    /// It answers `Memory` where the room could not be reserved.
    pub fn make(
        alloc: Global,
        left: Vec<u8>,
        cuts: Vec<usize>,
        room: usize,
        failing: Vec<u64>,
    ) -> Result<ScriptLink, Memory>
        ensures { IfOk result (λ l. l ≡ record {
          left = left.items;
          cuts = cuts.items;
          sent = [];
          room = room;
          calls = none_made failing;
        }) }
    {
        Ok(ScriptLink {
            bytes: left,
            given: 0,
            cuts: Cuts::new(cuts),
            sent: Vec::with_capacity(alloc, room)?,
            room,
            calls: Calls::new(failing),
        })
    }

    /// The bytes sent so far.
    pub fn sent(&self) -> &[u8]
        ensures { result.now ≡ self.now.sent }
    {
        &self.sent
    }

    /// How many calls failed, up to `u64::MAX`.
    pub fn faults(&self) -> u64
        ensures { result ≡ self.now.calls.faults }
    {
        self.calls.faults
    }

    // Forgets what was sent, and the calls.
    pub(crate) fn restart(&mut self)
        ensures { self.new ≡ record self.old { sent = []; calls = none_made self.old.calls.failing } }
    {
        self.sent.clear();
        self.calls.restart();
    }
}

impl Link for ScriptLink {
    ghost state = { λ l. link_of l };

    /// Sends as much as there is room for, which falls by as much.
    ///
    /// It fails exactly where the call is to fail, and then nothing is sent, or where the room is too small, and
    /// then what fits is sent.
    fn send(&mut self, bytes: &[u8]) -> Result<(), Failed>
        ensures all { OnOk result (Appends (Some self.old.sent) (Some self.new.sent) bytes.now) }
        ensures prefix { OnErr result
            (AppendsPrefix (Some self.old.sent) (Some self.new.sent) bytes.now) }
        ensures stays { Keeps (Some self.old.left) (Some self.new.left) }
        ensures cause { HasCause self.old.calls.faults self.new.calls.faults result }

        // Beyond the trait: which calls fail, and what each call leaves.
        ensures fails { IsErr result ↔ FailsToSend self.old (length bytes.now) }
        ensures taken { OnOk result (self.new ≡ record self.old {
          sent = self.old.sent ++ bytes.now;
          room = self.old.room - length bytes.now;
          calls = with_success self.old.calls;
        }) }
        ensures refused { IsNextToFail self.old.calls →
            self.new ≡ record self.old { calls = with_fault self.old.calls } }
        ensures full { ¬ (IsNextToFail self.old.calls) → self.old.room < length bytes.now →
            self.new ≡ record self.old {
              sent = self.old.sent ++ take self.old.room bytes.now;
              room = 0;
              calls = with_fault self.old.calls;
            } }
    {
        if self.calls.is_next_to_fail() {
            self.calls.count_fault();
            return Err(Failed);
        }
        let count = self.room.min(bytes.len());
        self.sent.extend_from_slice(&bytes[..count]).unwrap();
        self.room -= count;
        if count < bytes.len() {
            self.calls.count_fault();
            return Err(Failed);
        }
        self.calls.count_success();
        Ok(())
    }

    /// Gives the next piece, as long as its cut, the room and what is left let it be.
    ///
    /// It fails exactly where the call is to fail, and then neither bytes nor a cut are used. After the piece
    /// `into` stays as it was.
    fn recv(&mut self, into: &mut [u8]) -> Result<usize, Failed>
        requires { 0 < length into.old }
        ensures within { ReadsAtMost result into.new }
        ensures takes { ReadConsumes (Some self.old.left) (Some self.new.left) result into.new }
        ensures stays { Keeps (Some self.old.sent) (Some self.new.sent) }
        ensures cause { HasCause self.old.calls.faults self.new.calls.faults result }

        // Beyond the trait: which calls fail, how long a piece is, and what each call leaves.
        ensures fails { IsErr result ↔ IsNextToFail self.old.calls }
        ensures count { IfOk result (λ n. n ≡ piece_length self.old (length into.old)) }
        ensures given { IfOk result (λ n. into.new ≡ take n self.old.left ++ drop n into.old) }
        ensures taken { IfOk result (λ n. self.new ≡ record self.old {
          left = drop n self.old.left;
          cuts = drop 1 self.old.cuts;
          calls = with_success self.old.calls;
        }) }
        ensures refused { OnErr result (self.new ≡
            record self.old { calls = with_fault self.old.calls }) }
        ensures untouched { OnErr result (into.new ≡ into.old) }
    {
        if self.calls.is_next_to_fail() {
            self.calls.count_fault();
            return Err(Failed);
        }
        self.calls.count_success();
        let most = self.cuts.next(into.len());
        let count = most.min(self.bytes.len() - self.given);
        into[..count].copy_from_slice(&self.bytes[self.given..self.given + count]);
        self.given += count;
        Ok(count)
    }
}
