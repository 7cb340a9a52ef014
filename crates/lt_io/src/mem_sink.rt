//! A sink in memory.

ghost use Rattle.std.specs.Prelude.{◌≡◌, ◌+◌, ◌-◌, ◌<◌, ◌≤◌, ◌↔◌, [], ◌++◌, Some, min, take, drop, length, vec_len, vec_capacity, IfOk, OnErr, IsErr};
ghost use Rattle.std.specs.Io.KnownBytes.{WriteAppends};
ghost use Rattle.lt_io.specs.Calls.{none_made, with_success, with_fault};
ghost use Rattle.lt_io.specs.Causes.{HasCause};
ghost use Rattle.lt_io.specs.Cuts.{most_of};
ghost use Rattle.lt_io.specs.SinkState.{SinkState, Fails, sink_of};

use crate::calls::Calls;
use crate::cuts::Cuts;
use crate::memory::Memory;
use crate::sink::{Failed, Sink};
use std::alloc::Global;
use std::marker::Model;

/// A sink that keeps the bytes it takes, as many as it has room for, and fails where it is told to.
#[derive(Drop)]
pub struct MemSink {
    written: Vec<u8>,
    room: usize,
    cuts: Cuts,
    calls: Calls,
}

impl Model for MemSink {
    ghost Value = { SinkState };

    ghost view = { λ s. record {
      written = s.written.items;
      room = s.room;
      cuts = s.cuts;
      calls = s.calls;
    } };

    ghost invariant = { λ s. vec_len s.written + s.room ≤ vec_capacity s.written };
}

impl MemSink {
    /// An empty sink with room for `room` bytes, which it reserves.
    ///
    /// `cuts` has the most bytes that each call of `write` takes in turn, where a cut of 0 counts as 1; after the last
    /// cut a call takes what there is room for. `failing` holds the numbers of the calls that are to fail, where the
    /// first call is number 0.
    ///
    /// It answers `Memory` where the room could not be reserved.
    pub fn make(
        alloc: Global,
        room: usize,
        cuts: Vec<usize>,
        failing: Vec<u64>,
    ) -> Result<MemSink, Memory>
        ensures { IfOk result (λ s. s ≡ record {
          written = [];
          room = room;
          cuts = cuts.items;
          calls = none_made failing;
        }) }
    {
        Ok(MemSink {
            written: Vec::with_capacity(alloc, room)?,
            room,
            cuts: Cuts::new(cuts),
            calls: Calls::new(failing),
        })
    }

    /// The bytes taken so far.
    pub fn written(&self) -> &[u8]
        ensures { result.now ≡ self.now.written }
    {
        &self.written
    }

    /// How many calls failed, up to `u64::MAX`.
    pub fn faults(&self) -> u64
        ensures { result ≡ self.now.calls.faults }
    {
        self.calls.faults
    }
}

impl Sink for MemSink {
    ghost state = { λ s. sink_of s };

    /// Each text is a call of its own, so which call fails is plain.
    fn gathers(&self) -> bool {
        false
    }

    /// Takes as much of the piece as its cut and the room let it, which falls by as much.
    ///
    /// It fails exactly where the call is to fail or no room is left, and then no cut is used.
    fn write(&mut self, bytes: &[u8]) -> Result<usize, Failed>
        requires { 0 < length bytes.now }
        ensures some { IfOk result (λ n. 0 < n) }
        ensures within { IfOk result (λ n. n ≤ length bytes.now) }
        ensures appends { WriteAppends (Some self.old.written) (Some self.new.written) result
            bytes.now }
        ensures cause { HasCause self.old.calls.faults self.new.calls.faults result }
        ensures still { (sink_of self.new).gathers ≡ (sink_of self.old).gathers }

        // Beyond the trait: which calls fail, how much the others take, and what each call leaves.
        ensures fails { IsErr result ↔ Fails self.old }
        ensures count { IfOk result (λ n.
            n ≡ min (most_of self.old.cuts self.old.room) (length bytes.now)) }
        ensures taken { IfOk result (λ n. self.new ≡ record self.old {
          written = self.old.written ++ take n bytes.now;
          room = self.old.room - n;
          cuts = drop 1 self.old.cuts;
          calls = with_success self.old.calls;
        }) }
        ensures refused { OnErr result (self.new ≡
            record self.old { calls = with_fault self.old.calls }) }
    {
        if self.room == 0 || self.calls.is_next_to_fail() {
            self.calls.count_fault();
            return Err(Failed);
        }
        self.calls.count_success();
        let count = self.cuts.next(self.room).min(bytes.len());
        self.written.extend_from_slice(&bytes[..count]).unwrap();
        self.room -= count;
        Ok(count)
    }
}
