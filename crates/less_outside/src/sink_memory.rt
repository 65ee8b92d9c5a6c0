// A sink in memory, with room for so many bytes, that fails at the calls of a list.
ghost use Rattle.std.specs.Prelude.{◌≡◌, Some, IsErr, IsTrue, OnOk, OnErr, IfOk, is_err};
ghost use Rattle.std.specs.Io.KnownBytes.{Appends};
ghost use Rattle.less_terms.specs.Causes.{HasCause};
ghost use Rattle.less_outside.specs.Sink.{AppendsFront};
ghost use Rattle.less_outside.specs.SinkMem.{SinkState, new_sink, refuses, after_write};

use crate::{OutsideFault, Sink};
use std::alloc::{AllocError, Global};
use std::marker::Model;

/// Contracts see it as its bytes, its room, the calls that fail, and its counts of calls and faults.
#[derive(Debug, Drop)]
pub struct SinkMem {
    bytes: Vec<u8>,
    room: usize,
    failing: Vec<u64>,
    calls: u64,
    faults: u64,
}

impl Model for SinkMem {
    ghost use Rattle.std.specs.Prelude.{◌≡◌, ◌≤◌, vec_len};
    ghost use Rattle.std.specs.Vec.{vec_capacity};
    ghost use Rattle.less_outside.specs.SinkMem.{SinkState};

    ghost Value = { SinkState };

    ghost view = { λ s. record { taken = s.bytes.items; room = s.room; failing = s.failing.items; calls = s.calls; faults = s.faults } };

    ghost invariant = { λ s. (vec_len s.bytes ≤ s.room) × (s.room ≤ vec_capacity s.bytes) };
}

impl SinkMem {
    /// A sink that takes `room` bytes over all its writes, and fails at the calls that `failing` lists, counted from 0.
    pub fn new(alloc: Global, room: usize, failing: Vec<u64>) -> Result<Self, AllocError>
        ensures { IfOk result (λ sink. sink ≡ new_sink room failing.items) }
    {
        Ok(SinkMem {
            bytes: Vec::with_capacity(alloc, room)?,
            room,
            failing,
            calls: 0,
            faults: 0,
        })
    }

    /// The bytes that were taken so far.
    pub fn written(&self) -> &[u8]
        ensures { result.now ≡ self.now.taken }
    {
        &self.bytes
    }
}

impl Sink for SinkMem {
    ghost told = { λ s. Some s.taken };

    ghost count = { λ s. s.faults };

    /// A write that fails takes nothing.
    fn write(&mut self, bytes: &[u8]) -> Result<(), OutsideFault>
        ensures refused { is_err result ≡ refuses self.old bytes.now }
        ensures after { self.new ≡ after_write self.old bytes.now }
        ensures cause { HasCause self.old.faults self.new.faults result }
    {
        let fails = self.failing.contains(&self.calls)
            || bytes.len() > self.room - self.bytes.len();
        self.calls = self.calls.saturating_add(1);
        if fails || self.bytes.extend_from_slice(bytes).is_err() {
            self.faults = self.faults.saturating_add(1);
            return Err(OutsideFault::Failed);
        }
        Ok(())
    }

    fn faults(&self) -> u64 {
        self.faults
    }
}
