// A link in memory, which gives pieces of its input, has room for so many bytes, and fails at the calls of a list.
ghost use Rattle.std.specs.Prelude.{◌≡◌, ◌≤◌, Some, IfOk, length, is_err};
ghost use Rattle.less_terms.specs.Causes.{HasCause};
ghost use Rattle.less_outside.specs.Link.{EndsExactly};
ghost use Rattle.less_outside.specs.LinkMem.{LinkState, new_link, fails_reading, read_size, room_after, after_read, refuses, after_write};

use crate::{Link, OutsideFault};
use std::alloc::{AllocError, Global};
use std::marker::Model;

/// Contracts see it as what is left to read, what was written, its sizes, the calls that fail, and its counts.
#[derive(Debug, Drop)]
pub struct LinkMem {
    input: Vec<u8>,
    at: usize,
    sent: Vec<u8>,
    piece: usize,
    room: usize,
    failing: Vec<u64>,
    calls: u64,
    read_faults: u64,
    write_faults: u64,
}

impl Model for LinkMem {
    ghost use Rattle.std.specs.Prelude.{◌≡◌, ◌≤◌, vec_len, drop};
    ghost use Rattle.std.specs.Vec.{vec_capacity};
    ghost use Rattle.less_outside.specs.LinkMem.{LinkState};

    ghost Value = { LinkState };

    ghost view = { λ l. record { left = drop l.at l.input.items; sent = l.sent.items; piece = l.piece; room = l.room; failing = l.failing.items; calls = l.calls; read_faults = l.read_faults; write_faults = l.write_faults } };

    ghost invariant = { λ l. (l.at ≤ vec_len l.input) × (1 ≤ l.piece) × (vec_len l.sent ≤ l.room) × (l.room ≤ vec_capacity l.sent) };
}

impl LinkMem {
    /// A link with this input, of which each read gives at most `piece` bytes. It takes `room` bytes over all its writes,
    /// and fails at the calls that `failing` lists, counted from 0 over reads and writes.
    pub fn new(
        alloc: Global,
        input: Vec<u8>,
        piece: usize,
        room: usize,
        failing: Vec<u64>,
    ) -> Result<Self, AllocError>
        requires { 1 ≤ piece }
        ensures { IfOk result (λ link. link ≡ new_link input.items piece room failing.items) }
    {
        Ok(LinkMem {
            input,
            at: 0,
            sent: Vec::with_capacity(alloc, room)?,
            piece,
            room,
            failing,
            calls: 0,
            read_faults: 0,
            write_faults: 0,
        })
    }

    /// The bytes that were written so far.
    pub fn written(&self) -> &[u8]
        ensures { result.now ≡ self.now.sent }
    {
        &self.sent
    }

    /// The bytes that are left to read.
    pub fn rest(&self) -> &[u8]
        ensures { result.now ≡ self.now.left }
    {
        &self.input[self.at..]
    }
}

impl Link for LinkMem {
    ghost left = { λ l. Some l.left };

    ghost sent = { λ l. Some l.sent };

    ghost read_count = { λ l. l.read_faults };

    ghost write_count = { λ l. l.write_faults };

    fn read(&mut self, room: &mut [u8]) -> Result<usize, OutsideFault>
        ensures refused { is_err result ≡ fails_reading self.old }
        ensures size { IfOk result (λ count. count ≡ read_size self.old (length room.old)) }
        ensures room { room.new ≡ room_after self.old room.old }
        ensures after { self.new ≡ after_read self.old (length room.old) }
        ensures end { IfOk result (EndsExactly (Some self.old.left) (length room.old)) }
        ensures cause { HasCause self.old.read_faults self.new.read_faults result }
    {
        let fails = self.failing.contains(&self.calls);
        self.calls = self.calls.saturating_add(1);
        if fails {
            self.read_faults = self.read_faults.saturating_add(1);
            return Err(OutsideFault::Failed);
        }
        let left = &self.input[self.at..];
        let count = self.piece.min(room.len()).min(left.len());
        room[..count].copy_from_slice(&left[..count]);
        self.at += count;
        Ok(count)
    }

    /// A write that fails takes nothing.
    fn write(&mut self, bytes: &[u8]) -> Result<(), OutsideFault>
        ensures refused { is_err result ≡ refuses self.old bytes.now }
        ensures after { self.new ≡ after_write self.old bytes.now }
        ensures cause { HasCause self.old.write_faults self.new.write_faults result }
    {
        let fails = self.failing.contains(&self.calls) || bytes.len() > self.room - self.sent.len();
        self.calls = self.calls.saturating_add(1);
        if fails || self.sent.extend_from_slice(bytes).is_err() {
            self.write_faults = self.write_faults.saturating_add(1);
            return Err(OutsideFault::Failed);
        }
        Ok(())
    }

    fn read_faults(&self) -> u64 {
        self.read_faults
    }

    fn write_faults(&self) -> u64 {
        self.write_faults
    }
}
