//! An output in memory, some of whose puts fail.

ghost use Rattle.std.specs.Prelude.{◌≡◌, ◌↔◌, ◌<◌, ◌≤◌, false, true, length, take, IfOk, OnOk, OnErr, IsErr, vec_len, vec_capacity};

use crate::{Sink, WriteFault};
use rec_bits::NoMemory;
use std::alloc::Global;

/// An output in memory, which takes a few bytes a put, up to its room, and the numbers of the puts
/// that are to fail. It tells what it has taken.
#[derive(Drop)]
pub struct MemSink {
    bytes: Vec<u8>,
    step: usize,
    room: usize,
    fails: Vec<u64>,
    puts: u64,
    faults: u64,
    failed: bool,
    ghost within: { vec_len bytes ≤ room },
    ghost reserved: { room ≤ vec_capacity bytes },
    ghost steps: { 1 ≤ step },
}

impl MemSink {
    ghost use Rattle.rec_io.specs.Causes.{count_after};
    ghost use Rattle.rec_io.specs.MemSink.{bytes_of, IsFresh};

    /// An empty sink whose puts take at most `step` bytes each, which is at least 1, and at most
    /// `room` together, which are reserved. `fails` lists the numbers, from 1, of the puts that are
    /// to fail.
    ///
    /// # Errors
    ///
    /// `NoMemory` where the room can't be reserved.
    pub fn new(
        alloc: Global,
        step: usize,
        room: usize,
        fails: Vec<u64>,
    ) -> Result<MemSink, NoMemory>
        requires { 1 ≤ step }
        ensures { IfOk result (IsFresh step room fails.items) }
    {
        let bytes = Vec::with_capacity(alloc, room)?;
        Ok(MemSink {
            bytes,
            step,
            room,
            fails,
            puts: 0,
            faults: 0,
            failed: false,
        })
    }

    /// What the sink has taken so far.
    pub fn bytes(&self) -> &[u8]
        ensures { result.now ≡ bytes_of self.now }
    {
        &self.bytes
    }

    // The last put failed, which is counted.
    fn fault(&mut self) -> WriteFault
        ensures change { self.new ≡ record self.old { faults = count_after self.old.faults; failed = true } }
        ensures later { self.old.faults ≤ self.new.faults }
    {
        self.failed = true;
        self.faults = self.faults.saturating_add(1);
        WriteFault
    }
}

impl Sink for MemSink {
    ghost use Rattle.rec_io.specs.Causes.{HasCause, count_after};
    ghost use Rattle.rec_io.specs.MemSink.{sink_state, puts_of, step_of, room_of, fails_of, portion_of, IsPutDue};
    ghost use Rattle.rec_io.specs.Written.{Takes};

    ghost state = { sink_state };

    /// As [`Sink::put`]. A put of a piece that isn't empty fails exactly where its number is listed
    /// or no room is free. Every other put takes as much of the piece as the step and the free room
    /// allow. Takes no memory.
    fn put(&mut self, bytes: &[u8]) -> Result<usize, WriteFault>
        // As of every sink.
        ensures cause { HasCause (sink_state self.old).faults (sink_state self.new).faults result }
        ensures calm { OnOk result ((sink_state self.new).faults ≡ (sink_state self.old).faults) }
        ensures failed { OnErr result ((sink_state self.new).failed ≡ true) }
        ensures worked { OnOk result (0 < length bytes.now → (sink_state self.new).failed ≡ false) }
        ensures empty { length bytes.now ≡ 0 → result ≡ Ok 0 }
        ensures same { length bytes.now ≡ 0 → sink_state self.new ≡ sink_state self.old }
        ensures count { IfOk result (λ count. (count ≤ length bytes.now) × (0 < length bytes.now → 0 < count)) }
        ensures took { IfOk result (λ count.
            Takes (sink_state self.old).written (sink_state self.new).written (take count bytes.now)) }
        ensures nothing { OnErr result ((sink_state self.new).written ≡ (sink_state self.old).written) }

        // Of this one alone.
        ensures turn { puts_of self.new ≡ count_after (puts_of self.old) }
        ensures due { IsErr result ↔ IsPutDue self.old bytes.now }
        ensures portion { IfOk result (λ count. count ≡ portion_of self.old bytes.now) }
        ensures step { step_of self.new ≡ step_of self.old }
        ensures room { room_of self.new ≡ room_of self.old }
        ensures fails { fails_of self.new ≡ fails_of self.old }
    {
        self.puts = self.puts.saturating_add(1);
        if bytes.is_empty() {
            return Ok(0);
        }
        let free = self.room - self.bytes.len();
        if free == 0 {
            return Err(self.fault());
        }
        if self.fails.contains(&self.puts) {
            return Err(self.fault());
        }
        let count = bytes.len().min(self.step).min(free);
        self.failed = false;
        self.bytes.extend_from_slice(&bytes[..count]).unwrap();
        Ok(count)
    }
}
