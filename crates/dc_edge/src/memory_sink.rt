//! A sink in memory.

ghost use Rattle.std.specs.Prelude.{◌≡◌, ◌+◌, ◌≤◌, [], ◌++◌, length, is_ok, IfOk, vec_len, vec_capacity};
ghost use Rattle.dc_edge.specs.SinkBook.{sink_state, put_of};
ghost use Rattle.dc_edge.specs.Sink.{Puts};

use crate::fault::Failed;
use crate::sink::Sink;
use dc_field::NoMemory;
use std::alloc::Global;
use std::marker::Model;

/// A sink that keeps the bytes that it is given, up to a room, and that fails at chosen calls.
/// Calls on pieces that are not empty are numbered from 0; the number stays at 2^32 - 1 once there.
#[derive(Drop)]
pub struct MemorySink {
    held: Vec<u8>,
    room: usize,
    failing: Vec<u32>,
    call: u32,
    fault_count: u64,
}

impl Model for MemorySink {
    ghost use Rattle.std.specs.Prelude.{◌≡◌, ◌≤◌, vec_len, vec_capacity};
    ghost use Rattle.dc_edge.specs.SinkBook.{SinkBook};

    ghost Value = { SinkBook };

    ghost view = { λ s. record { written = s.held.items; room = s.room; fails = s.failing.items; calls = s.call; faults = s.fault_count } };

    ghost invariant = { λ s. (vec_len s.held ≤ s.room) × (vec_capacity s.held ≡ s.room) };
}

impl MemorySink {
    /// An empty sink with room for `room` bytes. Its calls whose numbers are in `fails` fail.
    pub fn new(alloc: Global, room: u32, fails: &[u32]) -> Result<MemorySink, NoMemory>
        ensures { IfOk result (λ s. s ≡ record { written = []; room = room; fails = fails.now; calls = 0; faults = 0 }) }
    {
        let room = room as usize;
        let held = Vec::with_capacity(alloc, room)?;
        let failing = Vec::from_slice(alloc, fails)?;
        Ok(MemorySink {
            held,
            room,
            failing,
            call: 0,
            fault_count: 0,
        })
    }

    /// All bytes that were put so far.
    pub fn bytes(&self) -> &[u8]
        ensures { result.now ≡ self.now.written }
    {
        self.held.as_slice()
    }
}

impl Sink for MemorySink {
    ghost state = { sink_state };

    /// Takes no memory: the room that `new` took is all that the sink ever has.
    fn put(&mut self, bytes: &[u8]) -> Result<(), Failed>
        ensures exact { (self.new, is_ok result) ≡ put_of self.old bytes.now }
        ensures puts { Puts bytes.now (sink_state self.old) (sink_state self.new) result }
    {
        if bytes.is_empty() {
            return Ok(());
        }
        let taken = if self.failing.contains(&self.call) {
            0
        } else {
            bytes.len().min(self.room - self.held.len())
        };
        append(&mut self.held, &bytes[..taken]);
        self.call = self.call.saturating_add(1);
        if taken == bytes.len() {
            return Ok(());
        }
        self.fault_count = self.fault_count.saturating_add(1);
        Err(Failed)
    }
}

/// Appends within the room that was taken.
pub(crate) fn append(held: &mut Vec<u8>, bytes: &[u8])
    requires { vec_len held.old + length bytes.now ≤ vec_capacity held.old }
    ensures items { held.new.items ≡ held.old.items ++ bytes.now }
    ensures len { vec_len held.new ≡ vec_len held.old + length bytes.now }
    ensures capacity { vec_capacity held.new ≡ vec_capacity held.old }
{
    for byte in bytes {
        held.push_reserved(*byte);
    }
}
