//! A peer of a wire in memory.

ghost use Rattle.std.specs.Prelude.{◌≡◌, ◌+◌, ◌-◌, ◌^◌, [], min, length, nat_le, IfOk, vec_len, vec_capacity};
ghost use Rattle.dc_edge.specs.WireBook.{taken_from, given_by, filled, with_sent};

use crate::memory_sink::append;
use dc_field::NoMemory;
use std::alloc::Global;
use std::marker::Model;

/// The bytes that a peer gives, of which some were taken, and those that it was sent, up to a room.
#[derive(Drop)]
pub(crate) struct FedPeer {
    bytes: Vec<u8>,
    taken: usize,
    sent: Vec<u8>,
    room: usize,
}

impl Model for FedPeer {
    ghost use Rattle.std.specs.Prelude.{◌≡◌, ◌≤◌, drop, vec_len, vec_capacity};
    ghost use Rattle.dc_edge.specs.WireBook.{PeerBook};

    ghost Value = { PeerBook };

    ghost view = { λ p. record { left = drop p.taken p.bytes.items; sent = p.sent.items; room = p.room } };

    ghost invariant = { λ p. (p.taken ≤ vec_len p.bytes) × (vec_len p.sent ≤ p.room) × (vec_capacity p.sent ≡ p.room) };
}

impl FedPeer {
    /// A peer that gives these bytes and takes at most `room` bytes.
    pub(crate) fn new(alloc: Global, bytes: &[u8], room: usize) -> Result<FedPeer, NoMemory>
        ensures { IfOk result (λ p. p ≡ record { left = bytes.now; sent = []; room = room }) }
    {
        let bytes = Vec::from_slice(alloc, bytes)?;
        let sent = Vec::with_capacity(alloc, room)?;
        Ok(FedPeer {
            bytes,
            taken: 0,
            sent,
            room,
        })
    }

    /// Puts the next bytes, at most `step` of them, at the front of the buffer, and answers how many.
    pub(crate) fn give(&mut self, buf: &mut [u8], step: usize) -> usize
        ensures count { result ≡ given_by self.old step buf.old }
        ensures bytes { buf.new ≡ filled self.old result buf.old }
        ensures after { self.new ≡ taken_from self.old result }
    {
        let left = &self.bytes[self.taken..];
        let count = left.len().min(buf.len()).min(step);
        buf[..count].copy_from_slice(&left[..count]);
        self.taken += count;
        count
    }

    /// Takes as many of the bytes as there is room for, and answers whether these were all.
    pub(crate) fn take(&mut self, bytes: &[u8]) -> bool
        ensures answer { result ≡ nat_le (length self.old.sent + length bytes.now) self.old.room }
        ensures after { self.new ≡ with_sent self.old bytes.now }
    {
        let fitting = bytes.len().min(self.room - self.sent.len());
        append(&mut self.sent, &bytes[..fitting]);
        fitting == bytes.len()
    }

    /// All bytes that the peer was sent so far.
    pub(crate) fn sent(&self) -> &[u8]
        ensures { result.now ≡ self.now.sent }
    {
        self.sent.as_slice()
    }
}
