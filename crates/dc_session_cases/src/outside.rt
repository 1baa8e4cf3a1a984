//! The outside of a session: its wire with the peers that were fed, and its files.

ghost use Rattle.std.specs.Prelude.{◌≡◌, IfSome};

use crate::fields::{bytes_of, numbers_of, push_bytes};
use dc_edge::MemoryWire;
use std::alloc::Global;

/// The fields of a wire: how many bytes one receive gives, the order in which peers are ready, the calls that fail, the room of a peer.
#[derive(Clone, Copy)]
pub struct Limits<'a> {
    pub step: &'a str,
    pub order: &'a str,
    pub fails: &'a str,
    pub room: &'a str,
}

/// A wire whose peers give the bytes of these fields, and which has met none yet.
pub fn wire_of(alloc: Global, limits: Limits<'_>, peers: &[&str]) -> Option<MemoryWire>
    ensures { IfSome result (λ wire. wire.peers ≡ 0) }
{
    let mut wire = empty_wire(alloc, limits)?;
    for peer in peers {
        let bytes = bytes_of(alloc, peer)?;
        wire.feed_peer(alloc, bytes.as_slice()).ok()?;
    }
    Some(wire)
}

/// A wire without peers.
fn empty_wire(alloc: Global, limits: Limits<'_>) -> Option<MemoryWire>
    ensures { IfSome result (λ wire. wire.peers ≡ 0) }
{
    let step = limits.step.parse::<u32>().ok()?;
    let room = limits.room.parse::<u32>().ok()?;
    let order = numbers_of(alloc, limits.order)?;
    let fails = numbers_of(alloc, limits.fails)?;
    if step == 0 {
        return None;
    }
    MemoryWire::new(alloc, room, step, order.as_slice(), fails.as_slice()).ok()
}

/// Appends a field for each of this many peers: the bytes that it was sent.
///
/// No contract of a session says that the peers that were fed are still there. So one more is fed for each that is asked: then the
/// number of the one that is asked is below the number of all.
pub fn push_sent(
    alloc: Global,
    answer: &mut String,
    wire: &mut MemoryWire,
    peers: u32,
) -> Option<()> {
    for peer in 0..peers {
        wire.feed_peer(alloc, b"").ok()?;
        push_bytes(alloc, answer, wire.sent_to(peer))?;
    }
    Some(())
}
