//! A hub that runs its session over a wire in memory.

ghost use Rattle.std.specs.Prelude.{◌≡◌, ◌≤◌, [], IfOk, OnOk};
ghost use Rattle.dc_superpose.specs.HubCore.{StandsFor};
ghost use Rattle.dc_live.specs.Seats.{AreNew, AreGreeted};

use dc_edge::{MemoryWire, Wire};
use dc_live::{LiveFault, Seats, greet, hub_session};
use dc_superpose::HubCore;
use std::alloc::Global;
use std::test::*;

/// A hub of so many stations and words, over a wire that is ready in this order.
#[derive(Clone, Copy)]
pub(crate) struct Hub {
    pub(crate) stations: u16,
    pub(crate) words: u16,
    pub(crate) order: &'static [u32],
}

/// Accepts so many peers.
fn accept_all(alloc: Global, wire: &mut MemoryWire, count: u16) -> Result<(), Fail>
    ensures { OnOk result (count ≤ wire.new.peers) }
{
    for peer in 0..count {
        if wire.accept(alloc)? != u32::from(peer) {
            return Err("another peer".into());
        }
    }
    Ok(())
}

/// A wire that has met a peer for each station, which give these bytes. The first calls were used for that.
pub(crate) fn met_all(
    alloc: Global,
    hub: &Hub,
    peers: &[&[u8]],
    step: u32,
    fails: &[u32],
) -> Result<MemoryWire, Fail>
    requires { 1 ≤ step }
    ensures { IfOk result (λ wire. hub.now.stations ≤ wire.peers) }
{
    let mut wire = MemoryWire::new(alloc, 4096, step, hub.order, fails)?;
    for bytes in peers {
        wire.feed_peer(alloc, bytes)?;
    }
    accept_all(alloc, &mut wire, hub.stations)?;
    Ok(wire)
}

/// A core that no word has reached.
pub(crate) fn core_of(alloc: Global, hub: &Hub) -> Result<HubCore, Fail>
    ensures { IfOk result (λ core. StandsFor core hub.now.stations hub.now.words []) }
{
    if hub.stations < 1 || 256 < hub.stations || hub.words < 1 || 4096 < hub.words {
        return Err("no session".into());
    }
    Ok(
        HubCore::start(alloc, hub.stations, hub.words)
            .ok()
            .ok_or("out of memory")?,
    )
}

/// Seats that are all free.
fn seats_of(alloc: Global, hub: &Hub) -> Result<Seats, Fail>
    ensures free { IfOk result (λ s. s ≡ record { stations = hub.now.stations; words = hub.now.words; told = []; seats = [] }) }
    ensures new { IfOk result AreNew }
{
    if hub.stations < 1 || 256 < hub.stations || hub.words < 1 || 4096 < hub.words {
        return Err("no session".into());
    }
    Ok(
        Seats::start(alloc, hub.stations, hub.words)
            .ok()
            .ok_or("out of memory")?,
    )
}

/// Greets a peer for each station.
fn greet_all(wire: &mut MemoryWire, seats: &mut Seats, count: u16) -> Result<(), LiveFault>
    requires count { count ≡ seats.old.stations }
    requires none { seats.old.told ≡ [] }
    requires new { AreNew seats.old }
    requires peers { count ≤ wire.old.peers }
    ensures greeted { OnOk result (AreGreeted seats.new) }
    ensures stations { seats.new.stations ≡ seats.old.stations }
    ensures words { seats.new.words ≡ seats.old.words }
    ensures peers { wire.new.peers ≡ wire.old.peers }
{
    for peer in 0..count {
        greet(wire, u32::from(peer), seats)?;
    }
    Ok(())
}

/// Greets all peers and runs the session.
fn run(
    wire: &mut MemoryWire,
    seats: &mut Seats,
    core: &mut HubCore,
    count: u16,
) -> Result<(), LiveFault>
    requires count { count ≡ seats.old.stations }
    requires none { seats.old.told ≡ [] }
    requires new { AreNew seats.old }
    requires peers { count ≤ wire.old.peers }
    requires core { StandsFor core.old seats.old.stations seats.old.words [] }
    ensures { wire.new.peers ≡ wire.old.peers }
{
    greet_all(wire, seats, count)?;
    hub_session(wire, seats, core)
}

/// How the session of a hub ends.
pub(crate) fn play(
    alloc: Global,
    wire: &mut MemoryWire,
    hub: &Hub,
    core: &mut HubCore,
) -> Result<Result<(), LiveFault>, Fail>
    requires peers { hub.now.stations ≤ wire.old.peers }
    requires core { StandsFor core.old hub.now.stations hub.now.words [] }
    ensures { wire.new.peers ≡ wire.old.peers }
{
    let mut seats = seats_of(alloc, hub)?;
    Ok(run(wire, &mut seats, core, hub.stations))
}
