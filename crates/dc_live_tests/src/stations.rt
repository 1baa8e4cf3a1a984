//! A station that plays its session over a wire in memory.

ghost use Rattle.std.specs.Prelude.{◌≡◌, ◌<◌, ◌≤◌, IfOk};
ghost use Rattle.dc_conv.specs.Mask.{session_words};

use dc_conv::Mask;
use dc_edge::{MemoryWire, Wire};
use dc_frame::Frame;
use dc_keys::{KeyFile, Pairs, SummedPads};
use dc_live::{LiveFault, station_session};
use dc_station::Station;
use dc_stream::read_stream;
use std::alloc::Global;
use std::test::*;

/// A station of so many, in a session of so many words, with this stream file. All pads are 0.
#[derive(Clone, Copy)]
pub(crate) struct Plan {
    pub(crate) station: u16,
    pub(crate) stations: u16,
    pub(crate) words: u16,
    pub(crate) stream: &'static str,
}

/// A wire that has met one peer, which gives these bytes. Call 0 was used for that.
pub(crate) fn met(alloc: Global, bytes: &[u8], step: u32, fails: &[u32]) -> Result<MemoryWire, Fail>
    requires { 1 ≤ step }
    ensures { IfOk result (λ wire. 0 < wire.peers) }
{
    let mut wire = MemoryWire::new(alloc, 4096, step, &[], fails)?;
    wire.feed_peer(alloc, bytes)?;
    wire.dial(alloc, "there")?;
    Ok(wire)
}

/// A station at its start.
fn station(alloc: Global, plan: &Plan) -> Result<Station, Fail>
    ensures some { IfOk result (λ station. 1 ≤ station.total) }
    ensures none { IfOk result (λ station. station.taken ≡ 0) }
    ensures all { IfOk result (λ station. station.total ≡ plan.now.words) }
{
    if plan.words < 1 || 4096 < plan.words {
        return Err("not 1 to 4096 words".into());
    }
    let stream = read_stream(alloc, plan.stream.as_bytes())
        .ok()
        .ok_or("not a stream")?;
    Ok(
        Station::start(alloc, stream, plan.words)
            .ok()
            .ok_or("out of memory")?,
    )
}

/// The mask of a station whose pads are all 0, at its start.
fn mask(alloc: Global, plan: &Plan) -> Result<Mask, Fail>
    ensures none { IfOk result (λ mask. mask.taken ≡ 0) }
    ensures all { IfOk result (λ mask. session_words mask ≡ plan.now.words) }
{
    let pairs = Pairs::from_vec(Vec::new(alloc));
    let file = KeyFile::new(plan.stations, plan.words, pairs).ok_or("it is a key file")?;
    let pads = SummedPads::of(alloc, &file, plan.station)
        .ok()
        .ok_or("out of memory")?;
    let mask = Mask::start(alloc, pads).ok().ok_or("out of memory")?;
    if mask.second.as_slice().len() / 16 != usize::from(plan.words) {
        return Err("pads for other words".into());
    }
    Ok(mask)
}

/// How the session of a station ends.
pub(crate) fn play(
    alloc: Global,
    wire: &mut MemoryWire,
    plan: &Plan,
) -> Result<Result<(), LiveFault>, Fail>
    requires { 0 < wire.old.peers }
    ensures { wire.new.peers ≡ wire.old.peers }
{
    let mut station = station(alloc, plan)?;
    let mut mask = mask(alloc, plan)?;
    let hello = Frame::Hello {
        station: plan.station,
        stations: plan.stations,
        words: plan.words,
    };
    Ok(station_session(wire, 0, &hello, &mut station, &mut mask))
}
