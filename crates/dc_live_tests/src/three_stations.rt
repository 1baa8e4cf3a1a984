//! A session of three stations with a hub, first each station by itself, then the hub with what they sent.

ghost use Rattle.std.specs.Prelude.{◌≤◌};

use crate::frames::{all, text};
use crate::hubs::{Hub, core_of, met_all, play};
use crate::stations::{Plan, met, play as play_station};
use std::alloc::Global;
use std::process::Abort;
use std::test::*;

/// The stream of the station that sends the value 1, and that of the two that send the value 3.
const ONE: &str = "short 000000000000000000000000000001\n";

const THREE: &str = "short 000000000000000000000000000003\n";

/// A hub of three stations and five words, ready for peers in some order.
const HUB: Hub = Hub {
    stations: 3,
    words: 5,
    order: &[2, 2, 1, 2, 0],
};

/// The five sums of the session: nobody reserves; three values; the value 1 alone; twice the value 3; nobody
/// reserves.
fn five_sums(alloc: Global) -> Result<Vec<u8>, Fail> {
    let sums = [
        all(0, 0, 0)?,
        all(1, 3, 7)?,
        all(2, 1, 1)?,
        all(3, 2, 6)?,
        all(4, 0, 0)?,
    ];
    text(alloc, &sums)
}

/// What a station with this stream sends over the five sums. All pads are 0.
fn said(alloc: Global, station: u16, stream: &'static str) -> Result<Vec<u8>, Fail> {
    let plan = Plan {
        station,
        stations: 3,
        words: 5,
        stream,
    };
    let sums = five_sums(alloc)?;
    let mut wire = met(alloc, &sums, 50, &[])?;
    if play_station(alloc, &mut wire, &plan)?.is_err() {
        return Err("the session of a station fails".into());
    }
    Ok(Vec::from_slice(alloc, wire.sent_to(0))?)
}

/// Asserts that a hub whose peers give these bytes sends the five sums to each.
fn sends_sums<R: AllocGlobal + Abort>(rt: &R, peers: &[&[u8]], step: u32) -> Result<(), Fail>
    requires { 1 ≤ step }
{
    let mut wire = met_all(rt.alloc(), &HUB, peers, step, &[])?;
    let mut core = core_of(rt.alloc(), &HUB)?;
    assert_eq!(rt; play(rt.alloc(), &mut wire, &HUB, &mut core)?, Ok(()));
    let sums = five_sums(rt.alloc())?;
    for peer in 0..u32::from(HUB.stations) {
        assert_eq!(rt; wire.sent_to(peer), sums.as_slice());
    }
    Ok(())
}

#[test]
fn three_stations_and_their_hub(rt: HostRuntime) -> Result<(), Fail> {
    let first = said(rt.alloc(), 0, ONE)?;
    let second = said(rt.alloc(), 1, THREE)?;
    let third = said(rt.alloc(), 2, THREE)?;
    sends_sums(&rt, &[&first, &second, &third], 1)?;
    sends_sums(&rt, &[&third, &first, &second], 69)
}
