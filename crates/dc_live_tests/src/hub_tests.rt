//! Sessions of a hub.

ghost use Rattle.std.specs.Prelude.{◌≤◌};

use crate::frames::{all, front, greeted, hello, send, text};
use crate::hubs::{Hub, core_of, met_all, play};
use dc_frame::{FrameFault, FrameKind};
use dc_live::{LiveFault, PeerFault};
use std::process::Abort;
use std::test::*;

/// A hub of one station and one word.
const ONE: Hub = Hub {
    stations: 1,
    words: 1,
    order: &[],
};

/// A hub of two stations and one word.
const TWO: Hub = Hub {
    stations: 2,
    words: 1,
    order: &[],
};

/// Asserts how a session ends, and what each peer was sent by then.
fn ends_by<R: AllocGlobal + Abort>(
    rt: &R,
    hub: &Hub,
    step: u32,
    peers: &[&[u8]],
    due: Result<(), LiveFault>,
    sent: &[u8],
) -> Result<(), Fail>
    requires { 1 ≤ step }
{
    let mut wire = met_all(rt.alloc(), hub, peers, step, &[])?;
    let mut core = core_of(rt.alloc(), hub)?;
    assert_eq!(rt; play(rt.alloc(), &mut wire, hub, &mut core)?, due);
    for peer in 0..u32::from(hub.stations) {
        assert_eq!(rt; wire.sent_to(peer), sent);
    }
    Ok(())
}

/// The same, whether the bytes come one by one or a frame at once.
fn ends<R: AllocGlobal + Abort>(
    rt: &R,
    hub: &Hub,
    peers: &[&[u8]],
    due: Result<(), LiveFault>,
    sent: &[u8],
) -> Result<(), Fail> {
    ends_by(rt, hub, 1, peers, due, sent)?;
    ends_by(rt, hub, 69, peers, due, sent)
}

/// Asserts the fault of the only station, which gives these bytes, and that it was sent nothing.
fn refuses<R: AllocGlobal + Abort>(rt: &R, bytes: &[u8], fault: PeerFault) -> Result<(), Fail> {
    ends(
        rt,
        &ONE,
        &[bytes],
        Err(LiveFault::Peer { peer: 0, fault }),
        b"",
    )
}

#[test]
fn another_first_frame(rt: HostRuntime) -> Result<(), Fail> {
    let sends = text(rt.alloc(), &[send(0, 0, 0)?])?;
    refuses(&rt, &sends, PeerFault::Unexpected { tag: 2 })?;
    let sums = text(rt.alloc(), &[all(0, 0, 0)?])?;
    refuses(&rt, &sums, PeerFault::Unexpected { tag: 3 })
}

#[test]
fn a_hello_of_no_station(rt: HostRuntime) -> Result<(), Fail> {
    let bytes = text(rt.alloc(), &[hello(1, 1, 1)])?;
    let fault = PeerFault::Hello {
        station: 1,
        stations: 1,
        words: 1,
    };
    refuses(&rt, &bytes, fault)
}

#[test]
fn a_hello_of_a_taken_station(rt: HostRuntime) -> Result<(), Fail> {
    let bytes = text(rt.alloc(), &[hello(0, 2, 1)])?;
    let fault = PeerFault::Hello {
        station: 0,
        stations: 2,
        words: 1,
    };
    let due = Err(LiveFault::Peer { peer: 1, fault });
    ends(&rt, &TWO, &[&bytes, &bytes], due, b"")
}

#[test]
fn a_word_of_a_later_round(rt: HostRuntime) -> Result<(), Fail> {
    let bytes = text(rt.alloc(), &[hello(0, 1, 1), send(1, 0, 0)?])?;
    refuses(&rt, &bytes, PeerFault::Round { told: 1, now: 0 })
}

/// Asserts the fault of bytes that are no frame, behind a hello.
fn is_no_frame<R: AllocGlobal + Abort>(
    rt: &R,
    bytes: &[u8],
    at: u64,
    kind: FrameKind,
) -> Result<(), Fail> {
    let fault = FrameFault { at, kind };
    let given = greeted(rt.alloc(), &hello(0, 1, 1), bytes)?;
    refuses(rt, &given, PeerFault::Frame { fault })
}

#[test]
fn bytes_that_are_no_frame(rt: HostRuntime) -> Result<(), Fail> {
    is_no_frame(&rt, &[9, 0, 66], 9, FrameKind::Tag { seen: 9 })?;
    is_no_frame(&rt, &[2, 0, 65], 10, FrameKind::Length { seen: 65 })?;
    let mut word = [0; 69];
    word[0] = 2;
    word[2] = 66;
    word[6] = 1;
    word[8] = 1;
    is_no_frame(&rt, &word, 14, FrameKind::Symbol { seen: 65537 })
}

#[test]
fn a_peer_that_ends_too_early(rt: HostRuntime) -> Result<(), Fail> {
    let bytes = text(rt.alloc(), &[hello(0, 1, 1), send(0, 1, 2)?])?;
    refuses(&rt, front(&bytes, 9), PeerFault::Ended { at: 9 })?;
    refuses(&rt, front(&bytes, 77), PeerFault::Ended { at: 77 })?;
    refuses(&rt, b"", PeerFault::Ended { at: 0 })
}

/// The fault of a peer that gives a word of another round.
fn other_round(peer: u32, told: u16, now: u16) -> Result<(), LiveFault> {
    let fault = PeerFault::Round { told, now };
    Err(LiveFault::Peer { peer, fault })
}

/// A hub of two stations and two words that begins with peer 0.
const FIRST: Hub = Hub {
    stations: 2,
    words: 2,
    order: &[0, 0, 0, 0, 0],
};

#[test]
fn a_second_word_of_a_round(rt: HostRuntime) -> Result<(), Fail> {
    let alloc = rt.alloc();
    let one = text(alloc, &[hello(0, 2, 2), send(0, 1, 2)?, send(0, 9, 9)?])?;
    let other = text(alloc, &[hello(1, 2, 2), send(0, 3, 4)?])?;
    let sum = text(alloc, &[all(0, 4, 6)?])?;
    ends(&rt, &FIRST, &[&one, &other], other_round(0, 0, 1), &sum)
}

/// A hub of two stations and one word that is ready for peer 1.
const SECOND: Hub = Hub {
    stations: 2,
    words: 1,
    order: &[1, 1],
};

#[test]
fn the_peer_that_is_ready_is_taken(rt: HostRuntime) -> Result<(), Fail> {
    let one = text(rt.alloc(), &[hello(0, 2, 1), send(1, 0, 0)?])?;
    let other = text(rt.alloc(), &[hello(1, 2, 1), send(1, 0, 0)?])?;
    ends_by(&rt, &SECOND, 69, &[&one, &other], other_round(1, 1, 0), b"")?;
    ends(&rt, &TWO, &[&one, &other], other_round(0, 1, 0), b"")
}

/// Asserts that a session of two stations and two words is done in this order.
fn is_done<R: AllocGlobal + Abort>(rt: &R, order: &'static [u32]) -> Result<(), Fail> {
    let alloc = rt.alloc();
    let hub = Hub {
        stations: 2,
        words: 2,
        order,
    };
    let one = text(alloc, &[hello(1, 2, 2), send(0, 1, 2)?, send(1, 5, 0)?])?;
    let other = text(alloc, &[hello(0, 2, 2), send(0, 3, 4)?, send(1, 0, 7)?])?;
    let sums = text(alloc, &[all(0, 4, 6)?, all(1, 5, 7)?])?;
    ends(rt, &hub, &[&one, &other], Ok(()), &sums)
}

#[test]
fn orders_that_change_nothing(rt: HostRuntime) -> Result<(), Fail> {
    is_done(&rt, &[])?;
    is_done(&rt, &[1, 1, 1, 1, 1, 1])?;
    is_done(&rt, &[0, 0, 0, 0, 0, 0])?;
    is_done(&rt, &[1, 0, 1, 0, 1, 0, 1])?;
    is_done(&rt, &[7, 2, 0, 1])
}
