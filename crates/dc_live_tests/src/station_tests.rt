//! Sessions of a station.

ghost use Rattle.std.specs.Prelude.{◌≤◌};

use crate::frames::{all, front, hello, send, text};
use crate::stations::{Plan, met, play};
use dc_frame::{FrameFault, FrameKind};
use dc_live::{LiveFault, PeerFault};
use std::alloc::Global;
use std::process::Abort;
use std::test::*;

/// Station 0 of 2, in a session of 2 words, with nothing to send.
const QUIET: Plan = Plan {
    station: 0,
    stations: 2,
    words: 2,
    stream: "",
};

/// The bytes that the quiet station sends: its hello, and zero words for the first so many rounds.
fn quiet_words(alloc: Global, rounds: u16) -> Result<Vec<u8>, Fail> {
    let mut bytes = text(alloc, &[hello(0, 2, 2)])?;
    for round in 0..rounds {
        bytes.extend_from_slice(&text(alloc, &[send(round, 0, 0)?])?)?;
    }
    Ok(bytes)
}

/// Asserts how the session of the quiet station ends, and what it has sent by then.
fn ends_by<R: AllocGlobal + Abort>(
    rt: &R,
    step: u32,
    bytes: &[u8],
    due: Result<(), LiveFault>,
    rounds: u16,
) -> Result<(), Fail>
    requires { 1 ≤ step }
{
    let mut wire = met(rt.alloc(), bytes, step, &[])?;
    assert_eq!(rt; play(rt.alloc(), &mut wire, &QUIET)?, due);
    let sent = quiet_words(rt.alloc(), rounds)?;
    assert_eq!(rt; wire.sent_to(0), sent.as_slice());
    Ok(())
}

/// The same, whether the bytes come one by one or a frame at once.
fn ends<R: AllocGlobal + Abort>(
    rt: &R,
    bytes: &[u8],
    due: Result<(), LiveFault>,
    rounds: u16,
) -> Result<(), Fail> {
    ends_by(rt, 1, bytes, due, rounds)?;
    ends_by(rt, 69, bytes, due, rounds)
}

/// The fault of the only peer.
fn peer(fault: PeerFault) -> Result<(), LiveFault> {
    Err(LiveFault::Peer { peer: 0, fault })
}

/// The two sums of the quiet session.
fn sums(alloc: Global) -> Result<Vec<u8>, Fail> {
    text(alloc, &[all(0, 0, 0)?, all(1, 0, 0)?])
}

#[test]
fn a_whole_session(rt: HostRuntime) -> Result<(), Fail> {
    let bytes = sums(rt.alloc())?;
    ends(&rt, &bytes, Ok(()), 2)
}

#[test]
fn a_hub_that_ends_too_early(rt: HostRuntime) -> Result<(), Fail> {
    let bytes = sums(rt.alloc())?;
    ends(&rt, front(&bytes, 79), peer(PeerFault::Ended { at: 79 }), 2)?;
    ends(&rt, b"", peer(PeerFault::Ended { at: 0 }), 1)
}

#[test]
fn a_hub_that_gives_other_frames(rt: HostRuntime) -> Result<(), Fail> {
    let greets = text(rt.alloc(), &[hello(0, 2, 2)])?;
    ends(&rt, &greets, peer(PeerFault::Unexpected { tag: 1 }), 1)?;
    let sends = text(rt.alloc(), &[all(0, 0, 0)?, send(1, 0, 0)?])?;
    ends(&rt, &sends, peer(PeerFault::Unexpected { tag: 2 }), 2)
}

#[test]
fn a_hub_that_gives_another_round(rt: HostRuntime) -> Result<(), Fail> {
    let ahead = text(rt.alloc(), &[all(1, 0, 0)?])?;
    ends(&rt, &ahead, peer(PeerFault::Round { told: 1, now: 0 }), 1)?;
    let again = text(rt.alloc(), &[all(0, 0, 0)?, all(0, 0, 0)?])?;
    ends(&rt, &again, peer(PeerFault::Round { told: 0, now: 1 }), 2)
}

#[test]
fn a_hub_that_gives_no_frame(rt: HostRuntime) -> Result<(), Fail> {
    let sum = text(rt.alloc(), &[all(0, 0, 0)?])?;
    let fault = FrameFault {
        at: 69,
        kind: FrameKind::Tag { seen: 9 },
    };
    let mut bytes = sum;
    bytes.extend_from_slice(&[9, 0, 66])?;
    ends(&rt, &bytes, peer(PeerFault::Frame { fault }), 2)
}

/// How the quiet session ends over a wire whose call `k` fails; what was sent is asserted to be a front of all.
fn failing<R: AllocGlobal + Abort>(
    rt: &R,
    bytes: &[u8],
    step: u32,
    k: u32,
) -> Result<Result<(), LiveFault>, Fail>
    requires { 1 ≤ step }
{
    let mut wire = met(rt.alloc(), bytes, step, &[k])?;
    let answer = play(rt.alloc(), &mut wire, &QUIET)?;
    let sent = quiet_words(rt.alloc(), 2)?;
    assert!(rt; sent.starts_with(wire.sent_to(0)), "call {k}");
    Ok(answer)
}

/// Asserts that each failing call ends the session as a fault of the wire, until no call has that number.
fn fails_in_turn<R: AllocGlobal + Abort>(rt: &R, step: u32) -> Result<(), Fail>
    requires { 1 ≤ step }
{
    let bytes = sums(rt.alloc())?;
    for k in 1..200 {
        let answer = failing(rt, front(&bytes, 79), step, k)?;
        if answer != Err(LiveFault::Wire) {
            assert_eq!(rt; answer, peer(PeerFault::Ended { at: 79 }));
            assert!(rt; 4 < k);
            return Ok(());
        }
    }
    Err("each call fails".into())
}

#[test]
fn a_wire_that_fails(rt: HostRuntime) -> Result<(), Fail> {
    fails_in_turn(&rt, 1)?;
    fails_in_turn(&rt, 69)
}
