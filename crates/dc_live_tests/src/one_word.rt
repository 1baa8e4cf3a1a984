//! The session of a hub with one station and one word.

ghost use Rattle.std.specs.Prelude.{◌≤◌};

use crate::frames::{all, hello, send, text, word};
use crate::hubs::{Hub, core_of, met_all, play};
use dc_live::LiveFault;
use dc_superpose::{HubCore, sums, transcript_bytes};
use std::alloc::Global;
use std::process::Abort;
use std::test::*;

/// A hub of one station and one word.
const ONE: Hub = Hub {
    stations: 1,
    words: 1,
    order: &[],
};

/// The bytes of the station: its hello and its word.
fn given(alloc: Global) -> Result<Vec<u8>, Fail> {
    text(alloc, &[hello(0, 1, 1), send(0, 1, 2)?])
}

/// The sum of the only round, which is all that the station is sent.
fn sum(alloc: Global) -> Result<Vec<u8>, Fail> {
    text(alloc, &[all(0, 1, 2)?])
}

/// Asserts that a core has the one word as its transcript and as its sum.
fn has_word<R: AllocGlobal + Abort>(rt: &R, core: HubCore) -> Result<(), Fail> {
    if !core.is_over() {
        return Err("a round is missing".into());
    }
    let session = core.finish();
    let due = word(1, 2)?;
    let sums = sums(rt.alloc(), &session).ok().ok_or("out of memory")?;
    let first = sums.as_slice().first().ok_or("no sum")?;
    assert_eq!(rt; *first.numbers(), *due.numbers());
    let file = transcript_bytes(rt.alloc(), &session)
        .ok()
        .ok_or("out of memory")?;
    assert_eq!(rt; file.as_slice().len(), 72);
    assert!(rt;
        file.as_slice()
            .starts_with(&[68, 67, 84, 49, 0, 1, 0, 1, 0, 0, 0, 1])
    );
    assert!(rt; file.as_slice().ends_with(&[0, 0, 0, 0, 0, 0, 0, 2]));
    Ok(())
}

/// Asserts that the session is done by a wire that gives at most so many bytes at once.
fn is_done<R: AllocGlobal + Abort>(rt: &R, step: u32) -> Result<(), Fail>
    requires { 1 ≤ step }
{
    let bytes = given(rt.alloc())?;
    let mut wire = met_all(rt.alloc(), &ONE, &[&bytes], step, &[])?;
    let mut core = core_of(rt.alloc(), &ONE)?;
    assert_eq!(rt; play(rt.alloc(), &mut wire, &ONE, &mut core)?, Ok(()));
    assert_eq!(rt; wire.sent_to(0), sum(rt.alloc())?.as_slice());
    has_word(rt, core)
}

#[test]
fn a_whole_session(rt: HostRuntime) -> Result<(), Fail> {
    is_done(&rt, 1)?;
    is_done(&rt, 69)
}

/// How the session ends over a wire whose call `k` fails; what was sent is asserted to be a front of all.
fn failing<R: AllocGlobal + Abort>(rt: &R, step: u32, k: u32) -> Result<Result<(), LiveFault>, Fail>
    requires { 1 ≤ step }
{
    let bytes = given(rt.alloc())?;
    let mut wire = met_all(rt.alloc(), &ONE, &[&bytes], step, &[k])?;
    let mut core = core_of(rt.alloc(), &ONE)?;
    let answer = play(rt.alloc(), &mut wire, &ONE, &mut core)?;
    assert!(rt; sum(rt.alloc())?.starts_with(wire.sent_to(0)), "call {k}");
    Ok(answer)
}

/// Asserts that each failing call ends the session as a fault of the wire, until no call has that number.
fn fails_in_turn<R: AllocGlobal + Abort>(rt: &R, step: u32) -> Result<(), Fail>
    requires { 1 ≤ step }
{
    for k in 1..200 {
        let answer = failing(rt, step, k)?;
        if answer != Err(LiveFault::Wire) {
            assert_eq!(rt; answer, Ok(()));
            assert!(rt; 4 < k);
            return Ok(());
        }
    }
    Err("each call fails".into())
}

#[test]
fn a_wire_that_fails(rt: HostRuntime) -> Result<(), Fail> {
    fails_in_turn(&rt, 1)?;
    fails_in_turn(&rt, 69)
}
