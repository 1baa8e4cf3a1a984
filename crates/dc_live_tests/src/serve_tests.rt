//! Sessions that a hub serves, from listening to the last sum.

ghost use Rattle.std.specs.Prelude.{◌≡◌, ◌≤◌};

use crate::serving::{fault_in, hosted, transcript, two_sums, wire_to};
use crate::starved::StarvedWire;
use dc_edge::{MemoryWire, Wire};
use dc_field::{Refusal, word_text};
use dc_live::LiveFault;
use dc_superpose::{HubCore, sums, transcript_bytes};
use std::process::Abort;
use std::test::*;

/// Asserts that a core has the transcript of the session, and that its sums are printed so.
fn has_session<R: AllocGlobal + Abort>(rt: &R, core: HubCore) -> Result<(), Fail>
    requires { core.rounds ≤ core.round }
{
    let session = core.finish();
    let file = transcript_bytes(rt.alloc(), &session)
        .ok()
        .ok_or("out of memory")?;
    assert_eq!(rt; file.as_slice(), transcript(rt.alloc())?.as_slice());
    let sums = sums(rt.alloc(), &session).ok().ok_or("out of memory")?;
    let (first, second) = match sums.as_slice() {
        [first, second] => (word_text(first), word_text(second)),
        _ => return Err("not two sums".into()),
    };
    assert!(rt; first.starts_with(b"00003000000000000000"));
    assert!(rt; first.ends_with(b"0000000000000000000b"));
    assert!(rt; second.starts_with(b"00028000000000000000"));
    assert!(rt; second.ends_with(b"0000000000000000003d"));
    Ok(())
}

/// Asserts that the session ends well by a wire that gives at most so many bytes at once.
fn ends_well<R: AllocGlobal + Abort>(rt: &R, step: u32) -> Result<(), Fail>
    requires { 1 ≤ step }
{
    let mut wire = wire_to(rt.alloc(), step, &[])?;
    let core = hosted(rt.alloc(), &mut wire, "hub:7")
        .ok()
        .ok_or("a fault")?;
    let sums = two_sums(rt.alloc())?;
    for peer in 0..3 {
        assert_eq!(rt; wire.sent_to(peer), sums.as_slice());
    }
    has_session(rt, core)
}

#[test]
fn a_whole_session(rt: HostRuntime) -> Result<(), Fail> {
    ends_well(&rt, 1)?;
    ends_well(&rt, 69)
}

/// Asserts that the session ends with a fault of the wire at its call `k`, when so many peers had come.
fn fails_after<R: AllocGlobal + Abort>(rt: &R, k: u32, peers: u32) -> Result<(), Fail> {
    let mut wire = wire_to(rt.alloc(), 69, &[k])?;
    let answer = hosted(rt.alloc(), &mut wire, "hub:7");
    assert_eq!(rt; fault_in(answer), Some(LiveFault::Wire));
    assert_eq!(rt; wire.accept(rt.alloc())?, peers);
    Ok(())
}

/// The wire is asked to listen, then for each peer before the two receives of its hello.
#[test]
fn a_listen_and_an_accept_that_fail(rt: HostRuntime) -> Result<(), Fail> {
    fails_after(&rt, 0, 0)?;
    fails_after(&rt, 1, 0)?;
    fails_after(&rt, 2, 1)?;
    fails_after(&rt, 4, 1)?;
    fails_after(&rt, 7, 2)
}

#[test]
fn a_station_that_never_comes(rt: HostRuntime) -> Result<(), Fail> {
    let mut wire = MemoryWire::new(rt.alloc(), 138, 69, &[], &[])?;
    let answer = hosted(rt.alloc(), &mut wire, "hub:7");
    assert_eq!(rt; fault_in(answer), Some(LiveFault::Wire));
    Ok(())
}

/// Asserts that the session ends since memory runs out, whether in listening or where a peer is to come.
fn runs_out<R: AllocGlobal + Abort>(rt: &R, listens: bool) -> Result<(), Fail> {
    let mut wire = StarvedWire { peers: 0, listens };
    assert!(rt;
        matches!(
            hosted(rt.alloc(), &mut wire, "hub:7"),
            Err(Refusal::NoMemory)
        )
    );
    Ok(())
}

#[test]
fn memory_that_runs_out(rt: HostRuntime) -> Result<(), Fail> {
    runs_out(&rt, false)?;
    runs_out(&rt, true)
}
