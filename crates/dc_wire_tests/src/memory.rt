//! A wire in memory.

ghost use Rattle.std.specs.Prelude.{◌≡◌, ◌≤◌, ◌<◌, length, IfOk};

use dc_edge::{Failed, LinkFault, MemoryWire, Wire};
use std::process::Abort;
use std::test::Fail;

/// A wire with two peers, which give `first peer` and `second`.
fn two_peers<R: AllocGlobal>(
    rt: &R,
    room: u32,
    step: u32,
    order: &[u32],
    fails: &[u32],
) -> Result<MemoryWire, Fail>
    requires { 1 ≤ step }
{
    let mut wire = MemoryWire::new(rt.alloc(), room, step, order, fails)?;
    wire.feed_peer(rt.alloc(), b"first peer")?;
    wire.feed_peer(rt.alloc(), b"second")?;
    Ok(wire)
}

/// The same, where both peers have come: call 0 dialled, call 1 accepted.
fn two_met<R: AllocGlobal>(
    rt: &R,
    room: u32,
    step: u32,
    order: &[u32],
    fails: &[u32],
) -> Result<MemoryWire, Fail>
    requires { 1 ≤ step }
    ensures { IfOk result (λ wire. 2 ≤ wire.peers) }
{
    let mut wire = two_peers(rt, room, step, order, fails)?;
    wire.dial(rt.alloc(), "there")?;
    wire.accept(rt.alloc())?;
    Ok(wire)
}

/// Asserts what a receive of at most `size` bytes gives.
fn gives<R: Abort>(
    rt: &R,
    wire: &mut MemoryWire,
    peer: u32,
    size: usize,
    answer: Result<&[u8], Failed>,
)
    requires peer { peer < wire.old.peers }
    requires size { 0 < size }
    requires fits { size ≤ 16 }
    ensures { wire.new.peers ≡ wire.old.peers }
{
    let mut buffer = [0; 16];
    let given = match wire.recv(peer, &mut buffer[..size]) {
        Ok(count) => Ok(&buffer[..count]),
        Err(fault) => Err(fault),
    };
    assert_eq!(rt; given, answer);
}

/// Asserts the answer of a send, and all that was sent to the peer by then.
fn takes<R: Abort>(
    rt: &R,
    wire: &mut MemoryWire,
    peer: u32,
    piece: &[u8],
    answer: Result<(), Failed>,
    sent: &[u8],
)
    requires peer { peer < wire.old.peers }
    requires fed { peer < length wire.old.fed }
    ensures peers { wire.new.peers ≡ wire.old.peers }
    ensures fed { length wire.new.fed ≡ length wire.old.fed }
{
    assert_eq!(rt; wire.send(peer, piece), answer);
    assert_eq!(rt; wire.sent_to(peer), sent);
}

#[test]
fn peers_come_in_order(rt: HostRuntime) -> Result<(), Fail> {
    let mut wire = two_peers(&rt, 0, 1, &[], &[])?;
    assert_eq!(rt; wire.listen(rt.alloc(), "here"), Ok(()));
    assert_eq!(rt; wire.dial(rt.alloc(), "there"), Ok(0));
    assert_eq!(rt; wire.accept(rt.alloc()), Ok(1));
    assert_eq!(rt; wire.accept(rt.alloc()), Err(LinkFault::Failed));
    assert_eq!(rt; wire.dial(rt.alloc(), "there"), Err(LinkFault::Failed));
    Ok(())
}

#[test]
fn connecting_fails_at_its_calls(rt: HostRuntime) -> Result<(), Fail> {
    let mut wire = two_peers(&rt, 0, 1, &[], &[0, 2, 3])?;
    assert_eq!(rt; wire.listen(rt.alloc(), "here"), Err(LinkFault::Failed));
    assert_eq!(rt; wire.dial(rt.alloc(), "there"), Ok(0));
    assert_eq!(rt; wire.dial(rt.alloc(), "there"), Err(LinkFault::Failed));
    assert_eq!(rt; wire.accept(rt.alloc()), Err(LinkFault::Failed));
    assert_eq!(rt; wire.accept(rt.alloc()), Ok(1));
    Ok(())
}

#[test]
fn a_peer_gives_its_bytes(rt: HostRuntime) -> Result<(), Fail> {
    let mut wire = two_met(&rt, 0, 4, &[], &[2, 4])?;
    gives(&rt, &mut wire, 0, 16, Err(Failed));
    gives(&rt, &mut wire, 0, 16, Ok(b"firs"));
    gives(&rt, &mut wire, 1, 2, Err(Failed));
    gives(&rt, &mut wire, 1, 2, Ok(b"se"));
    gives(&rt, &mut wire, 0, 16, Ok(b"t pe"));
    gives(&rt, &mut wire, 0, 16, Ok(b"er"));
    gives(&rt, &mut wire, 0, 16, Ok(b""));
    gives(&rt, &mut wire, 1, 16, Ok(b"cond"));
    gives(&rt, &mut wire, 1, 1, Ok(b""));
    Ok(())
}

#[test]
fn a_peer_takes_what_fits(rt: HostRuntime) -> Result<(), Fail> {
    let mut wire = two_met(&rt, 6, 1, &[], &[3])?;
    takes(&rt, &mut wire, 0, b"abc", Ok(()), b"abc");
    takes(&rt, &mut wire, 0, b"", Ok(()), b"abc");
    takes(&rt, &mut wire, 1, b"xy", Err(Failed), b"");
    takes(&rt, &mut wire, 1, b"xy", Ok(()), b"xy");
    takes(&rt, &mut wire, 0, b"defg", Err(Failed), b"abcdef");
    takes(&rt, &mut wire, 0, b"", Ok(()), b"abcdef");
    takes(&rt, &mut wire, 1, b"zzzz", Ok(()), b"xyzzzz");
    Ok(())
}

#[test]
fn ready_goes_through_its_order(rt: HostRuntime) -> Result<(), Fail> {
    let mut wire = two_met(&rt, 0, 1, &[1, 2, 0, 7], &[])?;
    assert_eq!(rt; wire.ready(0), 1);
    assert_eq!(rt; wire.ready(1), 1, "2 is no peer");
    assert_eq!(rt; wire.ready(1), 0);
    assert_eq!(rt; wire.ready(0), 0, "7 is no peer");
    assert_eq!(rt; wire.ready(1), 1, "the order is used up");
    Ok(())
}
