//! A wire over the sockets of the system.

ghost use Rattle.std.specs.Prelude.{◌≡◌, ◌<◌, vec_len};

use dc_edge::{LinkFault, TcpWire, Wire};
use std::process;
use std::process::Abort;
use std::test::Fail;

/// Listens at a port that is free, since checks may run side by side. The answer is the address.
fn listen_somewhere(rt: HostRuntime, wire: &mut TcpWire<HostRuntime>) -> Result<String, Fail> {
    let first = 20000 + process::id(rt.process()) % 20000;
    for port in first..first + 100 {
        let addr = format!(in rt.alloc(); "127.0.0.1:{port}")?;
        if wire.listen(rt.alloc(), addr.as_str()).is_ok() {
            return Ok(addr);
        }
    }
    Err(Fail::new("no port is free"))
}

/// Asserts the next bytes of a peer.
fn gives<R: Abort>(rt: &R, wire: &mut TcpWire<HostRuntime>, peer: u32, bytes: &[u8])
    requires { peer < vec_len wire.old.streams }
    ensures { vec_len wire.new.streams ≡ vec_len wire.old.streams }
{
    let mut buffer = [0; 16];
    let given = wire.recv(peer, &mut buffer).map(|count| &buffer[..count]);
    assert_eq!(rt; given, Ok(bytes));
}

#[test]
fn bytes_go_both_ways(rt: HostRuntime) -> Result<(), Fail> {
    let mut hub = TcpWire::new(rt, rt.alloc());
    let mut station = TcpWire::new(rt, rt.alloc());
    let addr = listen_somewhere(rt, &mut hub)?;
    let far = station.dial(rt.alloc(), addr.as_str())?;
    let near = hub.accept(rt.alloc())?;
    assert_eq!(rt; (far, near, hub.ready(near)), (0, 0, 0));
    station.send(far, b"hello")?;
    gives(&rt, &mut hub, near, b"hello");
    hub.send(near, b"")?;
    hub.send(near, b"all")?;
    gives(&rt, &mut station, far, b"all");
    drop(station);
    gives(&rt, &mut hub, near, b"");
    Ok(())
}

#[test]
fn what_is_not_there_fails(rt: HostRuntime) {
    let mut wire = TcpWire::new(rt, rt.alloc());
    assert_eq!(rt;
        wire.accept(rt.alloc()),
        Err(LinkFault::Failed),
        "it does not listen"
    );
    assert_eq!(rt;
        wire.dial(rt.alloc(), "127.0.0.1:1"),
        Err(LinkFault::Failed),
        "refused"
    );
    assert_eq!(rt;
        wire.dial(rt.alloc(), "127.0.0.1"),
        Err(LinkFault::Failed),
        "no port"
    );
    assert_eq!(rt;
        wire.listen(rt.alloc(), "[::1:0"),
        Err(LinkFault::Failed),
        "no address"
    );
}
