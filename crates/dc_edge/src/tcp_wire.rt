//! A wire over TCP.

ghost use Rattle.std.specs.Prelude.{◌≡◌, ◌<◌, IfOk, OnOk, vec_len, vec_capacity};
ghost use Rattle.std.specs.IoError.{error_kind};
ghost use Rattle.dc_edge.specs.Opened.{link_fault_of_kind};
ghost use Rattle.dc_edge.specs.Untold.{untold_wire, AddsStream, faults_after};

use crate::fault::{Failed, LinkFault};
use crate::wire::Wire;
use std::alloc::Global;
use std::io;
use std::io::{ErrorKind, Read, Write};
use std::net::{Net, OpenListener, OpenStream, TcpListener, TcpStream};

/// Connections over TCP, as `TcpWire::new(rt, alloc)`. Contracts know its number of peers and its count of faults alone.
///
/// An address is HOST:PORT, where an IPv6 address stands in brackets; a host that is a name is looked up by the system.
#[derive(Drop)]
pub struct TcpWire<R: Net> {
    net: R,
    listener: Option<R::Listener>,
    streams: Vec<R::Stream>,
    fault_count: u64,
}

impl<R: Net> TcpWire<R> {
    /// A wire without peers, which does not listen yet.
    pub fn new(net: R, alloc: Global) -> TcpWire<R>
        ensures peers { vec_len result.streams ≡ 0 }
        ensures faults { result.fault_count ≡ 0 }
    {
        TcpWire {
            net,
            listener: None,
            streams: Vec::new(alloc),
            fault_count: 0,
        }
    }
}

impl<R: Net> Wire for TcpWire<R> {
    ghost state = { λ w. untold_wire (vec_len w.streams) w.fault_count };

    fn dial(&mut self, _alloc: Global, addr: &str) -> Result<u32, LinkFault> {
        let answer = connect(&self.net, &mut self.streams, addr);
        self.fault_count = with_fault(self.fault_count, &answer);
        answer
    }

    fn listen(&mut self, _alloc: Global, addr: &str) -> Result<(), LinkFault> {
        let answer = bind(&self.net, &mut self.listener, addr);
        self.fault_count = with_fault(self.fault_count, &answer);
        answer
    }

    fn accept(&mut self, _alloc: Global) -> Result<u32, LinkFault> {
        let answer = accept_at(&self.listener, &mut self.streams);
        self.fault_count = with_fault(self.fault_count, &answer);
        answer
    }

    /// The hint.
    fn ready(&mut self, hint: u32) -> u32 {
        hint
    }

    fn recv(&mut self, peer: u32, buf: &mut [u8]) -> Result<usize, Failed> {
        let stream = &mut self.streams[peer as usize];
        match stream.read(buf) {
            Ok(count) => Ok(count),
            Err(_) => {
                self.fault_count = self.fault_count.saturating_add(1);
                Err(Failed)
            }
        }
    }

    fn send(&mut self, peer: u32, bytes: &[u8]) -> Result<(), Failed> {
        if bytes.is_empty() {
            return Ok(());
        }
        let stream = &mut self.streams[peer as usize];
        match stream.write_all(bytes) {
            Ok(()) => Ok(()),
            Err(_) => {
                self.fault_count = self.fault_count.saturating_add(1);
                Err(Failed)
            }
        }
    }
}

// Connects to the address. The room for the stream is taken first.
fn connect<R: Net>(net: &R, streams: &mut Vec<R::Stream>, addr: &str) -> Result<u32, LinkFault>
    ensures { AddsStream (vec_len streams.old) (vec_len streams.new) result }
{
    let peer = next_number(streams)?;
    let stream = TcpStream::connect(net, addr).map_err(link_fault_of)?;
    stream.set_nodelay(true).map_err(link_fault_of)?;
    streams.push_reserved(stream);
    Ok(peer)
}

// Waits for a connection. The room for the stream is taken first.
fn accept_at<L: OpenListener>(
    listener: &Option<L>,
    streams: &mut Vec<L::Stream>,
) -> Result<u32, LinkFault>
where
    L::Stream: OpenStream,
    ensures { AddsStream (vec_len streams.old) (vec_len streams.new) result }
{
    let peer = next_number(streams)?;
    let Some(listener) = listener else {
        return Err(LinkFault::Failed);
    };
    let (stream, _) = listener.accept().map_err(link_fault_of)?;
    stream.set_nodelay(true).map_err(link_fault_of)?;
    streams.push_reserved(stream);
    Ok(peer)
}

// Listens at the address, in place of the former one.
fn bind<R: Net>(net: &R, listener: &mut Option<R::Listener>, addr: &str) -> Result<(), LinkFault> {
    *listener = Some(TcpListener::bind(net, addr).map_err(link_fault_of)?);
    Ok(())
}

// The number of the next stream, for which there is room.
fn next_number<S>(streams: &mut Vec<S>) -> Result<u32, LinkFault>
    ensures room { OnOk result (vec_len streams.new < vec_capacity streams.new) }
    ensures len { vec_len streams.new ≡ vec_len streams.old }
    ensures number { IfOk result (λ number. number ≡ vec_len streams.old) }
{
    let Ok(number) = u32::try_from(streams.len()) else {
        return Err(LinkFault::Failed);
    };
    streams.reserve(1)?;
    Ok(number)
}

// The count of faults after an answer. Want of memory is no fault.
fn with_fault<T>(count: u64, answer: &Result<T, LinkFault>) -> u64
    ensures { result ≡ faults_after count answer.now }
{
    match answer {
        Err(LinkFault::Failed) => count.saturating_add(1),
        _ => count,
    }
}

// The fault that an error of a connection is.
fn link_fault_of(error: io::Error) -> LinkFault
    ensures { result ≡ link_fault_of_kind (error_kind error) }
{
    match error.kind() {
        ErrorKind::OutOfMemory => LinkFault::NoMemory,
        _ => LinkFault::Failed,
    }
}
