//! The text of what is wrong with the bytes of a peer.

ghost use Rattle.std.specs.Prelude.{◌++◌, codes};
ghost use Rattle.dc_edge.specs.Sink.{Puts};
ghost use Rattle.dc_cli.specs.PeerFaultText.{peer_text, peer_fault_text, frame_fault_text, frame_kind_text, hello_text};

use crate::pieces::{put_number, put_small, put_two_small};
use dc_edge::{Failed, Sink};
use dc_frame::{FrameFault, FrameKind};
use dc_live::PeerFault;

/// Puts the number of a peer, and what is wrong with its bytes.
pub fn put_peer<E: Sink>(peer: u32, fault: PeerFault, err: &mut E) -> Result<(), Failed>
    ensures { Puts (peer_text peer fault) (E.state err.old) (E.state err.new) result }
{
    put_number(err, b"peer ", u64::from(peer))?;
    put_rest_of_peer(fault, err)
}

fn put_rest_of_peer<E: Sink>(fault: PeerFault, err: &mut E) -> Result<(), Failed>
    ensures { Puts (codes ": " ++ peer_fault_text fault) (E.state err.old) (E.state err.new) result }
{
    err.put(b": ")?;
    put_peer_fault(fault, err)
}

fn put_peer_fault<E: Sink>(fault: PeerFault, err: &mut E) -> Result<(), Failed>
    ensures { Puts (peer_fault_text fault) (E.state err.old) (E.state err.new) result }
{
    match fault {
        PeerFault::Frame { fault } => put_frame_fault(fault, err),
        PeerFault::Unexpected { tag } => put_number(err, b"unexpected tag=", u64::from(tag)),
        PeerFault::Hello {
            station,
            stations,
            words,
        } => put_hello(station, stations, words, err),
        PeerFault::Round { told, now } => put_two_small(err, b"round told=", told, b" now=", now),
        PeerFault::Ended { at } => put_number(err, b"ended at=", at),
    }
}

/// Puts the numbers of a hello that does not fit.
fn put_hello<E: Sink>(station: u16, stations: u16, words: u16, err: &mut E) -> Result<(), Failed>
    ensures { Puts (hello_text station stations words) (E.state err.old) (E.state err.new) result }
{
    put_two_small(err, b"hello station=", station, b" stations=", stations)?;
    put_small(err, b" words=", words)
}

fn put_frame_fault<E: Sink>(fault: FrameFault, err: &mut E) -> Result<(), Failed>
    ensures { Puts (frame_fault_text fault) (E.state err.old) (E.state err.new) result }
{
    put_number(err, b"frame at=", fault.at)?;
    put_frame_kind(fault.kind, err)
}

fn put_frame_kind<E: Sink>(kind: FrameKind, err: &mut E) -> Result<(), Failed>
    ensures { Puts (frame_kind_text kind) (E.state err.old) (E.state err.new) result }
{
    match kind {
        FrameKind::Tag { seen } => put_number(err, b" tag seen=", u64::from(seen)),
        FrameKind::Length { seen } => put_small(err, b" length seen=", seen),
        FrameKind::Symbol { seen } => put_number(err, b" symbol seen=", u64::from(seen)),
    }
}
