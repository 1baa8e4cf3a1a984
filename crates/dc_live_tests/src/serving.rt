//! A hub that serves a whole session of three stations and two words.

ghost use Rattle.std.specs.Prelude.{◌≡◌, ◌≤◌, [], ◌∷◌, IfOk, OnOk};
ghost use Rattle.dc_spec.specs.Outside.{grown};

use crate::frames::{all, hello, send, text};
use dc_edge::{MemoryWire, Wire};
use dc_field::Refusal;
use dc_live::{LiveFault, serve};
use dc_superpose::HubCore;
use std::alloc::Global;
use std::test::*;

/// A wire that has met nobody, and to which three stations come in the order 2, 0, 1.
pub(crate) fn wire_to(alloc: Global, step: u32, fails: &[u32]) -> Result<MemoryWire, Fail>
    requires { 1 ≤ step }
    ensures nobody { IfOk result (λ wire. wire.peers ≡ 0) }
{
    let third = text(alloc, &[hello(2, 3, 2), send(0, 65536, 5)?, send(1, 0, 1)?])?;
    let first = text(alloc, &[hello(0, 3, 2), send(0, 1, 2)?, send(1, 10, 20)?])?;
    let second = text(alloc, &[hello(1, 3, 2), send(0, 3, 4)?, send(1, 30, 40)?])?;
    let mut wire = MemoryWire::new(alloc, 138, step, &[], fails)?;
    wire.feed_peer(alloc, &third)?;
    wire.feed_peer(alloc, &first)?;
    wire.feed_peer(alloc, &second)?;
    Ok(wire)
}

/// The sums of both rounds, which every station is sent.
pub(crate) fn two_sums(alloc: Global) -> Result<Vec<u8>, Fail> {
    text(alloc, &[all(0, 3, 11)?, all(1, 40, 61)?])
}

/// Puts the bytes of the word with this first and this last symbol, and zeros between.
fn put_word(bytes: &mut Vec<u8>, first: u32, last: u32) -> Result<(), Fail> {
    bytes.extend_from_slice(&first.to_be_bytes())?;
    bytes.extend_from_slice(&[0; 56])?;
    bytes.extend_from_slice(&last.to_be_bytes())?;
    Ok(())
}

/// The transcript: how many stations and words, then the words of all stations, round by round.
pub(crate) fn transcript(alloc: Global) -> Result<Vec<u8>, Fail> {
    let mut bytes = Vec::from_slice(alloc, &[68, 67, 84, 49, 0, 3, 0, 2])?;
    put_word(&mut bytes, 1, 2)?;
    put_word(&mut bytes, 3, 4)?;
    put_word(&mut bytes, 65536, 5)?;
    put_word(&mut bytes, 10, 20)?;
    put_word(&mut bytes, 30, 40)?;
    put_word(&mut bytes, 0, 1)?;
    Ok(bytes)
}

/// Serves the session at an address.
pub(crate) fn hosted<W: Wire>(
    alloc: Global,
    wire: &mut W,
    addr: &str,
) -> Result<HubCore, Refusal<LiveFault>>
    requires { (W.state wire.old).peers ≡ 0 }
    ensures over { IfOk result (λ core. core.rounds ≤ core.round) }
    // Where the session ended well, the wire has met three peers.
    ensures met { OnOk result ((W.state wire.new).peers ≡ 3) }
    // Then it was asked to listen at the address once, and three times for a peer.
    ensures asked { OnOk result ((W.state wire.new).asked
        ≡ grown (W.state wire.old).asked (addr.now ∷ [] ∷ [] ∷ [] ∷ [])) }
{
    serve(wire, alloc, addr, 3, 2)
}

/// The fault of a session, none where it ended well or memory ran out.
pub(crate) fn fault_in(answer: Result<HubCore, Refusal<LiveFault>>) -> Option<LiveFault> {
    match answer {
        Err(Refusal::Bad(fault)) => Some(fault),
        _ => None,
    }
}
