//! Reading a key file of seeds.

ghost use Rattle.std.specs.Prelude.{◌≡◌, ◌+◌, ◌^◌, ◌<◌, ◌≤◌, length, IfOk, Ok};
ghost use Rattle.dc_spec.specs.Pads.{Seeds};
ghost use Rattle.dc_formats.specs.SeedFile.{IsSeeds, seeds_bytes};
ghost use Rattle.dc_field.specs.Answers.{Answers};
ghost use Rattle.dc_keyfile.specs.Head.{IsHead, due_length, body_of, pairs_of};
ghost use Rattle.dc_keyfile.specs.SeedReading.{seed_pair_in, seed_pair_of, seeds_after_head, seeds_from_bytes};

use crate::fault::KeyFault;
use crate::head::{Head, ends, ends_fault, pair_piece, read_head};
use crate::seed_file::{SeedFile, SeedPair, SeedPairs};
use dc_field::Refusal;
use std::alloc::Global;

/// The seeds that the bytes of a key file of version 2 spell, or the first fault.
///
/// The format is this project's own. Bytes of another version are refused. No memory is taken
/// before there are as many bytes as the head requires.
pub fn read_seeds(alloc: Global, b: &[u8]) -> Result<SeedFile, Refusal<KeyFault>>
    // The seeds, or the first fault by the order of the tests.
    ensures exact { Answers result (seeds_from_bytes b.now) }
    // The seeds that are read keep the limits, and the bytes are their spelling.
    ensures found { IfOk result (λ s. IsSeeds s × (b.now ≡ seeds_bytes s)) }
    // The spelling of all seeds within the limits is read as those seeds.
    ensures only { (s : Seeds) → IsSeeds s → b.now ≡ seeds_bytes s → Answers result (Ok s) }
{
    read_seed_file(alloc, b)
}

/// Tests the head, then reads on.
#[tactic(auto, unfolding(crate::specs::SeedReading::seeds_from_bytes))]
fn read_seed_file(alloc: Global, b: &[u8]) -> Result<SeedFile, Refusal<KeyFault>>
    ensures { Answers result (seeds_from_bytes b.now) }
{
    let head = read_head(b, 2)?;
    read_after_head(alloc, b, head)
}

/// What comes after the head.
#[tactic(auto, unfolding(crate::specs::SeedReading::seeds_after_head))]
fn read_after_head(alloc: Global, b: &[u8], head: Head) -> Result<SeedFile, Refusal<KeyFault>>
    requires { IsHead head }
    ensures { Answers result (seeds_after_head b.now head) }
{
    let pairs = read_body(alloc, b, head)?;
    Ok(SeedFile {
        stations: head.stations,
        words: head.words,
        pairs,
    })
}

/// Tests the length, then the pairs, then the end.
#[tactic(auto, unfolding(crate::specs::Head::body_of))]
fn read_body(alloc: Global, b: &[u8], head: Head) -> Result<SeedPairs, Refusal<KeyFault>>
    ensures { Answers result (body_of b.now 36 head.count (seed_pair_of b.now head.stations)) }
{
    let count = head.count as usize;
    let due = 12 + 36 * count;
    if b.len() < due {
        return Err(Refusal::Bad(KeyFault::Truncated {
            at: b.len() as u64,
            need: due as u64,
        }));
    }
    let pairs = read_pairs(alloc, b, head.stations, count)?;
    if due < b.len() {
        return Err(Refusal::Bad(KeyFault::Rest { at: due as u64 }));
    }
    Ok(pairs)
}

/// The pairs after the head, in memory taken once.
fn read_pairs(
    alloc: Global,
    b: &[u8],
    stations: u16,
    count: usize,
) -> Result<SeedPairs, Refusal<KeyFault>>
    requires most_pairs { count < 2 ^ 32 }
    requires long_enough { due_length 36 count ≤ length b.now }
    ensures { Answers result (pairs_of (seed_pair_of b.now stations) count) }
{
    let mut pairs = Vec::with_capacity(alloc, count)?;
    for place in 0..count {
        pairs.push(read_pair(b, stations, place)?)?;
    }
    Ok(SeedPairs::from_vec(pairs))
}

/// Tests the ends of the pair at a place, then reads its seed.
#[tactic(auto, unfolding(crate::specs::SeedReading::seed_pair_of))]
fn read_pair(b: &[u8], stations: u16, place: usize) -> Result<SeedPair, Refusal<KeyFault>>
    requires places { place < 2 ^ 32 }
    requires long_enough { due_length 36 (place + 1) ≤ length b.now }
    ensures { Answers result (seed_pair_of b.now stations place) }
{
    if let Some(fault) = ends_fault(b, stations, 36, place) {
        return Err(Refusal::Bad(fault));
    }
    Ok(seed_pair(pair_piece(b, 36, place)))
}

/// The pair that thirty-six bytes spell.
fn seed_pair(piece: &[u8]) -> SeedPair
    requires { length piece.now ≡ 36 }
    ensures { result ≡ seed_pair_in piece.now }
{
    let (u, v) = ends(piece);
    let mut seed = [0; 32];
    seed.copy_from_slice(&piece[4..]);
    SeedPair { u, v, seed }
}
