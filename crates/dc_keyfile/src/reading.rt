//! Reading a key file.

ghost use Rattle.std.specs.Prelude.{◌≡◌, ◌+◌, ◌*◌, ◌^◌, ◌<◌, ◌≤◌, length, IfOk, Ok};
ghost use Rattle.dc_spec.specs.Bytes.{number_at};
ghost use Rattle.dc_spec.specs.Limits.{most_words};
ghost use Rattle.dc_spec.specs.Pads.{Keys, Seeds};
ghost use Rattle.dc_formats.specs.KeyFile.{IsKeys, keys_bytes};
ghost use Rattle.dc_formats.specs.SeedFile.{IsSeeds, seeds_bytes};
ghost use Rattle.dc_field.specs.Answers.{Answers};
ghost use Rattle.dc_keyfile.specs.Generator.{expanded_keys};
ghost use Rattle.dc_keyfile.specs.Head.{IsHead, due_length, body_of, pairs_of};
ghost use Rattle.dc_keyfile.specs.Reading.{IsSpelled, pair_size, pads_of, padded, pair_of, keys_after_head, pads_from_bytes, keys_from_bytes};

use crate::expansion::expand;
use crate::fault::KeyFault;
use crate::head::{Head, ends, ends_fault, pair_piece, read_head};
use crate::seed_reading::read_seeds;
use dc_field::{Refusal, Syms};
use dc_keys::{KeyFile, PairKey, Pairs};
use std::alloc::Global;
use std::thread::Threads;

/// The keys that the bytes of a key file of either version spell, or the first fault.
///
/// A key file is this project's own format. Version 1 holds the pads; of version 2, which holds a
/// seed for each pair, the answer is the expansion, computed on the threads of `rt`. No memory is
/// taken before there are as many bytes as the head requires.
pub fn read_keys<R: Threads + Sync>(
    rt: &R,
    alloc: Global,
    b: &[u8],
) -> Result<KeyFile, Refusal<KeyFault>>
    // The keys, or the first fault by the order of the tests.
    ensures exact { Answers result (keys_from_bytes b.now) }
    // The keys that are read keep the limits, and the bytes are their spelling, or that of seeds
    // whose expansion they are.
    ensures found { IfOk result (λ k. IsKeys k × IsSpelled b.now k) }
    // The spelling of all keys within the limits is read as those keys.
    ensures only { (k : Keys) → IsKeys k → b.now ≡ keys_bytes k → Answers result (Ok k) }
    // The spelling of all seeds within the limits is read as their expansion.
    ensures seeds { (s : Seeds) → IsSeeds s → b.now ≡ seeds_bytes s
        → Answers result (Ok (expanded_keys s)) }
{
    read_either(rt, alloc, b)
}

/// Reads version 2 where the byte of the version is 2, and else version 1.
#[tactic(auto, unfolding(crate::specs::Reading::keys_from_bytes))]
fn read_either<R: Threads + Sync>(
    rt: &R,
    alloc: Global,
    b: &[u8],
) -> Result<KeyFile, Refusal<KeyFault>>
    ensures { Answers result (keys_from_bytes b.now) }
{
    if 3 < b.len() && b[3] == 2 {
        let seeds = read_seeds(alloc, b)?;
        return Ok(expand(rt, alloc, &seeds)?);
    }
    read_pads_file(alloc, b)
}

/// Reads version 1.
#[tactic(auto, unfolding(crate::specs::Reading::pads_from_bytes))]
fn read_pads_file(alloc: Global, b: &[u8]) -> Result<KeyFile, Refusal<KeyFault>>
    ensures { Answers result (pads_from_bytes b.now) }
{
    let head = read_head(b, 1)?;
    read_after_head(alloc, b, head)
}

/// What comes after the head.
#[tactic(auto, unfolding(crate::specs::Reading::keys_after_head))]
fn read_after_head(alloc: Global, b: &[u8], head: Head) -> Result<KeyFile, Refusal<KeyFault>>
    requires { IsHead head }
    ensures { Answers result (keys_after_head b.now head) }
{
    let pairs = read_body(alloc, b, head)?;
    Ok(KeyFile {
        stations: head.stations,
        words: head.words,
        pairs,
    })
}

/// Tests the length, then the pairs, then the end.
#[tactic(auto, unfolding(crate::specs::Head::body_of))]
fn read_body(alloc: Global, b: &[u8], head: Head) -> Result<Pairs, Refusal<KeyFault>>
    requires { IsHead head }
    ensures { Answers result
        (body_of b.now (pair_size head.words) head.count (pair_of b.now head.stations head.words)) }
{
    let count = head.count as usize;
    let due = 12 + (4 + 128 * usize::from(head.words)) * count;
    if b.len() < due {
        return Err(Refusal::Bad(KeyFault::Truncated {
            at: b.len() as u64,
            need: due as u64,
        }));
    }
    let pairs = read_pairs(alloc, b, head.stations, head.words, count)?;
    if due < b.len() {
        return Err(Refusal::Bad(KeyFault::Rest { at: due as u64 }));
    }
    Ok(pairs)
}

/// The pairs after the head, in memory taken once.
fn read_pairs(
    alloc: Global,
    b: &[u8],
    stations: u16,
    words: u16,
    count: usize,
) -> Result<Pairs, Refusal<KeyFault>>
    requires some_words { 1 ≤ words }
    requires most_words { words ≤ most_words }
    requires most_pairs { count < 2 ^ 32 }
    requires long_enough { due_length (pair_size words) count ≤ length b.now }
    ensures { Answers result (pairs_of (pair_of b.now stations words) count) }
{
    let mut pairs = Vec::with_capacity(alloc, count)?;
    for place in 0..count {
        pairs.push(read_pair(alloc, b, stations, words, place)?)?;
    }
    Ok(Pairs::from_vec(pairs))
}

/// Tests the ends of the pair at a place, then reads its pads.
#[tactic(auto, unfolding(crate::specs::Reading::pair_of))]
fn read_pair(
    alloc: Global,
    b: &[u8],
    stations: u16,
    words: u16,
    place: usize,
) -> Result<PairKey, Refusal<KeyFault>>
    requires some_words { 1 ≤ words }
    requires most_words { words ≤ most_words }
    requires places { place < 2 ^ 32 }
    requires long_enough { due_length (pair_size words) (place + 1) ≤ length b.now }
    ensures { Answers result (pair_of b.now stations words place) }
{
    let size = 4 + 128 * usize::from(words);
    if let Some(fault) = ends_fault(b, stations, size, place) {
        return Err(Refusal::Bad(fault));
    }
    read_padded(alloc, pair_piece(b, size, place), words, place)
}

/// The pads of a pair.
#[tactic(auto, unfolding(crate::specs::Reading::padded))]
fn read_padded(
    alloc: Global,
    piece: &[u8],
    words: u16,
    place: usize,
) -> Result<PairKey, Refusal<KeyFault>>
    requires some_words { 1 ≤ words }
    requires most_words { words ≤ most_words }
    requires places { place < 2 ^ 32 }
    requires whole { length piece.now ≡ pair_size words }
    ensures { Answers result (padded piece.now words place) }
{
    let (u, v) = ends(piece);
    let count = 16 * usize::from(words);
    let a = read_pads(alloc, piece, place, 0, count)?;
    let b = read_pads(alloc, piece, place, count, count)?;
    if b.as_slice()[0] != 0 {
        return Err(Refusal::Bad(KeyFault::FirstSecondPad { pair: place as u32 }));
    }
    Ok(PairKey { u, v, a, b })
}

/// The given number of pads of a pair from an index on, in memory taken once.
fn read_pads(
    alloc: Global,
    piece: &[u8],
    place: usize,
    index: usize,
    count: usize,
) -> Result<Syms, Refusal<KeyFault>>
    requires places { place < 2 ^ 32 }
    requires most { index + count ≤ 2 ^ 17 }
    requires long_enough { 4 + 4 * (index + count) ≤ length piece.now }
    ensures { Answers result (pads_of piece.now place index count) }
{
    let mut pads = Vec::with_capacity(alloc, count)?;
    for n in 0..count {
        let seen = number(piece, 4 + 4 * (index + n));
        if 65536 < seen {
            return Err(Refusal::Bad(KeyFault::Symbol {
                pair: place as u32,
                index: (index + n) as u32,
                seen,
            }));
        }
        pads.push(seen)?;
    }
    Ok(Syms::from_vec(pads))
}

/// The number that four bytes from a place on spell.
fn number(piece: &[u8], at: usize) -> u32
    requires { at + 4 ≤ length piece.now }
    ensures { result ≡ number_at piece.now at }
{
    u32::from_be_bytes([piece[at], piece[at + 1], piece[at + 2], piece[at + 3]])
}
