//! The pads that the seeds of a key file give, computed on several threads.

ghost use Rattle.std.specs.Prelude.{◌≡◌, ◌+◌, ◌*◌, ◌^◌, ◌<◌, ◌≤◌, List, ℕ, map, take, drop, length, IfOk};
ghost use Rattle.std.specs.List.{range_with_len, flat_map};
ghost use Rattle.dc_spec.specs.Limits.{most_pads, most_words};
ghost use Rattle.dc_graph.specs.Graph.{PlainGraph};
ghost use Rattle.dc_keyfile.specs.Generator.{generated_symbol, generated_keys, expanded_pair, expanded_keys, seeds_of, elements_from, pieces_of, piece_of};

use crate::generator::{next_symbol, pair_seed};
use crate::seed_file::{SeedFile, SeedPair};
use dc_field::{NoMemory, Syms};
use dc_keys::{KeyFile, PairKey, Pairs};
use rand_chacha::ChaCha20Rng;
use rand_core::SeedableRng;
use rayon::prelude::*;
use std::alloc::Global;
use std::thread::Threads;

/// The key file of the pads that seeds give: those of each pair are generated with its own seed as
/// the base.
///
/// Words of sixteen elements are computed on the threads of `rt`, one for each processor, and then
/// put into the pads. For this the call takes as much memory again as the pads, and gives it back.
pub fn expand<R: Threads + Sync>(rt: &R, alloc: Global, f: &SeedFile) -> Result<KeyFile, NoMemory>
    ensures expanded { IfOk result (λ k. k ≡ expanded_keys f.now) }
    // Where all pairs have one seed, these are the keys that the generator gives for it.
    ensures generated { (base : List ℕ) (g : PlainGraph) → f.now ≡ seeds_of base g f.now.words
        → IfOk result (λ k. k ≡ generated_keys base g f.now.words) }
{
    let pieces = all_pieces(rt, alloc, f.pairs.as_slice(), f.words)?;
    let pairs = expanded_pairs(alloc, f.pairs.as_slice(), f.words, pieces.as_slice())?;
    Ok(KeyFile {
        stations: f.stations,
        words: f.words,
        pairs,
    })
}

/// The elements of all pairs, pair after pair, in pieces of sixteen.
fn all_pieces<R: Threads + Sync>(
    rt: &R,
    alloc: Global,
    pairs: &[SeedPair],
    words: u16,
) -> Result<Vec<[u32; 16]>, NoMemory>
    requires some_words { 1 ≤ words }
    requires most_words { words ≤ most_words }
    requires most_symbols { length pairs.now * (32 * words) ≤ most_pads }
    ensures { IfOk result (λ v. v.items ≡
        map (piece_of pairs.now words) (range_with_len 0 (length pairs.now * (2 * words)))) }
{
    let count = pairs.len() * (2 * usize::from(words));
    let pieces = (0..count)
        .into_par_iter()
        .map(
            |i: usize| -> [u32; 16]
                requires { (words ≤ most_words) × (i < length pairs.now * (2 * words)) }
                ensures { result ≡ piece_of pairs.entry.now words i }
            { piece(pairs, words, i) },
        )
        .collect(rt, alloc)?;
    Ok(pieces)
}

/// The piece at a place.
fn piece(pairs: &[SeedPair], words: u16, i: usize) -> [u32; 16]
    requires most_words { words ≤ most_words }
    requires there { i < length pairs.now * (2 * words) }
    ensures { result ≡ piece_of pairs.now words i }
{
    let each = 2 * usize::from(words);
    elements(&pairs[i / each], 16 * (i % each) as u32)
}

/// Sixteen elements of a pair, from this one on.
fn elements(pair: &SeedPair, e: u32) -> [u32; 16]
    requires { e < 2 ^ 17 }
    ensures { result ≡ elements_from pair.now e }
{
    let mut stream = ChaCha20Rng::from_seed(pair_seed(&pair.seed, pair.u, pair.v));
    stream.set_word_pos(2 * u128::from(e));
    sixteen_symbols(&mut stream)
}

/// The next sixteen symbols of a stream.
fn sixteen_symbols(stream: &mut ChaCha20Rng) -> [u32; 16]
    requires first_stream { stream.old.stream ≡ 0 }
    requires room { stream.old.word_pos + 32 < 2 ^ 64 }
    ensures { result ≡
        map (λ n. generated_symbol stream.old.key (stream.old.word_pos + 2 * n))
        (range_with_len 0 16) }
{
    let mut symbols = [0; 16];
    for n in 0..16 {
        symbols[n] = next_symbol(stream);
    }
    symbols
}

/// A pair of pads for each pair of seeds, from the pieces of all pairs.
fn expanded_pairs(
    alloc: Global,
    seeded: &[SeedPair],
    words: u16,
    pieces: &[[u32; 16]],
) -> Result<Pairs, NoMemory>
    requires some_words { 1 ≤ words }
    requires most_words { words ≤ most_words }
    requires pieces { pieces.now ≡
        map (piece_of seeded.now words) (range_with_len 0 (length seeded.now * (2 * words))) }
    ensures { IfOk result (λ ps. ps ≡ map (expanded_pair (16 * words)) seeded.now) }
{
    let mut pairs = Vec::with_capacity(alloc, seeded.len())?;
    for place in 0..seeded.len() {
        let own = pieces_at(pieces, words, place);
        pairs.push(expanded_pair(alloc, &seeded[place], words, own)?)?;
    }
    Ok(Pairs::from_vec(pairs))
}

/// The pieces of the pair at a place.
fn pieces_at(pieces: &[[u32; 16]], words: u16, place: usize) -> &[[u32; 16]]
    requires { 2 * words * place + 2 * words ≤ length pieces.now }
    ensures { result.now ≡ take (2 * words) (drop (2 * words * place) pieces.now) }
{
    let each = 2 * usize::from(words);
    let at = each * place;
    &pieces[at..at + each]
}

/// The pads of a pair, from its pieces. The element in the place of the first second pad is not
/// used.
fn expanded_pair(
    alloc: Global,
    pair: &SeedPair,
    words: u16,
    pieces: &[[u32; 16]],
) -> Result<PairKey, NoMemory>
    requires some_words { 1 ≤ words }
    requires most_words { words ≤ most_words }
    requires pieces { pieces.now ≡ pieces_of words pair.now }
    ensures { IfOk result (λ p. p ≡ expanded_pair (16 * words) pair.now) }
{
    let (first, second) = pieces.split_at(usize::from(words));
    let a = joined(alloc, first)?;
    let mut b = joined(alloc, second)?;
    b[0] = 0;
    Ok(PairKey {
        u: pair.u,
        v: pair.v,
        a: Syms::from_vec(a),
        b: Syms::from_vec(b),
    })
}

/// The symbols of pieces, one piece after the other, in memory taken once.
fn joined(alloc: Global, pieces: &[[u32; 16]]) -> Result<Vec<u32>, NoMemory>
    requires { length pieces.now ≤ 4096 }
    ensures { IfOk result (λ v. v.items ≡ flat_map (λ w. w) pieces.now) }
{
    let mut symbols = Vec::with_capacity(alloc, 16 * pieces.len())?;
    for piece in pieces {
        symbols.extend_from_slice(piece)?;
    }
    Ok(symbols)
}
