//! The pad generator.

ghost use Rattle.std.specs.Prelude.{◌≡◌, ◌+◌, ◌*◌, ◌^◌, ◌<◌, ◌≤◌, ◌++◌, take, drop, map, length, IfOk, All};
ghost use Rattle.std.specs.List.{range_with_len};
ghost use Rattle.std.specs.Int.{w16, to_be_bytes};
ghost use Rattle.dc_spec.specs.Limits.{most_pads, most_words};
ghost use Rattle.dc_spec.specs.Words.{IsSymbol};
ghost use Rattle.dc_keyfile.specs.Generator.{pair_seed, generated_symbol, element_at, generated_pair, generated_keys, seeded, seeds_of};

use crate::seed_file::{SeedFile, SeedPair, SeedPairs};
use dc_field::{NoMemory, Sym, Syms};
use dc_graph::Graph;
use dc_keys::{KeyFile, PairKey, Pairs};
use rand_chacha::ChaCha20Rng;
use rand_core::SeedableRng;
use rand_core::utils::NextWord;
use std::alloc::Global;

/// Element `e` of the pair of stations `u` and `v`: two words of ChaCha20, with the numbers of the
/// two stations in the last four bytes of the base seed, modulo 65537. The rule is this project's
/// own.
pub fn element(base: &[u8; 32], u: u16, v: u16, e: u32) -> Sym
    ensures { result ≡ element_at base.now u v e }
{
    let mut stream = ChaCha20Rng::from_seed(pair_seed(base, u, v));
    stream.set_word_pos(2 * u128::from(e));
    Sym::new(next_symbol(&mut stream)).unwrap()
}

/// The keys that a base seed gives the edges of a key graph, for a session of `words` words: for
/// each edge sixteen first and sixteen second pads a word. The rule is this project's own.
pub fn generate(alloc: Global, base: &[u8; 32], g: &Graph, words: u16) -> Result<KeyFile, NoMemory>
    requires some_words { 1 ≤ words }
    requires most_words { words ≤ most_words }
    requires most_symbols { length g.now.edges * (32 * words) ≤ most_pads }
    ensures { IfOk result (λ f. f ≡ generated_keys base.now g.now words) }
{
    let pairs = generate_pairs(alloc, base, g.edges(), words)?;
    Ok(KeyFile {
        stations: g.stations(),
        words,
        pairs,
    })
}

/// The key file of seeds in which each edge of a key graph has the base seed, for a session of
/// `words` words. Its expansion is what `generate` gives. The rule is this project's own.
pub fn generate_seeds(
    alloc: Global,
    base: &[u8; 32],
    g: &Graph,
    words: u16,
) -> Result<SeedFile, NoMemory>
    requires some_words { 1 ≤ words }
    requires most_words { words ≤ most_words }
    requires most_symbols { length g.now.edges * (32 * words) ≤ most_pads }
    ensures { IfOk result (λ f. f ≡ seeds_of base.now g.now words) }
{
    let pairs = seed_pairs(alloc, base, g)?;
    Ok(SeedFile {
        stations: g.stations(),
        words,
        pairs,
    })
}

/// A pair with this seed for each edge, in the order of the edges.
fn seed_pairs(alloc: Global, base: &[u8; 32], g: &Graph) -> Result<SeedPairs, NoMemory>
    ensures { IfOk result (λ ps. ps ≡ map (seeded base.now) g.now.edges) }
{
    let count = g.edge_count();
    let mut pairs = Vec::with_capacity(alloc, count as usize)?;
    for i in 0..count {
        let (u, v) = g.edge(i);
        let seed = *base;
        pairs.push(SeedPair { u, v, seed })?;
    }
    Ok(SeedPairs::from_vec(pairs))
}

/// A pair for each edge, in the order of the edges.
pub(crate) fn generate_pairs(
    alloc: Global,
    base: &[u8; 32],
    edges: &[(u16, u16)],
    words: u16,
) -> Result<Pairs, NoMemory>
    requires some_words { 1 ≤ words }
    requires most_words { words ≤ most_words }
    ensures { IfOk result (λ ps. ps ≡ map (generated_pair base.now (16 * words)) edges.now) }
{
    let mut pairs = Vec::with_capacity(alloc, edges.len())?;
    for i in 0..edges.len() {
        pairs.push(generate_pair(alloc, base, edges[i], words)?)?;
    }
    Ok(Pairs::from_vec(pairs))
}

/// The pads of an edge, in the order of its stream. The element in the place of the first second
/// pad is not used.
fn generate_pair(
    alloc: Global,
    base: &[u8; 32],
    edge: (u16, u16),
    words: u16,
) -> Result<PairKey, NoMemory>
    requires some_words { 1 ≤ words }
    requires most_words { words ≤ most_words }
    ensures { IfOk result (λ p. p ≡ generated_pair base.now (16 * words) edge) }
{
    let count = 16 * usize::from(words);
    let mut stream = ChaCha20Rng::from_seed(pair_seed(base, edge.0, edge.1));
    let first = next_symbols(alloc, &mut stream, count)?;
    let mut second = next_symbols(alloc, &mut stream, count)?;
    second[0] = 0;
    Ok(PairKey {
        u: edge.0,
        v: edge.1,
        a: Syms::from_vec(first),
        b: Syms::from_vec(second),
    })
}

/// The seed of a pair.
pub(crate) fn pair_seed(base: &[u8; 32], u: u16, v: u16) -> [u8; 32]
    ensures { result ≡ pair_seed base.now u v }
{
    let mut seed = *base;
    put_short(&mut seed, 28, u);
    put_short(&mut seed, 30, v);
    seed
}

/// Puts the two bytes of a number at a place.
fn put_short(seed: &mut [u8; 32], at: usize, x: u16)
    requires { at + 2 ≤ 32 }
    ensures { seed.new ≡ take at seed.old ++ to_be_bytes w16 x ++ drop (at + 2) seed.old }
{
    let two = x.to_be_bytes();
    seed[at..at + 2].copy_from_slice(&two);
}

/// The next symbols of a stream, as many as `count`.
fn next_symbols(alloc: Global, stream: &mut ChaCha20Rng, count: usize) -> Result<Vec<u32>, NoMemory>
    requires first_stream { stream.old.stream ≡ 0 }
    requires room { stream.old.word_pos + 2 * count < 2 ^ 64 }
    ensures items { IfOk result (λ v. v.items ≡
        map (λ n. generated_symbol stream.old.key (stream.old.word_pos + 2 * n)) (range_with_len 0 count)) }
    ensures symbols { IfOk result (λ v. All IsSymbol v.items) }
    ensures moved { IfOk result (λ v. stream.new ≡
        record stream.old { word_pos = stream.old.word_pos + 2 * count }) }
{
    let mut symbols = Vec::with_capacity(alloc, count)?;
    for _ in 0..count {
        symbols.push(next_symbol(stream))?;
    }
    Ok(symbols)
}

/// The symbol of the next two words of a stream. Since 65537 divides 2^32 - 1, it is their sum modulo
/// 65537.
pub(crate) fn next_symbol(stream: &mut ChaCha20Rng) -> u32
    requires first_stream { stream.old.stream ≡ 0 }
    requires room { stream.old.word_pos + 2 < 2 ^ 64 }
    ensures value { result ≡ generated_symbol stream.old.key stream.old.word_pos }
    ensures symbol { IsSymbol result }
    ensures moved { stream.new ≡ record stream.old { word_pos = stream.old.word_pos + 2 } }
{
    let high = u64::from(stream.next_word());
    let low = u64::from(stream.next_word());
    ((high + low) % 65537) as u32
}
