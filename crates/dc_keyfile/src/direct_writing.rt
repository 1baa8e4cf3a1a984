//! Generated pads, written as they come from the stream.

ghost use Rattle.std.specs.Prelude.{◌≡◌, ◌+◌, ◌*◌, ◌^◌, ◌<◌, ◌≤◌, ◌++◌, map, length, IfOk, OnOk, Ok};
ghost use Rattle.std.specs.List.{range_with_len, flat_map};
ghost use Rattle.dc_spec.specs.Limits.{most_pads, most_words};
ghost use Rattle.dc_spec.specs.Bytes.{symbol_bytes};
ghost use Rattle.dc_formats.specs.KeyFile.{pair_bytes, keys_bytes};
ghost use Rattle.dc_keyfile.specs.Generator.{generated_symbol, generated_pair, generated_keys};
ghost use Rattle.dc_keyfile.specs.Reading.{keys_from_bytes};

use crate::generator::{next_symbol, pair_seed};
use crate::writing::put_head;
use dc_field::{Bytes, NoMemory};
use dc_graph::Graph;
use rand_chacha::ChaCha20Rng;
use rand_core::SeedableRng;
use std::alloc::Global;

/// The bytes of the key file that a base seed gives the edges of a key graph, in memory taken once:
/// what `key_bytes` gives of `generate`.
pub fn generated_bytes(
    alloc: Global,
    base: &[u8; 32],
    g: &Graph,
    words: u16,
) -> Result<Bytes, NoMemory>
    requires some_words { 1 ≤ words }
    requires most_words { words ≤ most_words }
    requires most_symbols { length g.now.edges * (32 * words) ≤ most_pads }
    ensures written { IfOk result (λ b. b ≡ keys_bytes (generated_keys base.now g.now words)) }
    ensures read { IfOk result (λ b.
        keys_from_bytes b ≡ Ok (generated_keys base.now g.now words)) }
{
    let count = g.edge_count();
    let size = 4 + 128 * usize::from(words);
    let mut bytes = Vec::with_capacity(alloc, 12 + size * count as usize)?;
    put_head(&mut bytes, 1, g.stations(), words, count)?;
    put_edges(&mut bytes, base, g, words)?;
    Ok(Bytes::from_vec(bytes))
}

/// Puts the pair of each edge, in the order of the edges.
fn put_edges(bytes: &mut Vec<u8>, base: &[u8; 32], g: &Graph, words: u16) -> Result<(), NoMemory>
    requires some_words { 1 ≤ words }
    requires most_words { words ≤ most_words }
    ensures { OnOk result (bytes.new.items ≡ bytes.old.items
        ++ flat_map pair_bytes (map (generated_pair base.now (16 * words)) g.now.edges)) }
{
    for i in 0..g.edge_count() {
        put_edge(bytes, base, g.edge(i), words)?;
    }
    Ok(())
}

/// Puts the ends of an edge and its pads, in the order of its stream. The symbol in the place of the
/// first second pad is not used.
fn put_edge(
    bytes: &mut Vec<u8>,
    base: &[u8; 32],
    edge: (u16, u16),
    words: u16,
) -> Result<(), NoMemory>
    requires some_words { 1 ≤ words }
    requires most_words { words ≤ most_words }
    ensures { OnOk result (bytes.new.items ≡
        bytes.old.items ++ pair_bytes (generated_pair base.now (16 * words) edge)) }
{
    let count = 16 * usize::from(words);
    let mut stream = ChaCha20Rng::from_seed(pair_seed(base, edge.0, edge.1));
    bytes.extend_from_slice(&edge.0.to_be_bytes())?;
    bytes.extend_from_slice(&edge.1.to_be_bytes())?;
    put_symbols(bytes, &mut stream, count)?;
    let _ = next_symbol(&mut stream);
    bytes.extend_from_slice(&[0; 4])?;
    put_symbols(bytes, &mut stream, count - 1)?;
    Ok(())
}

/// Puts the next symbols of a stream, as many as `count`, four bytes each.
fn put_symbols(bytes: &mut Vec<u8>, stream: &mut ChaCha20Rng, count: usize) -> Result<(), NoMemory>
    requires first_stream { stream.old.stream ≡ 0 }
    requires room { stream.old.word_pos + 2 * count < 2 ^ 64 }
    ensures put { OnOk result (bytes.new.items ≡ bytes.old.items ++ flat_map symbol_bytes
        (map (λ n. generated_symbol stream.old.key (stream.old.word_pos + 2 * n)) (range_with_len 0 count))) }
    ensures moved { OnOk result (stream.new ≡
        record stream.old { word_pos = stream.old.word_pos + 2 * count }) }
{
    for _ in 0..count {
        bytes.extend_from_slice(&next_symbol(stream).to_be_bytes())?;
    }
    Ok(())
}
