//! The net of a trial.

ghost use Rattle.std.specs.Prelude.{◌≡◌, ◌+◌, ◌*◌, ◌%◌, ◌<◌, ◌≤◌, nat_lt, [], ◌∷◌, ◌++◌, IfOk, Some, filter, length, map};
ghost use Rattle.std.specs.List.{range_with_len};
ghost use Rattle.dc_spec.specs.Limits.{most_stations, most_words};
ghost use Rattle.dc_keyfile.specs.Generator.{generated_keys};
ghost use Rattle.dc_net.specs.TrialNets.{trial_base, trial_edges, edges_of, own_element, own_bytes, trial_stream, trial_net};

use crate::checked_net::CheckedNet;
use crate::net::{Net, Streams};
use dc_field::{Bytes, NoMemory, Value};
use dc_graph::{Coalition, Graph};
use dc_keyfile::{element, generate, generate_shared};
use dc_keys::KeyFile;
use dc_script::quiet;
use dc_stream::{Longs, Shorts, Stream};
use std::alloc::Global;
use std::thread::Threads;

/// A net of 1 to 256 stations for 1 to 4096 words, with at most 524288 for the product of the two
/// numbers. Each station has an edge with the stations one, two and four places further; there is
/// no coalition. The pads of the edges, and for each station two shorts, eight coins and, where its
/// number is divisible by sixteen, a long of twenty bytes, come from the pad generator. The net is
/// this project's own.
pub fn trial_net(
    alloc: Global,
    seed: u32,
    stations: u16,
    words: u16,
) -> Result<CheckedNet, NoMemory>
    requires some_stations { 1 ≤ stations }
    requires most_stations { stations ≤ most_stations }
    requires some_words { 1 ≤ words }
    requires most_words { words ≤ most_words }
    requires size { stations * words ≤ 524288 }
    ensures { IfOk result (λ c. c ≡ trial_net seed stations words) }
{
    let graph = trial_graph(alloc, stations)?;
    let keys = generate(alloc, &trial_base(seed), &graph, words)?;
    trial_with(alloc, seed, stations, graph, keys, words)
}

/// As `trial_net`, by workers: each generates the pads of some of the edges.
pub fn trial_net_shared<R: Threads + Sync>(
    rt: &R,
    alloc: Global,
    seed: u32,
    stations: u16,
    words: u16,
    workers: u32,
) -> Result<CheckedNet, NoMemory>
    requires some_stations { 1 ≤ stations }
    requires most_stations { stations ≤ most_stations }
    requires some_words { 1 ≤ words }
    requires most_words { words ≤ most_words }
    requires size { stations * words ≤ 524288 }
    requires some_workers { 1 ≤ workers }
    ensures { IfOk result (λ c. c ≡ trial_net seed stations words) }
{
    let graph = trial_graph(alloc, stations)?;
    let keys = generate_shared(rt, alloc, &trial_base(seed), &graph, words, workers)?;
    trial_with(alloc, seed, stations, graph, keys, words)
}

/// The key graph.
fn trial_graph(alloc: Global, n: u16) -> Result<Graph, NoMemory>
    requires some_stations { 1 ≤ n }
    requires most_stations { n ≤ most_stations }
    ensures { IfOk result (λ g. g ≡ record { stations = n; edges = trial_edges n }) }
{
    let edges = trial_edges(alloc, n)?;
    Ok(Graph::of_rising(n, edges))
}

/// The net with this key graph and these keys.
fn trial_with(
    alloc: Global,
    seed: u32,
    stations: u16,
    graph: Graph,
    keys: KeyFile,
    words: u16,
) -> Result<CheckedNet, NoMemory>
    requires most_stations { stations ≤ most_stations }
    requires some_words { 1 ≤ words }
    requires most_words { words ≤ most_words }
    requires graph { graph ≡ record { stations = stations; edges = trial_edges stations } }
    requires keys { keys ≡ generated_keys (trial_base seed) graph words }
    ensures { IfOk result (λ c. c ≡ trial_net seed stations words) }
{
    let coalition = Coalition::empty(alloc);
    let script = quiet(alloc, &coalition, stations, words)?;
    let streams = trial_streams(alloc, &trial_base(seed), stations)?;
    Ok(CheckedNet::of_agreeing(Net {
        graph,
        coalition,
        keys,
        streams,
        script,
        words,
    }))
}

/// The base seed.
fn trial_base(seed: u32) -> [u8; 32]
    ensures { result ≡ trial_base seed }
{
    let mut base = [0; 32];
    let eight = u64::from(seed).to_be_bytes();
    base[0..8].copy_from_slice(&eight);
    base
}

/// The edges of so many stations, rising.
fn trial_edges(alloc: Global, n: u16) -> Result<Vec<(u16, u16)>, NoMemory>
    requires { n ≤ most_stations }
    ensures { IfOk result (λ v. v.items ≡ trial_edges n) }
{
    let mut edges = Vec::with_capacity(alloc, 3 * usize::from(n))?;
    for i in 0..n {
        push_edges(&mut edges, i, n)?;
    }
    Ok(edges)
}

/// Pushes the edges of a station with later ones.
fn push_edges(edges: &mut Vec<(u16, u16)>, i: u16, n: u16) -> Result<(), NoMemory>
    requires { i < most_stations }
    ensures { IfOk result (λ _.
        edges.new.items ≡ edges.old.items ++ filter (λ e. nat_lt e.1 n) (edges_of i)) }
{
    push_edge(edges, i, i + 1, n)?;
    push_edge(edges, i, i + 2, n)?;
    push_edge(edges, i, i + 4, n)
}

/// Pushes an edge, where its greater end is a station.
fn push_edge(edges: &mut Vec<(u16, u16)>, i: u16, j: u16, n: u16) -> Result<(), NoMemory>
    ensures { IfOk result (λ _.
        edges.new.items ≡ edges.old.items ++ filter (λ e. nat_lt e.1 n) ((i, j) ∷ [])) }
{
    if j < n {
        edges.push((i, j))?;
    }
    Ok(())
}

/// The streams of so many stations.
fn trial_streams(alloc: Global, base: &[u8; 32], n: u16) -> Result<Streams, NoMemory>
    ensures { IfOk result (λ s. s ≡ map (λ i. Some (trial_stream base.now i)) (range_with_len 0 n)) }
{
    let mut streams = Vec::with_capacity(alloc, usize::from(n))?;
    for i in 0..n {
        streams.push(Some(trial_stream(alloc, base, i)?))?;
    }
    Ok(Streams::from_vec(streams))
}

/// The stream of a station.
fn trial_stream(alloc: Global, base: &[u8; 32], i: u16) -> Result<Stream, NoMemory>
    ensures { IfOk result (λ s. s ≡ trial_stream base.now i) }
{
    let shorts = Vec::from_slice(alloc, &[own_value(base, i, 0), own_value(base, i, 15)])?;
    let mut coins = vec![in alloc; 0; 8]?;
    put_elements(&mut coins, base, i, 200, 16);
    Ok(Stream {
        shorts: Shorts::from_vec(shorts),
        longs: trial_longs(alloc, base, i)?,
        coins: Bytes::from_vec(coins),
    })
}

/// The messages of a station, one or none.
fn trial_longs(alloc: Global, base: &[u8; 32], i: u16) -> Result<Longs, NoMemory>
    ensures { IfOk result (λ longs. longs ≡ (trial_stream base.now i).longs) }
{
    let mut longs = Vec::new(alloc);
    if i % 16 == 0 {
        let mut message = vec![in alloc; 0; 20]?;
        put_elements(&mut message, base, i, 100, 256);
        longs.push(Bytes::from_vec(message))?;
    }
    Ok(Longs::from_vec(longs))
}

/// Fifteen bytes of a station's own generator, from an element on.
fn own_value(base: &[u8; 32], i: u16, from: u32) -> Value
    requires { from < 256 }
    ensures { result ≡ own_bytes base.now i from 15 }
{
    let mut bytes = [0; 15];
    put_elements(&mut bytes, base, i, from, 256);
    Value { bytes }
}

/// Elements of a station's own generator, from one on, modulo a number.
fn put_elements(bytes: &mut [u8], base: &[u8; 32], i: u16, from: u32, modulus: u32)
    requires from { from < 256 }
    requires few { length bytes.old < 256 }
    requires some { 1 ≤ modulus }
    requires most { modulus ≤ 256 }
    ensures { bytes.new ≡
        map (λ k. own_element base.now i (from + k) % modulus) (range_with_len 0 (length bytes.old)) }
{
    for k in 0..bytes.len() {
        let own = element(base, i, i, from + k as u32).number();
        bytes[k] = (own % modulus) as u8;
    }
}
