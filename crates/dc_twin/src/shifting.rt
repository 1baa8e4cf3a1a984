//! The shifts of edges, and the pads that they are added to.

ghost use Rattle.std.specs.Prelude.{◌≡◌, ◌*◌, ◌%◌, ◌<◌, ◌≤◌, ◌++◌, [], length, map, Some, IfOk, All};
ghost use Rattle.std.specs.List.{filter_map, cons_option};
ghost use Rattle.dc_spec.specs.Limits.{most_words};
ghost use Rattle.dc_spec.specs.Words.{IsSymbol};
ghost use Rattle.dc_graph_rules.specs.Graphs.{key_graph};
ghost use Rattle.dc_graph_rules.specs.Forests.{parents, is_parent as is_parent_of};
ghost use Rattle.dc_graph.specs.Forest.{IsForestOf};
ghost use Rattle.dc_key_rules.specs.PairKeys.{symbols, pads_add};
ghost use Rattle.dc_net_rules.specs.Nets.{IsNet};
ghost use Rattle.dc_twin_rules.specs.Twins.{Shift as ShiftValue, child_end as child_end_of};
ghost use Rattle.dc_twin.specs.Edges.{signed as signed_word, edge_words as edge_words_of, edge_shift as edge_shift_of, with_shift};

use crate::shift::Shift;
use dc_field::{NoMemory, Syms, TryClone, Word, Words};
use dc_graph::Forest;
use dc_keys::PairKey;
use dc_net::Net;
use std::alloc::Global;

/// The shifts of the edges of the forest, and all pairs, each with the shift of its edge added.
pub(crate) fn shifted_pairs(
    alloc: Global,
    net: &Net,
    forest: &Forest,
    sums: &[Word],
) -> Result<(Vec<Shift>, Vec<PairKey>), NoMemory>
    requires net { IsNet net.now }
    requires forest { IsForestOf (key_graph net.now) forest.now }
    requires sums { length sums.now ≡ net.now.words * net.now.stations }
    ensures shifts { IfOk result (λ both. both.0.items ≡
        filter_map (edge_shift_of (key_graph net.now) net.now.words sums.now) net.now.keys.pairs) }
    ensures pairs { IfOk result (λ both. both.1.items ≡
        map (λ pair. with_shift (edge_shift_of (key_graph net.now) net.now.words sums.now pair) pair)
        net.now.keys.pairs) }
{
    let keys = &net.keys;
    let pairs = keys.pairs.as_slice();
    let mut shifts = Vec::new(alloc);
    let mut shifted = Vec::with_capacity(alloc, pairs.len())?;
    for pair in pairs {
        let shift = edge_shift(alloc, net, forest, sums, pair)?;
        shifted.push(shifted_pair(alloc, pair, &shift)?)?;
        push_shift(&mut shifts, shift)?;
    }
    Ok((shifts, shifted))
}

/// Pushes the shift of an edge that has one.
fn push_shift(shifts: &mut Vec<Shift>, shift: Option<Shift>) -> Result<(), NoMemory>
    ensures { IfOk result (λ _. shifts.new.items ≡ shifts.old.items ++ cons_option shift []) }
{
    if let Some(s) = shift {
        shifts.push(s)?;
    }
    Ok(())
}

/// The shift of the edge of a pair, where the edge is one of the forest: in each round the sum of the
/// demands below its child, or where the child is the larger end, minus that sum.
fn edge_shift(
    alloc: Global,
    net: &Net,
    forest: &Forest,
    sums: &[Word],
    pair: &PairKey,
) -> Result<Option<Shift>, NoMemory>
    requires words { net.now.words ≤ most_words }
    requires forest { IsForestOf (key_graph net.now) forest.now }
    requires sums { length sums.now ≡ net.now.words * net.now.stations }
    requires ends { (pair.now.u < net.now.stations) × (pair.now.v < net.now.stations) }
    ensures { IfOk result (λ shift.
        shift ≡ edge_shift_of (key_graph net.now) net.now.words sums.now pair.now) }
{
    match child_end(net, forest, pair) {
        None => Ok(None),
        Some(child) => {
            let words = edge_words(alloc, net, sums, child, child == pair.u)?;
            Ok(Some(Shift {
                u: pair.u,
                v: pair.v,
                words: Words::from_vec(words),
            }))
        }
    }
}

/// The end of an edge whose parent is the other end.
fn child_end(net: &Net, forest: &Forest, pair: &PairKey) -> Option<u16>
    requires forest { IsForestOf (key_graph net.now) forest.now }
    requires ends { (pair.now.u < net.now.stations) × (pair.now.v < net.now.stations) }
    ensures { result ≡ child_end_of (parents (key_graph net.now)) pair.now }
{
    if is_parent(net, forest, pair.v, pair.u) {
        Some(pair.u)
    } else if is_parent(net, forest, pair.u, pair.v) {
        Some(pair.v)
    } else {
        None
    }
}

/// Whether a station is the parent of another.
fn is_parent(net: &Net, forest: &Forest, u: u16, child: u16) -> bool
    requires forest { IsForestOf (key_graph net.now) forest.now }
    requires child { child < net.now.stations }
    ensures { result ≡ is_parent_of (parents (key_graph net.now)) u child }
{
    match forest.parent(child) {
        Some(parent) => u == parent,
        None => false,
    }
}

/// For each round the word at the place of the child, or minus that word.
fn edge_words(
    alloc: Global,
    net: &Net,
    sums: &[Word],
    child: u16,
    adds: bool,
) -> Result<Vec<Word>, NoMemory>
    requires sums { length sums.now ≡ net.now.words * net.now.stations }
    requires child { child < net.now.stations }
    ensures { IfOk result (λ v.
        v.items ≡ edge_words_of net.now.words net.now.stations child adds sums.now) }
{
    let n = usize::from(net.graph.stations());
    let rounds = usize::from(net.words);
    let mut words = Vec::with_capacity(alloc, rounds)?;
    for t in 0..rounds {
        words.push(signed(&sums[t * n + usize::from(child)], adds))?;
    }
    Ok(words)
}

/// A word, or where it is to be subtracted, minus that word.
fn signed(w: &Word, adds: bool) -> Word
    ensures { result ≡ signed_word adds w.now }
{
    if adds { *w } else { Word::zero().sub(w) }
}

/// A copy of a pair, with a shift added to its first pads.
fn shifted_pair(alloc: Global, pair: &PairKey, shift: &Option<Shift>) -> Result<PairKey, NoMemory>
    requires { (s : ShiftValue) → shift.now ≡ Some s → length pair.now.a ≡ 16 * length s.words }
    ensures { IfOk result (λ p. p ≡ with_shift shift.now pair.now) }
{
    match shift {
        None => pair.try_clone(alloc),
        Some(s) => {
            let first = shifted_pads(alloc, pair.a.as_slice(), s.words.as_slice())?;
            let second = Vec::from_slice(alloc, pair.b.as_slice())?;
            Ok(PairKey {
                u: pair.u,
                v: pair.v,
                a: Syms::from_vec(first),
                b: Syms::from_vec(second),
            })
        }
    }
}

/// Pads with the symbols of words added, sixteen of them for each word.
fn shifted_pads(alloc: Global, pads: &[u32], words: &[Word]) -> Result<Vec<u32>, NoMemory>
    requires count { length pads.now ≡ 16 * length words.now }
    requires symbols { All IsSymbol pads.now }
    ensures value { IfOk result (λ v. v.items ≡ pads_add pads.now (symbols words.now)) }
    ensures count { IfOk result (λ v. length v.items ≡ length pads.now) }
    ensures symbols { IfOk result (λ v. All IsSymbol v.items) }
{
    let mut shifted = Vec::with_capacity(alloc, pads.len())?;
    for n in 0..pads.len() {
        let numbers = words[n / 16].numbers();
        shifted.push(below_modulus(pads[n] + numbers[n % 16]))?;
    }
    Ok(shifted)
}

/// A number below twice 65537, modulo 65537.
fn below_modulus(x: u32) -> u32
    requires { x < 131074 }
    ensures { result ≡ x % 65537 }
{
    if x < 65537 { x } else { x - 65537 }
}
