//! The first fault of a list of images.

ghost use Rattle.std.specs.Prelude.{◌≡◌, ◌<◌, ◌||◌, not, nat_lt, false, ℕ, List, length, map, filter, slice_index_or, bytes_eq, All, IfOk};
ghost use Rattle.std.specs.List.{range_with_len};
ghost use Rattle.dc_spec.specs.Lists.{is_among};
ghost use Rattle.dc_graph_rules.specs.Graphs.{key_graph};
ghost use Rattle.dc_graph.specs.Forest.{IsForestOf};
ghost use Rattle.dc_net_rules.specs.Runs.{run_of};
ghost use Rattle.dc_twin.specs.Faults.{count_fault as count_fault_of, place_fault as place_fault_of, joined_fault as joined_fault_of, first_unlike as first_unlike_of, alike_fault as alike_fault_of, twin_fault as twin_fault_of};

use crate::columns::row;
use crate::fault::TwinFault;
use dc_field::{NoMemory, Word};
use dc_graph::{Coalition, Forest};
use dc_net::{Net, Played};
use std::alloc::Global;

/// The first fault of a list of images of the stations of a net.
pub(crate) fn twin_fault(
    alloc: Global,
    net: &Net,
    run: &Played,
    forest: &Forest,
    perm: &[u16],
) -> Result<Option<TwinFault>, NoMemory>
    requires run { run.now ≡ run_of net.now }
    requires forest { IsForestOf (key_graph net.now) forest.now }
    ensures { IfOk result (λ fault. fault ≡ twin_fault_of net.now perm.now) }
{
    let n = net.graph.stations();
    if let Some(fault) = count_fault(n, perm) {
        return Ok(Some(fault));
    }
    if let Some(fault) = place_fault(alloc, n, perm)? {
        return Ok(Some(fault));
    }
    if let Some(fault) = joined_fault(net, forest, perm) {
        return Ok(Some(fault));
    }
    alike_fault(alloc, net, run)
}

/// The fault of a list that does not have one image for each station.
fn count_fault(n: u16, perm: &[u16]) -> Option<TwinFault>
    ensures { result ≡ count_fault_of n perm.now }
{
    if perm.len() == usize::from(n) {
        return None;
    }
    let have = u32::try_from(perm.len()).unwrap_or(u32::MAX);
    Some(TwinFault::PermCount { have, need: n })
}

/// The first place whose number is no station or stood before. A flag for each station shows which
/// numbers stood before, so each number is looked at once.
fn place_fault(alloc: Global, n: u16, perm: &[u16]) -> Result<Option<TwinFault>, NoMemory>
    requires { length perm.now ≡ n }
    ensures { IfOk result (λ fault. fault ≡ place_fault_of n perm.now) }
{
    let mut seen = vec![in alloc; false; usize::from(n)]?;
    for k in 0..n {
        let image = usize::from(perm[usize::from(k)]);
        if is_past_or_seen(&seen, image) {
            return Ok(Some(TwinFault::Perm { place: k }));
        }
        seen[image] = true;
    }
    Ok(None)
}

/// Whether a number is past the last flag, or has its flag set.
fn is_past_or_seen(seen: &[bool], image: usize) -> bool
    ensures { result ≡ (not (nat_lt image (length seen.now)) || slice_index_or seen.now image false) }
{
    seen.len() <= image || seen[image]
}

/// The first station that is not joined with its image.
fn joined_fault(net: &Net, forest: &Forest, perm: &[u16]) -> Option<TwinFault>
    requires forest { IsForestOf (key_graph net.now) forest.now }
    requires count { length perm.now ≡ net.now.stations }
    requires stations { All (λ image. image < net.now.stations) perm.now }
    ensures { result ≡ joined_fault_of net.now perm.now }
{
    for i in 0..net.graph.stations() {
        let image = perm[usize::from(i)];
        if !forest.joined(i, image) {
            return Some(TwinFault::NotJoined { station: i, image });
        }
    }
    None
}

/// The first round in which the honest stations did not all receive one word.
fn alike_fault(alloc: Global, net: &Net, run: &Played) -> Result<Option<TwinFault>, NoMemory>
    requires { run.now ≡ run_of net.now }
    ensures { IfOk result (λ fault. fault ≡ alike_fault_of net.now) }
{
    let honest = honest_of(alloc, &net.coalition, net.graph.stations())?;
    let stations = honest.as_slice();
    let delivered = run.delivered.as_slice();
    for t in 0..net.words {
        let received = row(delivered, net.words, stations.len(), t);
        if let Some(ends) = first_unlike(stations, received) {
            return Ok(Some(TwinFault::NotAlike {
                round: t,
                first: ends.0,
                second: ends.1,
            }));
        }
    }
    Ok(None)
}

/// The stations that are no members, in rising order.
fn honest_of(alloc: Global, coalition: &Coalition, stations: u16) -> Result<Vec<u16>, NoMemory>
    ensures { IfOk result (λ v. v.items
        ≡ filter (λ i. not (is_among coalition.now i)) (range_with_len 0 stations)) }
{
    let mut honest = Vec::with_capacity(alloc, usize::from(stations))?;
    for i in 0..stations {
        if !coalition.holds(i) {
            honest.push(i)?;
        }
    }
    Ok(honest)
}

/// The first of some stations, and the first of the others that received another word. The words
/// are those of the stations, in their order.
fn first_unlike(stations: &[u16], words: &[Word]) -> Option<(u16, u16)>
    requires { length words.now ≡ length stations.now }
    ensures { (word : ℕ → List ℕ) → words.now ≡ map word stations.now →
        result ≡ first_unlike_of word stations.now }
{
    for j in 1..stations.len() {
        if !is_same(&words[0], &words[j]) {
            return Some((stations[0], stations[j]));
        }
    }
    None
}

/// Whether two words are the same.
fn is_same(v: &Word, w: &Word) -> bool
    ensures { result ≡ bytes_eq v.now w.now }
{
    v.numbers() == w.numbers()
}
