//! The demands of all stations.

ghost use Rattle.std.specs.Prelude.{◌≡◌, ◌≢◌, ◌<◌, ◌≤◌, ℕ, false, length, map, slice_index, IfOk, All, AllPairs};
ghost use Rattle.std.specs.List.{flat_map, range_with_len};
ghost use Rattle.dc_spec.specs.Limits.{most_stations, most_words};
ghost use Rattle.dc_spec.specs.Lists.{is_among};
ghost use Rattle.dc_net_rules.specs.Runs.{honest_stations, run_of, station_stream};
ghost use Rattle.dc_net.specs.Checked.{IsChecked};
ghost use Rattle.dc_net.specs.Changed.{PermutesHonest};
ghost use Rattle.dc_twin_rules.specs.Twins.{demands as demands_by_round};
ghost use Rattle.dc_twin.specs.Demands.{stream_demands, station_demands as demands_of};

use crate::columns::{rows_of, words_at};
use crate::station_demands::station_demands;
use dc_field::{NoMemory, Word, Words};
use dc_graph::Perm;
use dc_net::{CheckedNet, Net, Played};
use dc_stream::Stream;
use std::alloc::Global;

/// What a net and its twin by a permutation differ in, before the pads are shifted: for each of T
/// rounds a word for each of n stations, that of station `i` in round `t` at `t * n + i`. For an
/// honest station it is its plain word minus the one that its new stream gives after the same
/// received words; for a member it is the zero word. The image of a member is the member itself. The
/// run of the twin is never made.
pub fn demands(
    alloc: Global,
    net: &CheckedNet,
    run: &Played,
    perm: &Perm,
) -> Result<Words, NoMemory>
    requires run { run.now ≡ run_of net.now }
    requires permutation { PermutesHonest net.now perm.now }
    ensures { IfOk result (λ words.
        words ≡ flat_map (λ row. row) (demands_by_round net.now perm.now)) }
{
    let net = net.net();
    let columns = demand_columns(alloc, net, run, perm.as_slice())?;
    rows_of(alloc, &columns, net.graph.stations(), net.words)
}

/// The demands of each station, round by round; a member has none.
fn demand_columns(
    alloc: Global,
    net: &Net,
    run: &Played,
    perm: &[u16],
) -> Result<Vec<Words>, NoMemory>
    requires checked { IsChecked net.now }
    requires run { run.now ≡ run_of net.now }
    requires permutation { PermutesHonest net.now perm.now }
    ensures { IfOk result (λ columns.
        columns.items ≡ map (demands_of net.now perm.now) (range_with_len 0 net.now.stations)) }
{
    let stations = net.graph.stations();
    let origins = origins_of(alloc, perm)?;
    let count = honest_count(net);
    let words = session_words(net);
    let mut place = 0;
    let mut columns = Vec::with_capacity(alloc, usize::from(stations))?;
    for i in 0..stations {
        if net.coalition.holds(i) {
            columns.push(Words::from_vec(Vec::new(alloc)))?;
        } else {
            let delivered = run.delivered.as_slice();
            let received = words_at(alloc, delivered, words, count, place)?;
            let origin = origins[usize::from(i)];
            columns.push(column(alloc, net, i, origin, &received)?)?;
            place += 1;
        }
    }
    Ok(columns)
}

/// The number of honest stations.
fn honest_count(net: &Net) -> usize
    ensures { result ≡ length (honest_stations net.now) }
{
    let coalition = &net.coalition;
    (0..net.graph.stations())
        .filter(|i| !coalition.holds(*i))
        .count()
}

/// The number of words of the session.
fn session_words(net: &Net) -> u16
    requires { IsChecked net.now }
    ensures value { result ≡ net.now.words }
    ensures some { 1 ≤ result }
    ensures most { result ≤ most_words }
{
    let keys = &net.keys;
    keys.words
}

/// The demands of an honest station, after it received these words. The origin is the station whose
/// image it is.
fn column(
    alloc: Global,
    net: &Net,
    i: u16,
    origin: u16,
    received: &[Word],
) -> Result<Words, NoMemory>
    requires checked { IsChecked net.now }
    requires station { (i < net.now.stations) × (is_among net.now.coalition i ≡ false) }
    requires origin { (origin < net.now.stations) × (is_among net.now.coalition origin ≡ false) }
    requires received { (1 ≤ length received.now) × (length received.now ≤ most_words) }
    ensures { IfOk result (λ c. c ≡ stream_demands (station_stream net.now i)
        (station_stream net.now origin) received.now) }
{
    let own = stream_of(net, i);
    let other = stream_of(net, origin);
    Ok(Words::from_vec(station_demands(alloc, own, other, received)?))
}

/// The stream of an honest station.
fn stream_of(net: &Net, i: u16) -> &Stream
    requires checked { IsChecked net.now }
    requires station { i < net.now.stations }
    requires honest { is_among net.now.coalition i ≡ false }
    ensures { result.now ≡ station_stream net.now i }
{
    net.streams.as_slice()[usize::from(i)].as_ref().unwrap()
}

/// For each station the station whose image it is, by a permutation of so many stations.
fn origins_of(alloc: Global, perm: &[u16]) -> Result<Vec<u16>, NoMemory>
    requires few { length perm.now ≤ most_stations }
    requires stations { All (λ image. image < length perm.now) perm.now }
    requires distinct { AllPairs (λ i j. i ≢ j) perm.now }
    ensures count { IfOk result (λ v. length v.items ≡ length perm.now) }
    ensures origins { IfOk result (λ v. (k : ℕ) → k < length perm.now →
        slice_index v.items (slice_index perm.now k) ≡ k) }
{
    let mut origins = vec![in alloc; 0u16; perm.len()]?;
    for k in 0..perm.len() {
        origins[usize::from(perm[k])] = k as u16;
    }
    Ok(origins)
}
