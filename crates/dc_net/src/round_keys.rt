//! The keys of all honest stations, round after round.

ghost use Rattle.std.specs.Prelude.{◌≡◌, ◌<◌, ◌≤◌, ◌+◌, ◌*◌, ◌∷◌, ◌++◌, [], ℕ, List, length, slice_index, slice_index_or, IfOk, All};
ghost use Rattle.dc_spec.specs.Pads.{Keys};
ghost use Rattle.dc_key_rules.specs.PairKeys.{key_part};
ghost use Rattle.dc_net.specs.KeyStrip.{TakesRow, TookRow, AllTookRow};
ghost use Rattle.dc_net.specs.RoundKeys.{KeysAt, IsNewStrip, AreNewStrips};

use crate::key_strip::{FAST_WORDS, KeyStrip, StripKeys};
use dc_field::{NoMemory, Word};
use dc_keys::KeyFile;
use std::alloc::Global;
use std::marker::Model;
use std::thread;
use std::thread::Threads;

/// How many stations stand side by side in one product of polynomials.
const STRIP_STATIONS: usize = 16;

/// After each so many rounds there is enough to compute for several threads.
const THREAD_ROUNDS: usize = 8;

/// What the keys of each honest station add to its next word. The stations are known by their
/// places, in rising order, and stand in strips of `width` places. All memory is taken at the start.
#[derive(Drop)]
pub struct RoundKeys {
    width: usize,
    places: usize,
    taken: usize,
    total: usize,
    strips: Vec<KeyStrip>,
}

impl Model for RoundKeys {
    ghost use Rattle.dc_net.specs.RoundKeys.{RoundKeysState, AreRoundKeys};

    ghost Value = { RoundKeysState };

    ghost view = { λ k. record {
      width = k.width;
      places = k.places;
      taken = k.taken;
      total = k.total;
      strips = k.strips.items;
    } };

    ghost invariant = { λ k. AreRoundKeys (record {
      width = k.width;
      places = k.places;
      taken = k.taken;
      total = k.total;
      strips = k.strips.items;
    }) };
}

impl RoundKeys {
    /// The keys of these stations before the first round.
    pub fn start(alloc: Global, file: &KeyFile, stations: &[u16]) -> Result<RoundKeys, NoMemory>
        requires few { length stations.now ≤ 65535 }
        ensures places { IfOk result (λ k. k.places ≡ length stations.now) }
        ensures taken { IfOk result (λ k. k.taken ≡ 0) }
        ensures total { IfOk result (λ k. k.total ≡ file.now.words) }
        ensures keyed { IfOk result (λ k. (j : ℕ) → j < length stations.now →
            KeysAt k j file.now (slice_index stations.now j) []) }
    {
        let width = width_for(file.words);
        let strips = strips_of(alloc, file, stations, width)?;
        Ok(RoundKeys {
            width,
            places: stations.len(),
            taken: 0,
            total: usize::from(file.words),
            strips,
        })
    }

    /// The keys in the next word of the station at a place. After the last round it is the zero word.
    pub fn word(&self, place: usize) -> Word
        requires { place < self.now.places }
        ensures { (keys : Keys) (station : ℕ) (received : List (List ℕ)) →
            KeysAt self.now place keys station received → length received < keys.words →
            result ≡ key_part keys.pairs station received }
    {
        if self.taken < self.total {
            let strip = &self.strips[place / self.width];
            strip.keys.word(place % self.width)
        } else {
            Word::zero()
        }
    }

    /// Takes the words of a round, one for each place, with several workers on threads where there is
    /// much to compute. Takes no memory.
    pub fn take<R: Threads + Sync>(&mut self, rt: &R, workers: u32, row: &[Word])
        requires some { 1 ≤ workers }
        requires one_each { length row.now ≡ self.old.places }
        requires left { self.old.taken < self.old.total }
        ensures places { self.new.places ≡ self.old.places }
        ensures taken { self.new.taken ≡ self.old.taken + 1 }
        ensures total { self.new.total ≡ self.old.total }
        ensures stands { (place : ℕ) (keys : Keys) (station : ℕ) (received : List (List ℕ)) →
            KeysAt self.old place keys station received →
            KeysAt self.new place keys station (received ++ slice_index_or row.now place [] ∷ []) }
    {
        self.taken += 1;
        let threads = threads_after(self.taken, workers);
        take_by_all(rt, threads as usize, &mut self.strips, row);
    }
}

/// How many of the workers are started after so many rounds: all of them after each eight, when the
/// most is computed, and else one, since their start costs more than they save.
pub(crate) fn threads_after(rounds: usize, workers: u32) -> u32
    requires { 1 ≤ workers }
    ensures some { 1 ≤ result }
    ensures most { result ≤ workers }
{
    if rounds % THREAD_ROUNDS == 0 {
        workers
    } else {
        1
    }
}

/// How many stations a strip has in a session of so many words.
fn width_for(words: u16) -> usize
    ensures some { 1 ≤ result }
    ensures few { result ≤ 16 }
{
    if words < FAST_WORDS {
        1
    } else {
        STRIP_STATIONS
    }
}

/// The strips of stations before the first round.
fn strips_of(
    alloc: Global,
    file: &KeyFile,
    stations: &[u16],
    width: usize,
) -> Result<Vec<KeyStrip>, NoMemory>
    requires some { 1 ≤ width }
    requires narrow { width ≤ 16 }
    requires few { length stations.now ≤ 65535 }
    ensures { IfOk result (λ strips. AreNewStrips strips.items file.now stations.now width) }
{
    let count = stations.len().div_ceil(width);
    let mut strips = Vec::with_capacity(alloc, count)?;
    for number in 0..count {
        strips.push_reserved(strip_of(alloc, file, stations, width, number)?);
    }
    Ok(strips)
}

/// The strip of this number before the first round.
fn strip_of(
    alloc: Global,
    file: &KeyFile,
    stations: &[u16],
    width: usize,
    number: usize,
) -> Result<KeyStrip, NoMemory>
    requires some { 1 ≤ width }
    requires narrow { width ≤ 16 }
    requires few { length stations.now ≤ 65535 }
    requires begins { number * width < length stations.now }
    ensures { IfOk result (λ strip. IsNewStrip strip file.now stations.now width number) }
{
    let first = number * width;
    let end = stations.len().min(first + width);
    let keys = StripKeys::start(alloc, file, &stations[first..end])?;
    Ok(KeyStrip { first, keys })
}

/// Each strip takes its words of a row, on at most so many threads; in place where it is one.
fn take_by_all<R: Threads + Sync>(rt: &R, threads: usize, strips: &mut [KeyStrip], row: &[Word])
    requires some { 1 ≤ threads }
    requires next { All (TakesRow row.now) strips.old }
    ensures { AllTookRow row.now strips.old strips.new }
{
    if threads == 1 {
        take_in_turn(strips, row);
    } else {
        take_on_threads(rt, threads, strips, row);
    }
}

/// As `take_by_all`, in place.
fn take_in_turn(strips: &mut [KeyStrip], row: &[Word])
    requires { All (TakesRow row.now) strips.old }
    ensures { AllTookRow row.now strips.old strips.new }
{
    for strip in strips {
        strip.take(row);
    }
}

/// As `take_by_all`, on threads.
fn take_on_threads<R: Threads + Sync>(rt: &R, threads: usize, strips: &mut [KeyStrip], row: &[Word])
    requires some { 1 ≤ threads }
    requires next { All (TakesRow row.now) strips.old }
    ensures { AllTookRow row.now strips.old strips.new }
{
    thread::for_each_mut(
        rt,
        strips,
        threads,
        &|_: usize, strip: &mut KeyStrip|
            requires { TakesRow row.now strip.old }
            ensures { TookRow row.entry.now strip.old strip.new }
        { strip.take(row) },
    );
}
