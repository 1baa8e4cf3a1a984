//! The keys of honest stations that follow one another.

ghost use Rattle.std.specs.Prelude.{◌≡◌, ◌<◌, ◌≤◌, ◌+◌, ◌∷◌, ◌++◌, [], ℕ, List, length, slice_index, slice_index_or, IfOk, map};
ghost use Rattle.dc_spec.specs.Pads.{Keys};
ghost use Rattle.dc_key_rules.specs.PairKeys.{key_part};
ghost use Rattle.dc_keys.specs.StationPads.{station_pads};
ghost use Rattle.dc_net.specs.KeyStrip.{stations_in, taken_in, total_in, StripStandsFor, TakesRow, TookRow};

use crate::key_part::KeyPart;
use dc_fast_keys::NetKeys;
use dc_field::{NoMemory, Word};
use dc_keys::{KeyFile, SummedPads, summed_pads_law};
use std::alloc::Global;

/// From how many words on products of polynomials are faster than masks.
pub(crate) const FAST_WORDS: u16 = 64;

/// How the keys of stations are computed.
#[derive(Drop)]
pub enum StripKeys {
    /// By the mask of one station.
    One(KeyPart),
    /// By products of polynomials, for many stations at once.
    Many(NetKeys),
}

impl StripKeys {
    /// The keys of these stations before the first round. It takes all memory of the session.
    pub fn start(alloc: Global, file: &KeyFile, stations: &[u16]) -> Result<StripKeys, NoMemory>
        requires few { length stations.now ≤ 256 }
        ensures stations { IfOk result (λ keys. stations_in keys ≡ length stations.now) }
        ensures taken { IfOk result (λ keys. taken_in keys ≡ 0) }
        ensures total { IfOk result (λ keys. total_in keys ≡ file.now.words) }
        ensures stands { IfOk result (λ keys. (s : ℕ) → s < length stations.now →
            StripStandsFor keys s file.now (slice_index stations.now s) []) }
    {
        if stations.len() == 1 && file.words < FAST_WORDS {
            let part = KeyPart::start(alloc, file, stations[0])?;
            return Ok(StripKeys::One(part));
        }
        let pads = pads_of(alloc, file, stations)?;
        let keys = NetKeys::start(alloc, &pads, file.words)?;
        Ok(StripKeys::Many(keys))
    }

    /// How many stations there are.
    pub fn stations(&self) -> usize
        ensures { result ≡ stations_in self.now }
    {
        match self {
            StripKeys::One(_) => 1,
            StripKeys::Many(keys) => keys.stations(),
        }
    }

    /// The keys in the next word of a station.
    pub fn word(&self, s: usize) -> Word
        requires station { s < stations_in self.now }
        requires left { taken_in self.now < total_in self.now }
        ensures { (keys : Keys) (station : ℕ) (received : List (List ℕ)) →
            StripStandsFor self.now s keys station received →
            result ≡ key_part keys.pairs station received }
    {
        summed_pads_law();
        match self {
            StripKeys::One(part) => part.word(),
            StripKeys::Many(keys) => keys.word(s),
        }
    }

    /// Takes the words that the stations received, one for each. Takes no memory.
    pub fn take(&mut self, words: &[Word])
        requires one_each { length words.now ≡ stations_in self.old }
        requires left { taken_in self.old < total_in self.old }
        ensures stations { stations_in self.new ≡ stations_in self.old }
        ensures taken { taken_in self.new ≡ taken_in self.old + 1 }
        ensures total { total_in self.new ≡ total_in self.old }
        ensures stands { (s : ℕ) (keys : Keys) (station : ℕ) (received : List (List ℕ)) →
            s < stations_in self.old → StripStandsFor self.old s keys station received →
            StripStandsFor self.new s keys station (received ++ slice_index_or words.now s [] ∷ []) }
    {
        match self {
            StripKeys::One(part) => part.take(&words[0]),
            StripKeys::Many(keys) => keys.take(words),
        }
    }
}

/// The pads of stations, in order.
fn pads_of(alloc: Global, file: &KeyFile, stations: &[u16]) -> Result<Vec<SummedPads>, NoMemory>
    ensures { IfOk result (λ pads. pads.items ≡ map (station_pads file.now) stations.now) }
{
    let mut pads = Vec::with_capacity(alloc, stations.len())?;
    for station in stations {
        pads.push_reserved(SummedPads::of(alloc, file, *station)?);
    }
    Ok(pads)
}

/// The keys of honest stations, and the place of the first of them among all honest stations.
#[derive(Drop)]
pub struct KeyStrip {
    /// The place of the first station.
    pub first: usize,
    /// The keys of the stations at this place and after it.
    pub keys: StripKeys,
}

impl KeyStrip {
    /// Takes the words of its stations from a row with a word for each honest station. Takes no
    /// memory.
    pub fn take(&mut self, row: &[Word])
        requires { TakesRow row.now self.old }
        ensures { TookRow row.now self.old self.new }
    {
        let end = self.first + self.keys.stations();
        self.keys.take(&row[self.first..end]);
    }
}
