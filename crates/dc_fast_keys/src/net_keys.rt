//! The keys of all stations of a net.

ghost use Rattle.std.specs.Prelude.{◌≡◌, ◌+◌, ◌<◌, ◌≤◌, ◌∷◌, ◌++◌, [], ℕ, List, length, slice_index_or, IfOk};
ghost use Rattle.dc_spec.specs.Limits.{most_words};
ghost use Rattle.dc_spec.specs.Pads.{Keys};
ghost use Rattle.dc_formats.specs.KeyFile.{IsKeys};
ghost use Rattle.dc_key_rules.specs.PairKeys.{key_part};
ghost use Rattle.dc_keys.specs.StationPads.{StationPads, station_pads, station_key};
ghost use Rattle.dc_fast_keys.specs.NetKeys.{StandsFor};

use crate::rows::read_word;
use crate::spectrum::{Spectrum, spectra_of};
use crate::table::Table;
use crate::walk::{level_of, levels_of, power_of};
use dc_field::{NoMemory, Word};
use dc_keys::{SummedPads, summed_pads_law};
use dc_transform::Roots;
use std::alloc::Global;
use std::marker::Model;

/// What the keys of all stations of a net add to their words, word by word, for a session of 1 to
/// 4096 words. Each station may receive words of its own.
///
/// Each station has a sum for each symbol of the session. After some words take the last 2^level of
/// them, where 2^level is the greatest power of two that divides their number: the products of their
/// symbols with second pads are added to the sums of the next 2^level rounds, by one product of
/// polynomials per station. The polynomials of all stations stand side by side.
#[derive(Drop)]
pub struct NetKeys {
    stations: usize,
    words: usize,
    roots: Roots,
    spectra: Vec<Spectrum>,
    sums: Table,
    received: Table,
    work: Table,
    taken: usize,
}

impl Model for NetKeys {
    ghost use Rattle.dc_fast_keys.specs.NetKeys.{KeysState, IsNetKeys};

    ghost Value = { KeysState };

    ghost view = { λ k. record {
      stations = k.stations;
      words = k.words;
      spectra = k.spectra.items;
      sums = k.sums;
      received = k.received;
      taken = k.taken;
    } };

    ghost invariant = { λ k. IsNetKeys (record {
      stations = k.stations;
      words = k.words;
      spectra = k.spectra.items;
      sums = k.sums;
      received = k.received;
      taken = k.taken;
    }) k.work };
}

impl NetKeys {
    /// The keys of all stations before the first round, by the summed pads of each, for a session of
    /// `words` words. Pads that a station lacks count as 0. It takes all memory of the session.
    pub fn start(alloc: Global, pads: &[SummedPads], words: u16) -> Result<NetKeys, NoMemory>
        requires few { length pads.now ≤ 256 }
        requires some { 1 ≤ words }
        requires most { words ≤ most_words }
        ensures stands { IfOk result (λ k. (s : ℕ) (none : StationPads) → s < length pads.now →
            StandsFor k s (slice_index_or pads.now s none) []) }
        ensures stations { IfOk result (λ k. k.stations ≡ length pads.now) }
        ensures words { IfOk result (λ k. k.words ≡ words) }
        ensures none_taken { IfOk result (λ k. k.taken ≡ 0) }
    {
        let words = usize::from(words);
        let roots = Roots::start(alloc)?;
        let levels = levels_of(words);
        let spectra = spectra_of(alloc, &roots, levels, pads)?;
        let sums = Table::of_first(alloc, 16 * words, pads)?;
        let received = Table::zeros(alloc, pads.len() * (16 * words))?;
        let work = Table::zeros(alloc, (pads.len() + 1) * (16 * power_of(levels)))?;
        Ok(NetKeys {
            stations: pads.len(),
            words,
            roots,
            spectra,
            sums,
            received,
            work,
            taken: 0,
        })
    }

    /// How many stations there are.
    pub fn stations(&self) -> usize
        ensures { result ≡ self.now.stations }
    {
        self.stations
    }

    /// How many words can still be taken.
    pub fn words_left(&self) -> usize
        ensures { result + self.now.taken ≡ self.now.words }
    {
        self.words - self.taken
    }

    /// The signed sum of a station's keys for the word that follows the words taken.
    pub fn word(&self, station: usize) -> Word
        requires station { station < self.now.stations }
        requires taken { self.now.taken < self.now.words }
        ensures summed { (pads : StationPads) (history : List (List ℕ)) →
            StandsFor self.now station pads history → result ≡ station_key pads history }
        ensures pairs { (keys : Keys) (history : List (List ℕ)) → IsKeys keys →
            StandsFor self.now station (station_pads keys station) history → length history < keys.words →
            result ≡ key_part keys.pairs station history }
    {
        summed_pads_law();
        let from = self.stations * (16 * self.taken);
        let rows = &self.sums.as_slice()[from..from + self.stations * 16];
        read_word(rows, self.stations, station)
    }

    /// Takes the words that the stations received, one for each. Takes no memory.
    pub fn take(&mut self, words: &[Word])
        requires one_each { length words.now ≡ self.old.stations }
        requires taken { self.old.taken < self.old.words }
        ensures counted { self.new.taken ≡ self.old.taken + 1 }
        ensures stations { self.new.stations ≡ self.old.stations }
        ensures words { self.new.words ≡ self.old.words }
        ensures stands { (s : ℕ) (pads : StationPads) (history : List (List ℕ)) → s < self.old.stations →
            StandsFor self.old s pads history →
            StandsFor self.new s pads (history ++ slice_index_or words.now s [] ∷ []) }
    {
        let row = self.stations * 16;
        let at = self.stations * (16 * self.taken);
        self.received.write_words(at, words);
        self.taken += 1;
        if self.taken == self.words {
            return;
        }
        let level = level_of(12, self.taken);
        self.sums.carry_block(
            &self.roots,
            self.stations,
            level + 5,
            self.spectra[level].as_slice(),
            self.received.as_slice(),
            (row * power_of(level), at + row),
            &mut self.work,
        );
    }
}
