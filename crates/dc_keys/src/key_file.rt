//! Key files: the pads of all pairs of a session.

ghost use Rattle.std.specs.Prelude.{◌≡◌, ◌↔◌, IsTrue, IfOk, SomeIff};
ghost use Rattle.dc_formats.specs.KeyFile.{IsKeys, IsPair, AreEndsBefore};

use crate::pair_key::{PairKey, Pairs};
use dc_field::{MOST_PADS, MOST_STATIONS, MOST_WORDS, NoMemory};
use std::alloc::Global;
use std::marker::Model;

/// The pairs that share pads in a session, each once, in rising order of their ends. All pads
/// together are at most 2^26 symbols. The limits are this project's own.
#[derive(Drop)]
pub struct KeyFile {
    /// The number of stations of the session, 1 to 256.
    pub stations: u16,
    /// The number of words (one a round) of the session, 1 to 4096.
    pub words: u16,
    /// The pairs, each with its smaller end first, and with sixteen first and sixteen second pads a
    /// word.
    pub pairs: Pairs,
}

impl Model for KeyFile {
    ghost use Rattle.dc_spec.specs.Pads.{Keys};
    ghost use Rattle.dc_formats.specs.KeyFile.{IsKeys};

    ghost Value = { Keys };

    ghost view = { λ f. record { stations = f.stations; words = f.words; pairs = f.pairs } };

    ghost invariant = { λ f. IsKeys (record { stations = f.stations; words = f.words; pairs = f.pairs }) };
}

impl KeyFile {
    /// The key file of these parts; `None` exactly where they break a rule of key files.
    pub fn new(stations: u16, words: u16, pairs: Pairs) -> Option<KeyFile>
        ensures { SomeIff result (IsKeys (record { stations = stations; words = words; pairs = pairs })) (record { stations = stations; words = words; pairs = pairs }) }
    {
        if are_keys(stations, words, pairs.as_slice()) {
            Some(KeyFile {
                stations,
                words,
                pairs,
            })
        } else {
            None
        }
    }

    /// A copy of the key file.
    pub fn copy(&self, alloc: Global) -> Result<KeyFile, NoMemory>
        ensures { IfOk result (λ f. f ≡ self.now) }
    {
        let pairs = self.pairs.copy_each(alloc)?;
        Ok(KeyFile {
            stations: self.stations,
            words: self.words,
            pairs,
        })
    }
}

/// Whether these parts keep all rules of key files.
fn are_keys(stations: u16, words: u16, pairs: &[PairKey]) -> bool
    ensures { IsTrue result ↔ IsKeys (record { stations = stations; words = words; pairs = pairs.now }) }
{
    if stations < 1 || MOST_STATIONS < stations || words < 1 || MOST_WORDS < words {
        return false;
    }
    if MOST_PADS / (32 * usize::from(words)) < pairs.len() {
        return false;
    }
    for i in 0..pairs.len() {
        if !is_pair(stations, words, &pairs[i]) {
            return false;
        }
        if 0 < i && !is_before(&pairs[i - 1], &pairs[i]) {
            return false;
        }
    }
    true
}

/// Whether the ends of a pair rise and are below the number of stations, and whether it has pads
/// for so many words.
fn is_pair(stations: u16, words: u16, pair: &PairKey) -> bool
    ensures { IsTrue result ↔ IsPair stations words pair.now }
{
    let pads = 16 * usize::from(words);
    pair.u < pair.v
        && pair.v < stations
        && pair.a.as_slice().len() == pads
        && pair.b.as_slice().len() == pads
}

/// Whether a pair comes before another by its ends.
fn is_before(p: &PairKey, q: &PairKey) -> bool
    ensures { IsTrue result ↔ AreEndsBefore (p.now.u, p.now.v) (q.now.u, q.now.v) }
{
    p.u < q.u || (p.u == q.u && p.v < q.v)
}
