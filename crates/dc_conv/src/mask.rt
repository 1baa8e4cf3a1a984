//! What the keys of a station add to its words.

ghost use Rattle.std.specs.Prelude.{◌≡◌, ◌+◌, ◌<◌, ◌∷◌, ◌++◌, [], ℕ, List, IfOk};
ghost use Rattle.dc_spec.specs.Pads.{Keys};
ghost use Rattle.dc_key_rules.specs.PairKeys.{key_part};
ghost use Rattle.dc_formats.specs.KeyFile.{IsKeys};
ghost use Rattle.dc_keys.specs.StationPads.{StationPads, station_pads, station_key};
ghost use Rattle.dc_conv.specs.Mask.{StandsFor, session_words};

use crate::accumulators::Accumulators;
use crate::adding::add_words;
use crate::block::Block;
use dc_field::{NoMemory, Syms, Word};
use dc_keys::{SummedPads, reduced};
use std::alloc::Global;
use std::marker::Model;

/// The keys of a station, word by word, for a session of T words. When 32 received words are there,
/// their contributions are added to the sums of all later symbols, and the words are dropped. All
/// memory is taken at the start.
#[derive(Drop)]
pub struct Mask {
    /// The summed second pads, `16 * T` symbols.
    pub second: Syms,
    /// For each of the `16 * T` symbols of the session the summed first pad and the contributions
    /// of the full blocks before it, as a whole number that is reduced only when it is read.
    pub sums: Accumulators,
    /// The words taken since the last full block, `taken` modulo 32.
    pub block: Block,
    /// How many words were taken, at most T.
    pub taken: u16,
}

impl Model for Mask {
    ghost use Rattle.dc_conv.specs.Mask.{MaskState, IsMask};

    ghost Value = { MaskState };

    ghost view = { λ m. record { second = m.second; sums = m.sums; block = m.block; taken = m.taken } };

    ghost invariant = { λ m. IsMask (record { second = m.second; sums = m.sums; block = m.block; taken = m.taken }) };
}

impl Mask {
    /// A mask that has taken no word yet. It takes all memory of the session.
    pub fn start(alloc: Global, pads: SummedPads) -> Result<Mask, NoMemory>
        ensures { IfOk result (λ m. StandsFor m pads []) }
    {
        let sums = Accumulators::of_pads(alloc, pads.first.as_slice())?;
        let block = Block::start(alloc)?;
        Ok(Mask {
            second: pads.second,
            sums,
            block,
            taken: 0,
        })
    }

    /// The signed sum of the station's keys for the word that follows the words taken.
    pub fn word(&self) -> Word
        requires { self.now.taken < session_words self.now }
        ensures summed { (pads : StationPads) (history : List (List ℕ)) → StandsFor self.now pads history → result ≡ station_key pads history }
        ensures pairs { (keys : Keys) (me : ℕ) (history : List (List ℕ)) → IsKeys keys → StandsFor self.now (station_pads keys me) history → result ≡ key_part keys.pairs me history }
    {
        let at = 16 * usize::from(self.taken);
        let mut totals = [0u64; 16];
        totals.copy_from_slice(&self.sums.as_slice()[at..at + 16]);
        add_words(&mut totals, self.second.as_slice(), self.block.as_slice());
        reduced(&totals)
    }

    /// Takes the next received word. Takes no memory.
    pub fn take(&mut self, w: &Word)
        requires { self.old.taken < session_words self.old }
        ensures counted { self.new.taken ≡ self.old.taken + 1 }
        ensures same_pads { self.new.second ≡ self.old.second }
        ensures stands { (pads : StationPads) (history : List (List ℕ)) → StandsFor self.old pads history → StandsFor self.new pads (history ++ w.now ∷ []) }
    {
        self.block.push(w);
        self.taken += 1;
        if !self.block.is_full() {
            return;
        }
        let later = 16 * usize::from(self.taken);
        self.sums
            .add_from(later, self.second.as_slice(), self.block.as_slice());
        self.block.clear();
    }
}

/// Takes any value whose type may be sent to another thread and shared with it.
fn needs_threads<T: Send + Sync>(_value: &T) {}

/// A mask may be sent to another thread and shared with it.
fn mask_meets_threads(mask: &Mask) {
    needs_threads(mask);
}
