//! What the keys of a station add to its next word, by its mask.

ghost use Rattle.std.specs.Prelude.{◌≡◌, ◌<◌, ◌+◌, ◌∷◌, ◌++◌, [], ℕ, List, IfOk};
ghost use Rattle.dc_spec.specs.Pads.{Keys};
ghost use Rattle.dc_key_rules.specs.PairKeys.{key_part};
ghost use Rattle.dc_net.specs.KeyPart.{KeyStandsFor};

use dc_conv::Mask;
use dc_field::{NoMemory, Word};
use dc_keys::{KeyFile, SummedPads};
use std::alloc::Global;
use std::marker::Model;

/// The signed sum of a station's pair keys, word by word. All memory is taken at the start.
#[derive(Drop)]
pub struct KeyPart {
    mask: Mask,
}

impl Model for KeyPart {
    ghost use Rattle.dc_conv.specs.Mask.{session_words};
    ghost use Rattle.dc_net.specs.KeyPart.{KeyState};

    ghost Value = { KeyState };

    ghost view = { λ k. record { taken = k.mask.taken; total = session_words k.mask; mask = k.mask } };
}

impl KeyPart {
    /// The keys of a station before the first round.
    pub fn start(alloc: Global, file: &KeyFile, station: u16) -> Result<KeyPart, NoMemory>
        ensures { IfOk result (λ part. KeyStandsFor part file.now station []) }
    {
        let _words = file.words;
        let pads = SummedPads::of(alloc, file, station)?;
        let mask = Mask::start(alloc, pads)?;
        Ok(KeyPart { mask })
    }

    /// The keys in the word of the next round.
    pub fn word(&self) -> Word
        requires { self.now.taken < self.now.total }
        ensures { (keys : Keys) (station : ℕ) (received : List (List ℕ)) →
            KeyStandsFor self.now keys station received →
            result ≡ key_part keys.pairs station received }
    {
        self.mask.word()
    }

    /// Takes the word that the station received. Takes no memory.
    pub fn take(&mut self, w: &Word)
        requires { self.old.taken < self.old.total }
        ensures taken { self.new.taken ≡ self.old.taken + 1 }
        ensures total { self.new.total ≡ self.old.total }
        ensures stands { (keys : Keys) (station : ℕ) (received : List (List ℕ)) →
            KeyStandsFor self.old keys station received →
            KeyStandsFor self.new keys station (received ++ w.now ∷ []) }
    {
        self.mask.take(w);
    }
}
