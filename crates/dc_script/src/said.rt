//! A station with a word, by a rule.

ghost use Rattle.std.specs.Prelude.{◌≡◌};

use crate::term::Terms;
use dc_field::{Items, NoMemory, TryClone, Word};
use std::alloc::Global;
use std::marker::Model;

/// A word that a station says, or that is dealt to a station: a constant word, and the terms that
/// are added to it. Contracts see the protocol's record of it.
#[derive(Debug, Drop)]
pub struct Said {
    /// The station's number.
    pub station: u16,
    /// The constant word.
    pub word: Word,
    /// What is added to it; none in version 1.
    pub terms: Terms,
}

/// Stations with a word each. In a script they are rising.
pub type Dealt = Items<Said>;

impl Model for Said {
    ghost use Rattle.dc_spec.specs.Scripts.{Said as SaidValue};

    ghost Value = { SaidValue };

    ghost view = { λ s. record { station = s.station; word = s.word; terms = s.terms } };
}

/// A copy of the word with its terms.
impl TryClone for Said {
    fn try_clone(&self, alloc: Global) -> Result<Said, NoMemory> {
        let terms = self.terms.copy(alloc)?;
        Ok(Said {
            station: self.station,
            word: self.word,
            terms,
        })
    }
}
