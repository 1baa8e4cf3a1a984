//! What a line of a script with a word says.

use dc_field::Word;
use std::marker::Model;

/// A station with a constant word. Contracts see the pair of the station and the word's numbers.
#[derive(Clone, Copy, Debug)]
pub struct Entry {
    /// The station's number.
    pub station: u16,
    /// Its word.
    pub word: Word,
}

impl Model for Entry {
    ghost use Rattle.std.specs.Prelude.{ℕ, List};

    ghost Value = { ℕ × List ℕ };

    ghost view = { λ s. (s.station, s.word) };

    ghost inverse = { λ p. record { station = p.0; word = p.1 } };
}
