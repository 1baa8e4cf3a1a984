//! One term of a rule.

use dc_field::{Items, Sym};
use std::marker::Model;

/// Symbol `to` of a word gains `factor` times symbol `symbol` of the word that station `station`
/// published in round `round`. Contracts see the protocol's record of a term.
#[derive(Clone, Copy, Debug)]
pub struct Term {
    /// The symbol that gains, 0 to 15 in a script.
    pub to: u8,
    /// Not 0 in a script.
    pub factor: Sym,
    /// The station whose word is named.
    pub station: u16,
    /// The round of that word; in a script no later one than the round of the term.
    pub round: u16,
    /// The symbol of that word, 0 to 15 in a script.
    pub symbol: u8,
}

/// Terms. In a script they are rising by the symbol that gains, then by station, round and symbol.
pub type Terms = Items<Term>;

impl Model for Term {
    ghost use Rattle.dc_spec.specs.Scripts.{Term as TermValue};

    ghost Value = { TermValue };

    ghost view = { λ t. record {
      to = t.to;
      factor = t.factor;
      station = t.station;
      round = t.round;
      symbol = t.symbol;
    } };

    ghost inverse = { λ v. record {
      to = v.to;
      factor = v.factor;
      station = v.station;
      round = v.round;
      symbol = v.symbol;
    } };
}
