//! A recorded session.

ghost use Rattle.dc_spec.specs.Recorded.{IsRecorded};

use dc_field::Words;
use std::marker::Model;

/// All published words of a session. The word of station `i` in round `t` has index `t * stations + i`.
#[derive(Debug, Drop)]
pub struct Transcript {
    /// 1 to 256.
    pub stations: u16,
    /// 1 to 4096.
    pub rounds: u16,
    /// One word for each round and station, round by round.
    pub words: Words,
}

impl Model for Transcript {
    ghost use Rattle.dc_spec.specs.Recorded.{Recorded, IsRecorded};

    ghost Value = { Recorded };

    ghost view = { λ t. record { stations = t.stations; rounds = t.rounds; words = t.words } };

    ghost invariant = { λ t.
        IsRecorded (record { stations = t.stations; rounds = t.rounds; words = t.words }) };
}
