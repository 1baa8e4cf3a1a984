//! The shift of an edge.

use dc_field::{Items, Words};
use std::marker::Model;

/// What is added to the first pads of an edge in the twin, for a session of at most 4096 rounds.
#[derive(Drop)]
pub struct Shift {
    /// The smaller end of the edge.
    pub u: u16,
    /// Its larger end.
    pub v: u16,
    /// One word for each round.
    pub words: Words,
}

/// The shifts of the edges of a forest, in rising order of the edges.
pub type Shifts = Items<Shift>;

impl Model for Shift {
    ghost use Rattle.std.specs.Prelude.{◌≤◌, length};
    ghost use Rattle.dc_spec.specs.Limits.{most_words};
    ghost use Rattle.dc_twin_rules.specs.Twins.{Shift as ShiftValue};

    ghost Value = { ShiftValue };

    ghost view = { λ s. record { u = s.u; v = s.v; words = s.words } };

    ghost invariant = { λ s. length s.words ≤ most_words };
}
