//! What the lines of a script so far make.

use crate::round::Rounds;
use std::marker::Model;

/// The rounds so far, and how many terms they have, up to the limit. The last round may still be
/// without its delivery.
#[derive(Debug, Drop)]
pub(crate) struct Progress {
    pub(crate) rounds: Rounds,
    pub(crate) terms: usize,
}

impl Model for Progress {
    ghost use Rattle.dc_script.specs.Progress.{Progress as ProgressValue};

    ghost Value = { ProgressValue };

    ghost view = { λ p. record { turns = p.rounds; terms = p.terms } };
}
