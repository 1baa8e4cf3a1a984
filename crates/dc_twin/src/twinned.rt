//! What is handed over of a twin.

use crate::shift::Shifts;
use dc_keys::KeyFile;
use std::marker::Model;

/// The shifts of the edges of a net's forest, and the keys of the twin. The rest of the twin is the
/// net itself with its streams permuted.
#[derive(Drop)]
pub struct Twinned {
    /// One shift for each edge of the forest.
    pub shifts: Shifts,
    /// The keys of the net, with the shifts added to the first pads of their edges.
    pub keys: KeyFile,
}

impl Model for Twinned {
    ghost use Rattle.dc_twin.specs.TwinnedKeys.{TwinnedKeys};

    ghost Value = { TwinnedKeys };

    ghost view = { λ t. record { shifts = t.shifts; keys = t.keys } };
}
