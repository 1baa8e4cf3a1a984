//! One round of a script.

ghost use Rattle.std.specs.Prelude.{◌≡◌, IfOk};

use crate::delivery::Delivery;
use crate::said::Dealt;
use dc_field::{Items, NoMemory, TryClone};
use std::alloc::Global;
use std::marker::Model;

/// What the members of the coalition say in a round, and what is delivered. In contracts it is the
/// protocol's record of a turn.
#[derive(Debug, Drop)]
pub struct Round {
    /// The members of the coalition with their words.
    pub says: Dealt,
    /// What the honest stations receive.
    pub delivery: Delivery,
}

/// Rounds, from round 0 on.
pub type Rounds = Items<Round>;

impl Model for Round {
    ghost use Rattle.dc_spec.specs.Scripts.{Turn};
    ghost use Rattle.dc_script.specs.Delivered.{delivered};

    ghost Value = { Turn };

    ghost view = { λ r. record { says = r.says; delivery = delivered r.delivery } };
}

/// A copy of the round.
impl TryClone for Round {
    fn try_clone(&self, alloc: Global) -> Result<Round, NoMemory> {
        let says = self.says.copy_each(alloc)?;
        let delivery = self.delivery.copy(alloc)?;
        Ok(Round { says, delivery })
    }
}
