//! What is delivered in a round.

ghost use Rattle.std.specs.Prelude.{◌≡◌, IfOk};
ghost use Rattle.dc_script.specs.Delivered.{delivered};

use crate::said::Dealt;
use dc_field::NoMemory;
use std::alloc::Global;

/// What the honest stations receive in a round.
#[derive(Debug, Drop)]
pub enum Delivery {
    /// The sum of all words.
    Sum,
    /// A word of the coalition's choice for each of them.
    Each {
        /// The honest stations with their words.
        words: Dealt,
    },
}

impl Delivery {
    /// A copy of the delivery.
    pub fn copy(&self, alloc: Global) -> Result<Delivery, NoMemory>
        ensures { IfOk result (λ d. delivered d ≡ delivered self.now) }
    {
        match self {
            Delivery::Sum => Ok(Delivery::Sum),
            Delivery::Each { words } => {
                let words = words.copy_each(alloc)?;
                Ok(Delivery::Each { words })
            }
        }
    }
}
