//! Steerings: where two honest neighbours received differently, their pads are changed so that later
//! sums become wanted ones.
#![tactic(auto)]

mod adding;
mod changes;
mod differences;
mod end_checks;
mod fault;
mod first_pads;
mod flattening;
mod gains;
mod laws;
mod received;
mod round_checks;
mod second_pads;
mod steered;
mod steered_keys;
mod text;
mod wanted;

pub use changes::{PadChanges, first_differing, pad_changes};
pub use fault::SteerFault;
pub use laws::{faultless_may_steer, never_differed_is_alike};
pub use steered::{Steered, steer};
pub use text::put_steered;
pub use wanted::read_wanted;
