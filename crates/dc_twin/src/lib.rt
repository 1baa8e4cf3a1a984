//! The twin of a net: streams that are permuted, and pads that are shifted so that the view stays.
#![tactic(auto)]

mod columns;
mod demanding;
mod fault;
mod judging;
mod laws;
mod printing;
mod shift;
mod shifting;
mod station_demands;
mod summing;
mod twinned;
mod twinning;

pub use demanding::demands;
pub use fault::TwinFault;
pub use laws::{changed_is_moved, faultless_is_admitted};
pub use printing::put_shifts;
pub use shift::{Shift, Shifts};
pub use twinned::Twinned;
pub use twinning::twin;
