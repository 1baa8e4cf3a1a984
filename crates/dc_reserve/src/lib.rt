//! Reservation and bursts: the fields that a word grants, the fragments of a message, and received words judged as a burst.
#![tactic(auto)]

mod burst;
mod fields;
mod fragments;
mod judge;
mod laws;

pub use burst::Burst;
pub use fields::{Fields, granted};
pub use fragments::{fragment, fragment_count};
pub use judge::{BadBurst, BurstStep};
pub use laws::{fragments_give_their_message, messages_are_short};
