//! Live sessions: a station and a hub talk over a wire, frame by frame.
#![tactic(auto)]

mod fault;
mod greeting;
mod hearing;
mod hub;
mod receiving;
mod seats;
mod sending;
mod serving;
mod station;

pub use fault::{LiveFault, PeerFault};
pub use greeting::greet;
pub use hub::hub_session;
pub use seats::Seats;
pub use serving::serve;
pub use station::station_session;
