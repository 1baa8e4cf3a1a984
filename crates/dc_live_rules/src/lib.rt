//! Live sessions that play a net, as definitions: when the words that a hub accepted are those of the
//! net's run.
#![tactic(auto)]

mod laws;

pub use laws::{live_runs, recorded_live, runs_are_live};
