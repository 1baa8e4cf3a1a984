//! The hub as definitions: which arrivals it accepts and what it replies.
#![tactic(auto)]

mod laws;

pub use laws::broadcasts_agree;
