//! Runs of nets, and whether the parts of a net agree, as definitions.
#![tactic(auto)]

mod laws;

pub use laws::{alike_as_computed, sums_are_alike};
