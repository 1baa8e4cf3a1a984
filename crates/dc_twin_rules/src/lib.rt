//! Twins of nets as definitions.
#![tactic(auto)]

mod laws;

pub use laws::{
    admits_as_computed, twin_admits_inverse, twin_is_alike, twin_is_net, twin_keeps_rounds,
    twin_keeps_view, twin_moves_streams, twin_of_twin,
};
