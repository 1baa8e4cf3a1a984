//! The key graph as definitions: honest edges, parts, the forest and sums below a station.
#![tactic(auto)]

mod laws;

pub use laws::{
    distance_is_least, joined_by_walks, parents_are_least_nearer, root_is_least,
    root_sum_is_part_sum, sums_meet_demands,
};
