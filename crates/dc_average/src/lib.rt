//! Superposed receiving: an epoch resolves what several stations sent at once, by the average split.
#![tactic(auto)]

mod answer;
mod ask;
mod epoch;
mod leaf;
mod stack;

pub use ask::{Ask, BadWord, Step};
pub use epoch::Epoch;
pub use leaf::{Leaf, Leaves};
