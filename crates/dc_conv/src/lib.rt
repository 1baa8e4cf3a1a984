//! The mask of a station: what its pair keys add to its next word.
#![tactic(auto)]

mod accumulators;
mod adding;
mod block;
mod mask;

pub use accumulators::Accumulators;
pub use block::Block;
pub use mask::Mask;
