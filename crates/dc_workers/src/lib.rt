//! The words of a round, computed in pieces on several threads.
#![tactic(auto)]

mod mapping;
mod piece;

pub use mapping::map_words;
pub use piece::Piece;
