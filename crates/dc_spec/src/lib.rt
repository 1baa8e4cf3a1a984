//! The definitions that every contract of this repository speaks in.
#![tactic(auto)]

mod laws;

pub use laws::{bytes_spell_words, inverse_inverts};
