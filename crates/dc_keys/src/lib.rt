//! Pair keys, key files, the key of a pair, and the summed pads of a station.
#![tactic(auto)]

mod adding;
mod key_file;
mod keying;
mod pair_key;
mod summed_pads;

pub use adding::reduced;
pub use key_file::KeyFile;
pub use keying::key_word;
pub use pair_key::{PairKey, Pairs};
pub use summed_pads::{SummedPads, key_sums_split, summed_pads_law};
