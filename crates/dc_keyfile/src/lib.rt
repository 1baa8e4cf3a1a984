//! Key files of pads and of seeds, and the generator of the pads.
#![tactic(auto)]

mod direct_writing;
mod expansion;
mod fault;
mod generator;
mod head;
mod reading;
mod seed_file;
mod seed_reading;
mod sharing;
mod writing;

pub use direct_writing::generated_bytes;
pub use expansion::expand;
pub use fault::KeyFault;
pub use generator::{element, generate, generate_seeds};
pub use reading::read_keys;
pub use seed_file::{SeedFile, SeedPair, SeedPairs};
pub use seed_reading::read_seeds;
pub use sharing::generate_shared;
pub use writing::{key_bytes, seed_bytes};
