//! Reading the files of a net: the manifest, the key file, the streams and the script; and the files of one station.
#![tactic(auto)]

mod decoding;
mod fault;
mod file;
mod net;
mod parts;
mod station;
mod streams;

pub use fault::{NetFileFault, NotRead};
pub use net::read_net;
pub use station::{StationParts, read_station};
