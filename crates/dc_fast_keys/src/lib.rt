//! The keys of all stations of a net, by products of polynomials.
#![tactic(auto)]

mod alike;
mod carry;
mod net_keys;
mod pads;
mod rows;
mod spectrum;
mod table;
mod walk;

pub use net_keys::NetKeys;
