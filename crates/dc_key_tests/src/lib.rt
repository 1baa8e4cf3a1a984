//! Tests of the crates of keys: pair keys and summed pads, masks, the keys of a net, and the words of pieces.
#![tactic(auto)]

#[cfg(test)]
mod keys;
#[cfg(test)]
mod masks;
#[cfg(test)]
mod nets;
#[cfg(test)]
mod workers;
