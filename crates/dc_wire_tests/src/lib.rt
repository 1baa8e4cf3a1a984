//! Tests of the wires of the outside. It has no code of its own.
#![tactic(auto)]

#[cfg(test)]
mod memory;
#[cfg(test)]
mod sockets;
