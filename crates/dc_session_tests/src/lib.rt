//! Tests of frames. It has no code of its own.
#![tactic(auto)]

#[cfg(test)]
mod frames;
