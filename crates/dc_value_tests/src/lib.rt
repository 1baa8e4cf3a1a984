//! Tests of values, of the objects of the outside, and of recorded sessions. It has no code of its own.
#![tactic(auto)]

#[cfg(test)]
mod edges;
#[cfg(test)]
mod groups;
#[cfg(test)]
mod hubs;
#[cfg(test)]
mod lists;
#[cfg(test)]
mod real_files;
#[cfg(test)]
mod symbols;
#[cfg(test)]
mod transcripts;
#[cfg(test)]
mod words;
