//! Tests of the reader of manifests.
#![tactic(auto)]

#[cfg(test)]
mod manifest_tests;
#[cfg(test)]
mod printed;
