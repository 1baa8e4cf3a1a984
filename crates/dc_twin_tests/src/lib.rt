//! Tests of twins.
#![tactic(auto)]

#[cfg(test)]
mod answers;
#[cfg(test)]
mod fault_tests;
#[cfg(test)]
mod nets;
#[cfg(test)]
mod twin_tests;
