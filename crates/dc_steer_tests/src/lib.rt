//! Tests of steerings.
#![tactic(auto)]

#[cfg(test)]
mod answers;
#[cfg(test)]
mod change_tests;
#[cfg(test)]
mod steer_tests;
