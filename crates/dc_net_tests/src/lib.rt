//! Tests of whole nets.
#![tactic(auto)]

#[cfg(test)]
mod answers;
#[cfg(test)]
mod check_tests;
#[cfg(test)]
mod file_tests;
#[cfg(test)]
mod long_tests;
#[cfg(test)]
mod run_tests;
#[cfg(test)]
mod trial_tests;
#[cfg(test)]
mod view_tests;
