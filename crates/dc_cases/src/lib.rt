//! Worked cases of the definitions.
#![tactic(auto)]
