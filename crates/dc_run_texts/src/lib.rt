//! The texts of runs as functions: view, logs, shifts, steering, summary of a trial.
#![tactic(auto)]
