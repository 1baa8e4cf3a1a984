//! Tests of the crates of files and key graphs: text files, lists, streams, scripts, graphs, key files.
#![tactic(auto)]

#[cfg(test)]
mod answers;
#[cfg(test)]
mod forest_tests;
#[cfg(test)]
mod graph_tests;
#[cfg(test)]
mod key_file_tests;
#[cfg(test)]
mod list_tests;
#[cfg(test)]
mod script_tests;
#[cfg(test)]
mod seed_file_tests;
#[cfg(test)]
mod stream_tests;
#[cfg(test)]
mod text_tests;
