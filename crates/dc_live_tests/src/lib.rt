//! Tests of live sessions. It has no code of its own.
#![tactic(auto)]

#[cfg(test)]
mod frames;
#[cfg(test)]
mod hub_tests;
#[cfg(test)]
mod hubs;
#[cfg(test)]
mod one_word;
#[cfg(test)]
mod serve_tests;
#[cfg(test)]
mod serving;
#[cfg(test)]
mod starved;
#[cfg(test)]
mod station_tests;
#[cfg(test)]
mod stations;
#[cfg(test)]
mod three_stations;
