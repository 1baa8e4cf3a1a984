//! Tests of superposed receiving, reservation and stations.
#![tactic(auto)]

#[cfg(test)]
mod bursts;
#[cfg(test)]
mod epochs;
#[cfg(test)]
mod reading;
#[cfg(test)]
mod sessions;
#[cfg(test)]
mod stations;
