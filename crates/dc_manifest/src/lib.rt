//! The manifest of a net: a TOML document that names the stations, the edges and the files.
#![tactic(auto)]

mod content;
mod fault;
mod kind;
mod manifest;
mod numbers;
mod reading;
mod values;

pub use fault::ManifestFault;
pub use manifest::{Manifest, Names};
pub use reading::read_manifest;
