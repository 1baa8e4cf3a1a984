//! A session: the hub that collects its words, its file, and its superposed words.
#![tactic(auto)]

mod fault;
mod hub_core;
mod hub_fault;
mod hub_step;
mod presence;
mod reading;
mod sizes;
mod summing;
mod superposing;
mod transcript;
mod word_table;
mod writing;

pub use fault::TranscriptFault;
pub use hub_core::HubCore;
pub use hub_fault::HubFault;
pub use hub_step::HubStep;
pub use reading::read_transcript;
pub use summing::read_sums;
pub use superposing::sums;
pub use transcript::Transcript;
pub use writing::transcript_bytes;
