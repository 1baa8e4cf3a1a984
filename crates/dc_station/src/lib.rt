//! The station core: what a station sends, what it counts as sent, and the log that it keeps, word by word.
#![tactic(auto)]

mod entry;
mod log;
mod phase;
mod progress;
mod receiver;
mod reception;
mod sender;
mod station;
mod words;

pub use entry::Entry;
pub use log::Log;
pub use phase::{Pending, Phase};
pub use receiver::Receiver;
pub use sender::Sender;
pub use station::Station;
