//! The top call: the words of a command line, a shelf, two sinks, a wire, and an outcome.
#![tactic(auto)]

mod command;
mod fault_line;
mod hosting;
mod key_fault;
mod keygen;
mod manifest_fault;
mod migrate;
mod net_fault;
mod outcome;
mod peer_fault;
mod pieces;
mod playing;
mod reading;
mod refusal_line;
mod replaying;
mod session;
mod steering;
mod summing;
mod top;
mod trial;
mod twinning;
mod writing;

pub use fault_line::put_fault;
pub use outcome::{CommandFault, FileFault, Outcome, status};
pub use top::dcnet;
