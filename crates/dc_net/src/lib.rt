//! A whole net: its parts, whether they agree, and its run.
#![tactic(auto)]

mod book;
mod changed;
mod checked_net;
mod ends;
mod fault;
mod key_checks;
mod key_part;
mod key_strip;
mod net;
mod net_rules;
mod played;
mod publishing;
mod round_keys;
mod rows;
mod running;
mod script_checks;
mod script_rules;
mod script_stations;
mod seat;
mod seating;
mod stations;
mod stream_checks;
mod trial;
mod word_list;

pub use checked_net::CheckedNet;
pub use fault::NetFault;
pub use net::{Net, Streams};
pub use played::{Logs, Pendings, Played};
pub use running::run;
pub use trial::{trial_net, trial_net_shared};
