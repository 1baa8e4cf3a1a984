//! Printed texts: the words of a session, the view and the logs of a run.
#![tactic(auto)]

mod honest;
mod logs;
mod net_text;
mod pads;
mod pieces;
mod rounds;
mod trial;
mod view;
mod words;

pub use logs::{put_logs, put_station};
pub use trial::put_trial;
pub use view::put_view;
pub use words::put_words;
