//! The stream file: what one station has to say.
#![tactic(auto)]

mod fault;
mod reading;
mod stream;
mod writing;

pub use fault::{StreamFault, StreamKind};
pub use reading::read_stream;
pub use stream::{Longs, Shorts, Stream};
pub use writing::stream_text;
