//! Printed text: lines that are filled into a buffer, and text that is gathered in a buffer and put
//! in large pieces.
#![tactic(auto)]

mod filling;
mod gathering;
mod lines;

pub use filling::{fill_bytes, fill_number};
pub use gathering::{
    gather_bytes, gather_number, gather_number_line, gather_pair_line, gather_payload_line,
};
pub use lines::{
    LINE_BYTES, fill_number_line, fill_numbers_line, fill_pair_line, fill_station_line,
    fill_word_line,
};
