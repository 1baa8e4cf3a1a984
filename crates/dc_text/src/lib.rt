//! Text files: their lines, files that are one list, and payload in hexadecimal digits.
#![tactic(auto)]

mod lines;
mod list_file;
mod payload;

pub use lines::Lines;
pub use list_file::{ListItem, read_list};
pub use payload::{Digits, decode_payload, payload_bytes, payload_length};
