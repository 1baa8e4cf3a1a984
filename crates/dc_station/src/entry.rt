//! Entries of a log.

use dc_field::{Bytes, Value};

/// An entry of a log; contracts compare it with an entry of the definitions.
#[derive(Debug, Drop)]
pub enum Entry {
    /// A value, and how many stations sent it.
    Short { value: Value, times: u16 },
    /// A message.
    Long { bytes: Bytes },
}
