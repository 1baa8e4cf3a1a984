//! Why bytes are no transcript.

/// The first fault of a transcript's bytes, by the order of the tests.
#[derive(Clone, Copy, Debug, PartialEq, Eq)]
pub enum TranscriptFault {
    /// The file has `at` bytes; `need` bytes are due.
    Truncated { at: u64, need: u64 },
    /// The first four bytes are not `DCT1`.
    Magic,
    /// The number of stations is not 1 to 256.
    Stations { seen: u16 },
    /// The number of rounds is not 1 to 4096.
    Words { seen: u16 },
    /// The first number above 65536, and its offset in the file.
    Symbol { at: u64, seen: u32 },
    /// Bytes follow the last word, from this offset on.
    Rest { at: u64 },
}
