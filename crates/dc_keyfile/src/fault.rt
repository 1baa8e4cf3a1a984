//! Why bytes are not a key file.

/// The first fault of a key file, by the order of its tests. The format is this project's own.
#[derive(Clone, Copy, Debug, PartialEq, Eq)]
pub enum KeyFault {
    /// The bytes end early.
    Truncated {
        /// How many bytes there are.
        at: u64,
        /// How many are needed.
        need: u64,
    },
    /// The first three bytes are not `DCK`.
    Magic,
    /// The version is none that the reader accepts.
    Version {
        /// The version in the file.
        seen: u8,
    },
    /// The number of stations is not 1 to 256.
    Stations {
        /// The number in the file.
        seen: u16,
    },
    /// The number of words is not 1 to 4096.
    Words {
        /// The number in the file.
        seen: u16,
    },
    /// All pads together are more than 2^26.
    TooLarge {
        /// How many they would be.
        symbols: u64,
    },
    /// The first end is not below the second, or the second is not a station.
    Pair {
        /// The place of the pair, from 0.
        place: u32,
    },
    /// The pair is not greater than the one before it.
    Order {
        /// The place of the pair, from 0.
        place: u32,
    },
    /// A pad is above 65536.
    Symbol {
        /// The place of the pair, from 0.
        pair: u32,
        /// Which of its pads, from 0, the first pads before the second.
        index: u32,
        /// The number in its place.
        seen: u32,
    },
    /// The first second pad is not 0.
    FirstSecondPad {
        /// The place of the pair, from 0.
        pair: u32,
    },
    /// There are more bytes.
    Rest {
        /// Where they begin.
        at: u64,
    },
}
