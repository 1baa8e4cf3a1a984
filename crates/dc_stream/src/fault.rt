//! Why bytes are not a stream file.

/// The first fault of a stream file, the format of which is this project's own: its line and what
/// is wrong there.
#[derive(Clone, Copy, Debug, PartialEq, Eq)]
pub struct StreamFault {
    /// The line, from 1; at most the greatest number of its type.
    pub line: u32,
    pub kind: StreamKind,
}

/// What is wrong with a line, by the order of its tests.
#[derive(Clone, Copy, Debug, PartialEq, Eq)]
pub enum StreamKind {
    /// It holds another byte than 0x20 to 0x7e, or it is the last line and has no end.
    NotText,
    /// It does not begin with `short `, `long ` or `coin `.
    Word,
    /// It comes after a line of a later kind.
    Order,
    /// It is the 4097th short, the 257th long or the 4097th coin.
    TooMany,
    /// The text after `coin ` is not a number from 0 to 15.
    Number,
    /// The text after `short ` or `long ` has a character that is not a lower-case hexadecimal
    /// digit, or an odd number of digits.
    Hex,
    /// A short is not 15 bytes long, or a long is longer than 3838.
    Length {
        /// How many bytes there are; at most the greatest number of its type.
        seen: u32,
    },
}
