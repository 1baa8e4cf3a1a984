//! Why bytes are not a file of one list.

/// The first fault of a file that is one list, as a permutation or wanted words, the formats of
/// which are this project's own: its line and what is wrong there.
#[derive(Clone, Copy, Debug, PartialEq, Eq)]
pub struct ListFault {
    /// The line, from 1; at most the greatest number of its type.
    pub line: u32,
    pub kind: ListKind,
}

/// What is wrong with a line, by the order of its tests. A format has one of the two last.
#[derive(Clone, Copy, Debug, PartialEq, Eq)]
pub enum ListKind {
    /// It holds another byte than 0x20 to 0x7e, or it is the last line and has no end.
    NotText,
    /// It comes after as many lines as there may be.
    TooMany,
    /// It is not a number within its limits.
    Number,
    /// It is not a word of eighty digits.
    Word,
}
