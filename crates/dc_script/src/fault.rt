//! Why bytes are not a script.

/// The first fault of a script file, the format of which is this project's own.
#[derive(Clone, Copy, Debug, PartialEq, Eq)]
pub struct ScriptFault {
    /// The number of the faulty line, from 1; the greatest `u32` where it is above that.
    pub line: u32,
    /// What is wrong with it.
    pub kind: ScriptKind,
}

/// What is wrong with a line of a script file, by the order of the tests.
#[derive(Clone, Copy, Debug, PartialEq, Eq)]
pub enum ScriptKind {
    /// A character that no line may hold, or no line feed at the end.
    NotText,
    /// The first line is neither `dcscript 1` nor `dcscript 2`.
    Header,
    /// A later line is none of a script's lines.
    Form,
    /// A round has another number than that of the rounds before it.
    Round {
        /// The number in the line.
        told: u32,
        /// How many rounds there are so far.
        due: u32,
    },
    /// The 4097th round.
    TooMany,
    /// A line before the first round, or after the round's delivery, or a term that follows no word
    /// and no term.
    Misplaced,
    /// A station is not greater than that of the line before of its kind in this round.
    Order {
        /// The station of this line.
        station: u16,
    },
    /// A round has no delivery. It is reported at the next round's line, or at the line past the
    /// last.
    Missing,
    /// A term that names a later round.
    Late {
        /// The round that it names.
        told: u16,
        /// The round of the term.
        round: u16,
    },
    /// A term that is not greater than the one right before it.
    Unordered,
    /// The 524289th term.
    Terms,
}
