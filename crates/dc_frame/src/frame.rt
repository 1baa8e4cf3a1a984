//! A frame.

use dc_field::Word;

/// What a station and the hub send each other; contracts compare it with a frame of the definitions.
#[derive(Debug, Drop)]
pub enum Frame {
    /// A station greets the hub: its own number, and how many stations and words the session has.
    Hello {
        station: u16,
        stations: u16,
        words: u16,
    },
    /// The word of a station for a round.
    Send {
        round: u16,
        word: Word,
    },
    /// The sum of all words of a round, sent to all stations.
    All {
        round: u16,
        word: Word,
    },
}
