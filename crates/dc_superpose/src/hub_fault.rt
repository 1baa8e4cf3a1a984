//! Why a hub refuses a word.

use dc_field::Word;

/// Why a hub refuses a word, by the order of the tests.
#[derive(Clone, Copy, Debug)]
pub enum HubFault {
    /// No station of the session has this number.
    Station { seen: u16 },
    /// All rounds are complete.
    Over,
    /// The word is for a round before the one in progress, which is `now`.
    Old { now: u16 },
    /// The word is for a round after the one in progress, which is `now`.
    Ahead { now: u16 },
    /// This station's word of the round in progress is there already; it is kept.
    Repeated { kept: Word },
}
