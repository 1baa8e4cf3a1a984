//! What a hub answers to a word that it accepts.

use dc_field::Word;

/// What a hub answers to a word that it accepts.
#[derive(Clone, Copy, Debug)]
pub enum HubStep {
    /// Words of the round in progress are still missing; this is the least station whose word is.
    Waiting { first_missing: u16 },
    /// The word was the last one of its round. This is the sum of all of them, which is broadcast.
    Complete { sum: Word },
}
