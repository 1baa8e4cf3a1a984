//! Why two stations cannot be steered.

/// Why two stations of a net cannot be steered towards wanted words: the first test that fails, by
/// the order of these variants. The tests are this project's own.
#[derive(Clone, Copy, Debug, PartialEq, Eq)]
pub enum SteerFault {
    /// The two are not the smaller and the larger end of an edge.
    NotNeighbours {
        /// The first number that was given.
        u: u16,
        /// The second number that was given.
        v: u16,
    },
    /// One of the two is a member of the coalition.
    NotHonest {
        /// The first of the two that is one.
        station: u16,
    },
    /// The two received the same words in all rounds.
    NeverDiffered,
    /// A round after that of the first difference delivers the sum.
    SumDelivery {
        /// The first such round.
        round: u16,
    },
    /// In a round after that of the first difference a word that the script gives has a term.
    RuledRound {
        /// The first such round.
        round: u16,
    },
    /// There is not one wanted word for each round after that of the first difference.
    WantedWords {
        /// How many wanted words there are; 4294967295 where there are more.
        have: u32,
        /// The number of these rounds.
        need: u16,
    },
}
