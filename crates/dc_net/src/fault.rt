//! Why the parts of a net do not agree.

/// In what the parts of a net differ: the first difference, by the order of these variants. The two
/// tests of streams go together, station by station.
#[derive(Clone, Copy, Debug, PartialEq, Eq)]
pub enum NetFault {
    /// The key file is for another number of stations.
    KeyStations {
        /// The number in the key file.
        told: u16,
        /// The number of stations of the graph.
        net: u16,
    },
    /// The key file is for another number of words.
    KeyWords {
        /// The number in the key file.
        told: u16,
        /// The number of words of the session.
        net: u16,
    },
    /// The key file has no pair for an edge: the first such edge.
    KeyMissing {
        /// The smaller end of the edge.
        u: u16,
        /// The greater end of the edge.
        v: u16,
    },
    /// The key file has a pair that is no edge: the first such pair.
    KeyStray {
        /// The smaller end of the pair.
        u: u16,
        /// The greater end of the pair.
        v: u16,
    },
    /// An honest station has no stream.
    StreamMissing {
        /// The station, the least of both tests of streams.
        station: u16,
    },
    /// A member of the coalition has a stream.
    StreamStray {
        /// The station, the least of both tests of streams.
        station: u16,
    },
    /// The script has another number of rounds than the session has words.
    ScriptRounds {
        /// The number of rounds of the script.
        told: u32,
        /// The number of words of the session.
        net: u16,
    },
    /// In a round the words said are not those of the members, or the words dealt are not those of
    /// the honest stations. The words said are compared first.
    ScriptStation {
        /// The first such round.
        round: u16,
        /// The least station that is in one of the two compared lists only.
        station: u16,
    },
    /// Without a coalition, a round delivers something else than the sum.
    ScriptDelivery {
        /// The first such round.
        round: u16,
    },
    /// A term names a station that there is not, or, in a word said, a member's word of the same
    /// round.
    ScriptRule {
        /// The first round with such a term.
        round: u16,
        /// The station of the first word in that round with such a term, words said before words
        /// dealt.
        station: u16,
    },
    /// A command names a station that the key file does not have. The check of a net never gives
    /// it.
    NoStation {
        /// The number that was named.
        station: u16,
        /// The number of stations.
        stations: u16,
    },
}
