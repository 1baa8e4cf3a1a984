//! Why a list is not a key graph, or not a coalition.

/// The first fault of a number of stations and a list of pairs.
#[derive(Clone, Copy, Debug, PartialEq, Eq)]
pub enum GraphFault {
    /// The number of stations is not 1 to 256.
    Stations {
        /// The number that was given.
        seen: u16,
    },
    /// The first end is not below the second, or the second is not a station.
    Ends {
        /// The place of the pair, from 0.
        place: u32,
    },
    /// The pair is at an earlier place too.
    Repeated {
        /// The place of the pair, from 0.
        place: u32,
    },
}

/// The first number of a list of members that is not a station or is at an earlier place too.
#[derive(Clone, Copy, Debug, PartialEq, Eq)]
pub struct MemberFault {
    /// The place of the number, from 0.
    pub place: u32,
}
