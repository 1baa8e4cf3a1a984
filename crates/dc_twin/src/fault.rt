//! Why there is no twin.

/// Why a net has no twin by a list of images: the first test that fails, by the order of these
/// variants. The tests are this project's own.
#[derive(Clone, Copy, Debug, PartialEq, Eq)]
pub enum TwinFault {
    /// The list does not have one image for each station.
    PermCount {
        /// How many numbers the list has; 4294967295 where it has more.
        have: u32,
        /// The number of stations.
        need: u16,
    },
    /// A number of the list is no station, or stood before.
    Perm {
        /// The first place of such a number, from 0.
        place: u16,
    },
    /// The image of a station is another station that is not joined with it.
    NotJoined {
        /// The first such station.
        station: u16,
        /// Its image.
        image: u16,
    },
    /// In a round the honest stations did not all receive one word.
    NotAlike {
        /// The first such round.
        round: u16,
        /// The least honest station.
        first: u16,
        /// The least honest station that received another word than that one.
        second: u16,
    },
}
