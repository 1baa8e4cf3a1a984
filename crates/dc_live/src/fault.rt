//! Why a session ends early.

use dc_frame::FrameFault;

/// Why a session ends early.
#[derive(Clone, Copy, Debug, PartialEq, Eq)]
pub enum LiveFault {
    /// A call of the wire failed.
    Wire,
    /// The bytes of this peer, or their end, do not fit the session.
    Peer { peer: u32, fault: PeerFault },
}

/// What is wrong with the bytes of a peer, in the order in which they were taken.
#[derive(Clone, Copy, Debug, PartialEq, Eq)]
pub enum PeerFault {
    /// The bytes are no frame.
    Frame {
        /// The fault; its place counts from the first byte that the peer gave.
        fault: FrameFault,
    },
    /// A frame of a kind that is not due.
    Unexpected {
        /// The frame's first byte: 1 a hello, 2 a station's word, 3 a sum.
        tag: u8,
    },
    /// A hello with numbers of another session, or with a station that does not exist or is taken.
    Hello {
        /// The station's number in the hello.
        station: u16,
        /// How many stations the hello says.
        stations: u16,
        /// How many words the hello says.
        words: u16,
    },
    /// A word for another round than the one in progress.
    Round {
        /// The round of the frame.
        told: u16,
        /// The round in progress.
        now: u16,
    },
    /// The bytes end before the session's last frame.
    Ended {
        /// How many bytes the peer gave in all; the greatest `u64` where they are more.
        at: u64,
    },
}
