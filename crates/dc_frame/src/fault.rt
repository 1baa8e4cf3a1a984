//! Why bytes are no frames.

/// What is wrong in a frame, by the order of the tests.
#[derive(Clone, Copy, Debug, PartialEq, Eq)]
pub enum FrameKind {
    /// The first byte of a header is not 1, 2 or 3.
    Tag { seen: u8 },
    /// The length in a header is not that of its tag: 6 for a hello, 66 for the others.
    Length { seen: u16 },
    /// The first number of a word that is above 65536.
    Symbol { seen: u32 },
}

/// The first fault of all bytes that a reader was fed.
#[derive(Clone, Copy, Debug, PartialEq, Eq)]
pub struct FrameFault {
    /// The offset in all these bytes of the tag, of the length or of the symbol; the greatest `u64` where it is above that.
    pub at: u64,
    pub kind: FrameKind,
}
