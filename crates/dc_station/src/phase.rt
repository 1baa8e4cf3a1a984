//! What the next word of a station is for, and how much it still has to send.

/// What the next word is for.
#[derive(Clone, Copy, Debug, PartialEq, Eq)]
pub enum Phase {
    /// A reservation.
    Reserve,
    /// Word number `index`, from 0, of the burst of a field.
    Burst { field: u8, index: u16 },
    /// A word of an epoch.
    Epoch,
}

/// How many entries of a stream are pending.
#[derive(Clone, Copy, Debug, PartialEq, Eq)]
pub struct Pending {
    pub shorts: u32,
    pub longs: u32,
}
