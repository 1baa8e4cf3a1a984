//! What an epoch asks for, and what its words do to it.

use dc_field::{BadGroup, BadSplit};

/// What the next word is asked for.
#[derive(Clone, Copy, Debug, PartialEq, Eq)]
pub enum Ask {
    /// All values.
    Root,
    /// The values of the current group that are at most its mean.
    AtMost { mean: u128 },
    /// Nothing: the epoch is whole or void.
    Over,
}

/// What a word did to the epoch.
#[derive(Clone, Copy, Debug, PartialEq, Eq)]
pub enum Step {
    /// Another word is needed.
    Went,
    /// The epoch is whole: it has given all its leaves.
    Ended,
    /// The word breaks a check. The leaves of earlier words stay valid.
    Void { why: BadWord },
}

/// The first check that a word breaks.
#[derive(Clone, Copy, Debug, PartialEq, Eq)]
pub enum BadWord {
    /// The word is not a group.
    Group { fault: BadGroup },
    /// The word is a group, but not a part of the current one.
    Split { fault: BadSplit },
    /// All stations of the current group sent again, and its count does not divide its limb `l`, 1 to 15, which is `seen`.
    Uneven { l: u8, seen: u16 },
}
