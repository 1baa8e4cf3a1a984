//! Laws of twins. The functions do nothing; each one's contract is a law.

ghost use Rattle.dc_twin.specs.Laws.{FaultlessIsAdmitted, ChangedIsMoved};

/// There is no fault exactly where the net admits the permutation and its honest stations received
/// alike.
pub fn faultless_is_admitted()
    ensures { FaultlessIsAdmitted }
{}

/// A net that was changed by a permutation and keys is the net with moved streams and these keys.
pub fn changed_is_moved()
    ensures { ChangedIsMoved }
{}
