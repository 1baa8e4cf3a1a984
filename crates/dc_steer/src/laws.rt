//! Laws of steerings of nets. The functions do nothing; each one's contract is a law.

ghost use Rattle.dc_steer.specs.Laws.{FaultlessMaySteer, NeverDifferedIsAlike};

/// There is no fault exactly where the two may be steered and there are as many wanted words as later
/// rounds.
pub fn faultless_may_steer()
    ensures { FaultlessMaySteer }
{}

/// Two stations never differed exactly where they received the same words.
pub fn never_differed_is_alike()
    ensures { NeverDifferedIsAlike }
{}
