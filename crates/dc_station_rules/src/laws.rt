//! Laws of the protocol of one station. The functions do nothing; each one's contract is a law.

ghost use Rattle.dc_station_rules.specs.Laws.{EveryHistoryIsCyclesInOneWay, EveryBegunCycleGoesOn, EveryProperPrefixIsBegun, EveryBurstIsMessageOrVoid, EveryEpochIsWholeOrVoid, LeavesAddUp, LeavesAreFew, OnlyRootsAreEmpty, MessagesFit, LeavesGrow, LogsFit};

/// A session is cycles one after the other, the last of which may be cut off, and in just one way.
#[tactic(auto, using(crate::proofs::OneWay::cycles_in_one_way))]
pub fn every_history_is_cycles_in_one_way()
    ensures { EveryHistoryIsCyclesInOneWay }
{}

/// A begun cycle is one that was cut off: with some words of sixteen symbols more it is whole.
#[tactic(auto, using(crate::proofs::GoingOn::begun_goes_on))]
pub fn every_begun_cycle_goes_on()
    ensures { EveryBegunCycleGoesOn }
{}

/// Wherever a whole cycle is cut off, after its first word or later, the words before the cut are
/// those of a begun cycle.
pub fn every_proper_prefix_is_begun()
    ensures { EveryProperPrefixIsBegun }
{}

/// An ended burst is a message burst or a void one and not both, and the computed burst is that one.
/// So a burst gives a message exactly where its words are the fragments of that message.
#[tactic(auto, using(crate::proofs::MessageOrVoid::message_or_void))]
pub fn every_burst_is_message_or_void()
    ensures { EveryBurstIsMessageOrVoid }
{}

/// An ended epoch is whole or void and not both, and the computed epoch is that one: whole with the
/// leaves of its tree, or void with the leaves up to then and the fault of the first check that broke.
/// What precedes the last word of a void one is, with some words of sixteen symbols more, whole.
#[tactic(auto, using(crate::proofs::WholeOrVoid::whole_or_void))]
pub fn every_epoch_is_whole_or_void()
    ensures { EveryEpochIsWholeOrVoid }
{}

/// No value is lost and none is made up: the leaves of a whole epoch, each so many times as it was
/// sent, have the count and the total of its root.
pub fn leaves_add_up()
    ensures { LeavesAddUp }
{}

/// An epoch, disturbed or not, has at most as many leaves as words.
#[tactic(auto, using(crate::proofs::FewLeaves::leaves_are_few))]
pub fn leaves_are_few()
    ensures { LeavesAreFew }
{}

/// In an epoch whose root has a count of 1 or more no group is empty: each part of a split, and each
/// leaf, is of one station at least.
pub fn only_roots_are_empty()
    ensures { OnlyRootsAreEmpty }
{}

/// A burst of so many words gives a message that fits them, its two length bytes included.
pub fn messages_fit()
    ensures { MessagesFit }
{}

/// One more word of an epoch may add leaves at the end; those before stay.
pub fn leaves_grow()
    ensures { LeavesGrow }
{}

/// A station's log has at most one entry for each received word, and at most fifteen bytes for each in
/// all; and so has the list of its sent entries.
pub fn logs_fit()
    ensures { LogsFit }
{}
