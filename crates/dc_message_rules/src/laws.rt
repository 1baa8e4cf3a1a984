//! Laws of messages. The functions do nothing; each one's contract is a law.

ghost use Rattle.dc_message_rules.specs.Laws.{HistoriesAreSums, SumsArePlain, LogsAgree, EpochsStand, EpochsDeliver, NothingIsVoid, EpochsRise, EpochLengths, MessagesBalance};

/// Without a coalition each station receives the sums of the rounds.
pub fn histories_are_sums()
    ensures { HistoriesAreSums }
{}

/// Without a coalition the sum of a round is the sum of all plain words: the keys cancel.
pub fn sums_are_plain()
    ensures { SumsArePlain }
{}

/// Without a coalition all stations have one log after each round.
pub fn logs_agree()
    ensures { LogsAgree }
{}

/// An epoch in which stations send their values where it calls for them is never void.
pub fn epochs_stand()
    ensures { EpochsStand }
{}

/// Such an epoch delivers the values in rising order, each as often as it was sent.
pub fn epochs_deliver()
    ensures { EpochsDeliver }
{}

/// Without a coalition no burst and no epoch is void.
pub fn nothing_is_void()
    ensures { NothingIsVoid }
{}

/// Without a coalition each whole epoch delivers the values sent in its root in rising order, each
/// as often as it was sent there.
pub fn epochs_rise()
    ensures { EpochsRise }
{}

/// Without a coalition a whole epoch takes one word for each value and one more for each that is
/// repeated, or one where nobody sends.
pub fn epoch_lengths()
    ensures { EpochLengths }
{}

/// Without a coalition, after each round, each station's log has each message exactly as often as
/// all stations together have sent it.
pub fn messages_balance()
    ensures { MessagesBalance }
{}
