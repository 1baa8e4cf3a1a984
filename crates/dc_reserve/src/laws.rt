//! Laws of bursts. Each function does nothing; its contract is the law.

ghost use Rattle.dc_reserve.specs.Laws.{FragmentsGiveTheirMessage, MessagesAreShort};

/// The fragments of a message are a burst of it.
pub fn fragments_give_their_message()
    ensures { FragmentsGiveTheirMessage }
{}

/// Two of the fifteen bytes a word are the length.
#[tactic(auto, using(dc_station_rules::proofs::MessageBursts::short_message))]
pub fn messages_are_short()
    ensures { MessagesAreShort }
{}
