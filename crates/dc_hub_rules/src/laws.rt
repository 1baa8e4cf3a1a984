//! The law of arrivals. The function does nothing; its contract is the law.

ghost use Rattle.dc_hub_rules.specs.Laws.{BroadcastsAgree};

/// The order in which words arrive at a hub changes no broadcast, where none is refused.
pub fn broadcasts_agree()
    ensures { BroadcastsAgree }
{}
