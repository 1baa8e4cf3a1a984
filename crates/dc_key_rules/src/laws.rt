//! The law of keys. The function does nothing; its contract is the law.

ghost use Rattle.dc_key_rules.specs.Laws.{KeysCancel};

/// The keys of stations that received the same words add up to zero.
pub fn keys_cancel()
    ensures { KeysCancel }
{}
