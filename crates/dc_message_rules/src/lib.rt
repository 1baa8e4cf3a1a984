//! The law of messages as definitions: what stations send and receive where there is no coalition.
#![tactic(auto)]

mod laws;

pub use laws::{
    epoch_lengths, epochs_deliver, epochs_rise, epochs_stand, histories_are_sums, logs_agree,
    messages_balance, nothing_is_void, sums_are_plain,
};
