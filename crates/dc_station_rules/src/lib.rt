//! The protocol of one station as definitions: groups, bursts, epochs, cycles, plain words, logs.
#![tactic(auto)]

mod laws;

pub use laws::{
    every_begun_cycle_goes_on, every_burst_is_message_or_void, every_epoch_is_whole_or_void,
    every_history_is_cycles_in_one_way, every_proper_prefix_is_begun, leaves_add_up,
    leaves_are_few, leaves_grow, logs_fit, messages_fit, only_roots_are_empty,
};
