//! History-bound keys as definitions.
#![tactic(auto)]

mod laws;

pub use laws::keys_cancel;
