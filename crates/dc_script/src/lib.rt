//! The script file: what a coalition says in each round, and what it delivers.
#![tactic(auto)]

mod delivery;
mod entry;
mod fault;
mod item;
mod progress;
mod quiet_script;
mod reading;
mod round;
mod rule;
mod said;
mod script;
mod term;
mod turns;
mod writing;

pub use delivery::Delivery;
pub use fault::{ScriptFault, ScriptKind};
pub use quiet_script::quiet;
pub use reading::read_script;
pub use round::{Round, Rounds};
pub use rule::{rule_word, rule_word_over};
pub use said::{Dealt, Said};
pub use script::Script;
pub use term::{Term, Terms};
pub use writing::script_text;
