//! The key graph: which stations share pads, and which of them work together.
#![tactic(auto)]

mod coalition;
mod fault;
mod forest;
mod graph;
mod honest;
mod judging;
mod perm;
mod place;
mod upwards;
mod walk;

pub use coalition::Coalition;
pub use fault::{GraphFault, MemberFault};
pub use forest::Forest;
pub use graph::Graph;
pub use perm::{Perm, read_perm};
