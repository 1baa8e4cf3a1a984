//! The outside as the program sees it: a shelf of files, a sink of bytes, a wire to peers, a gate; in memory and over std.
#![tactic(auto)]

mod beside;
mod calls;
mod dir_shelf;
mod fault;
mod fed_peer;
mod gate;
mod memory_shelf;
mod memory_sink;
mod memory_wire;
mod opened;
mod shelf;
mod sink;
mod std_sink;
mod tcp_wire;
mod wire;

pub use dir_shelf::DirShelf;
pub use fault::{Failed, LinkFault, ShelfFault, WriteFault};
pub use gate::{Gate, OpenGate};
pub use memory_shelf::MemoryShelf;
pub use memory_sink::MemorySink;
pub use memory_wire::MemoryWire;
pub use opened::read_rest;
pub use shelf::Shelf;
pub use sink::Sink;
pub use std_sink::StdSink;
pub use tcp_wire::TcpWire;
pub use wire::Wire;
