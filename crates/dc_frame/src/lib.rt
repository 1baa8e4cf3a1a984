//! Frames, which stations and the hub send each other: their bytes, and a reader of bytes that come in pieces.
#![tactic(auto)]

mod fault;
mod first;
mod frame;
mod laws;
mod reader;
mod written;

pub use fault::{FrameFault, FrameKind};
pub use frame::Frame;
pub use laws::frames_are_read;
pub use reader::Reader;
pub use written::{FrameBytes, frame_bytes};
