//! Frames and their bytes.

use dc_field::{Sym, Word};
use dc_frame::{Frame, frame_bytes};
use std::alloc::Global;
use std::test::*;

/// The word with this first and this last symbol, and zeros between.
pub(crate) fn word(first: u32, last: u32) -> Result<Word, Fail> {
    let mut w = Word::zero();
    w.set(0, Sym::new(first).ok_or("a symbol")?);
    w.set(15, Sym::new(last).ok_or("a symbol")?);
    Ok(w)
}

/// The hello of a station of so many, in a session of so many words.
pub(crate) fn hello(station: u16, stations: u16, words: u16) -> Frame {
    Frame::Hello {
        station,
        stations,
        words,
    }
}

/// A station's word for a round, with this first and this last symbol.
pub(crate) fn send(round: u16, first: u32, last: u32) -> Result<Frame, Fail> {
    let word = word(first, last)?;
    Ok(Frame::Send { round, word })
}

/// The sum of a round, with this first and this last symbol.
pub(crate) fn all(round: u16, first: u32, last: u32) -> Result<Frame, Fail> {
    let word = word(first, last)?;
    Ok(Frame::All { round, word })
}

/// The bytes of frames, one after the other.
pub(crate) fn text(alloc: Global, frames: &[Frame]) -> Result<Vec<u8>, Fail> {
    let mut bytes = Vec::new(alloc);
    for frame in frames {
        bytes.extend_from_slice(frame_bytes(frame).bytes())?;
    }
    Ok(bytes)
}

/// The bytes of a hello, and others behind it.
pub(crate) fn greeted(alloc: Global, hello: &Frame, others: &[u8]) -> Result<Vec<u8>, Fail> {
    let mut bytes = Vec::new(alloc);
    bytes.extend_from_slice(frame_bytes(hello).bytes())?;
    bytes.extend_from_slice(others)?;
    Ok(bytes)
}

/// The first bytes of some, at most so many.
pub(crate) fn front(bytes: &[u8], count: usize) -> &[u8] {
    &bytes[..count.min(bytes.len())]
}
