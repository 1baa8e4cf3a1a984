//! The bytes of a frame.

ghost use Rattle.std.specs.Prelude.{◌≡◌};
ghost use Rattle.dc_formats.specs.Frames.{frame_bytes as bytes_of, tagged, hello_body, round_body};
ghost use Rattle.dc_frame.specs.Frames.{frame_of};

use crate::frame::Frame;
use arrayvec::ArrayVec;
use dc_field::{Word, word_bytes};
use std::marker::Model;

/// The bytes of one frame, 9 or 69; contracts see them as a list.
#[derive(Drop)]
pub struct FrameBytes {
    bytes: ArrayVec<u8, 69>,
}

impl Model for FrameBytes {
    ghost use Rattle.std.specs.Prelude.{ℕ, List};

    ghost Value = { List ℕ };

    ghost view = { λ b. b.bytes.items };
}

impl FrameBytes {
    /// The bytes in their order.
    pub fn bytes(&self) -> &[u8]
        ensures { result.now ≡ self.now }
    {
        self.bytes.as_slice()
    }
}

/// A tag of one byte, the length of the body in two bytes, the body. Numbers have their most significant byte first.
pub fn frame_bytes(f: &Frame) -> FrameBytes
    ensures { result ≡ bytes_of (frame_of f.now) }
{
    match f {
        Frame::Hello {
            station,
            stations,
            words,
        } => hello_bytes(*station, *stations, *words),
        Frame::Send { round, word } => round_bytes(2, *round, word),
        Frame::All { round, word } => round_bytes(3, *round, word),
    }
}

/// The bytes of a hello.
fn hello_bytes(station: u16, stations: u16, words: u16) -> FrameBytes
    ensures { result ≡ tagged 1 (hello_body station stations words) }
{
    let mut bytes = ArrayVec::new();
    bytes.try_extend_from_slice(&[1, 0, 6]).unwrap();
    bytes.try_extend_from_slice(&station.to_be_bytes()).unwrap();
    bytes
        .try_extend_from_slice(&stations.to_be_bytes())
        .unwrap();
    bytes.try_extend_from_slice(&words.to_be_bytes()).unwrap();
    FrameBytes { bytes }
}

/// The bytes of a word for a round, by the tag.
fn round_bytes(tag: u8, round: u16, word: &Word) -> FrameBytes
    ensures { result ≡ tagged tag (round_body round word.now) }
{
    let mut bytes = ArrayVec::new();
    bytes.try_extend_from_slice(&[tag, 0, 66]).unwrap();
    bytes.try_extend_from_slice(&round.to_be_bytes()).unwrap();
    bytes.try_extend_from_slice(&word_bytes(word)).unwrap();
    FrameBytes { bytes }
}
