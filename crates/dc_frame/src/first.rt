//! The first frame of bytes.

ghost use Rattle.std.specs.Prelude.{◌≡◌, ◌+◌, ◌≤◌, ◌≢◌, length, take, drop, slice_index, option_map, Ok};
ghost use Rattle.dc_field.specs.WordInBytes.{word_of_bytes};
ghost use Rattle.dc_frame.specs.Frames.{frame_of, read_of};
ghost use Rattle.dc_frame.specs.Reading.{first, body_of, body_length as length_of_body, header_of, missing as missing_of, worded, round_frame as frame_of_round};
ghost use Rattle.dc_frame.specs.Reader.{IsOneFrame};

use crate::fault::{FrameFault, FrameKind};
use crate::frame::Frame;
use dc_field::{Word, read_word};

/// The first frame, where it is whole, or its fault with the place in the frame.
#[tactic(auto, unfolding(crate::specs::Reading::first))]
pub(crate) fn first_frame(b: &[u8]) -> Result<Option<Frame>, FrameFault>
    ensures { read_of result ≡ first b.now }
{
    if b.len() < 3 {
        return Ok(None);
    }
    match read_header(b) {
        Ok(size) if b.len() < 3 + usize::from(size) => Ok(None),
        Ok(_) => read_body(b),
        Err(fault) => Err(fault),
    }
}

/// The frame that bytes of one frame are, where it is whole.
pub(crate) fn whole_frame(b: &[u8]) -> Option<Frame>
    requires { IsOneFrame (length b.now) (first b.now) }
    ensures { Ok (option_map frame_of result) ≡ first b.now }
{
    match first_frame(b) {
        Ok(found) => found,
        Err(_) => None,
    }
}

/// How many bytes of one frame are still to come: of its header, else of its body.
pub(crate) fn missing(b: &[u8]) -> usize
    requires { IsOneFrame (length b.now) (first b.now) }
    ensures { result ≡ missing_of b.now }
{
    if 3 <= b.len() {
        return 3 + usize::from(body_length(b[0]).unwrap_or(0)) - b.len();
    }
    3 - b.len()
}

/// How long the body of a frame with this tag is.
fn body_length(tag: u8) -> Option<u16>
    ensures { result ≡ length_of_body tag }
{
    match tag {
        1 => Some(6),
        2 | 3 => Some(66),
        _ => None,
    }
}

/// How long the body is, by a header of three bytes, or the header's fault.
fn read_header(b: &[u8]) -> Result<u16, FrameFault>
    requires { 3 ≤ length b.now }
    ensures { result ≡ header_of b.now }
{
    let Some(size) = body_length(b[0]) else {
        return Err(FrameFault {
            at: 0,
            kind: FrameKind::Tag { seen: b[0] },
        });
    };
    let seen = u16::from_be_bytes([b[1], b[2]]);
    if seen != size {
        return Err(FrameFault {
            at: 1,
            kind: FrameKind::Length { seen },
        });
    }
    Ok(size)
}

/// The frame of a whole body, or the body's fault.
fn read_body(b: &[u8]) -> Result<Option<Frame>, FrameFault>
    requires hello { slice_index b.now 0 ≡ 1 → 9 ≤ length b.now }
    requires word { slice_index b.now 0 ≢ 1 → 69 ≤ length b.now }
    ensures { read_of result ≡ body_of b.now }
{
    if b[0] != 1 {
        return read_round(b);
    }
    Ok(Some(Frame::Hello {
        station: u16::from_be_bytes([b[3], b[4]]),
        stations: u16::from_be_bytes([b[5], b[6]]),
        words: u16::from_be_bytes([b[7], b[8]]),
    }))
}

/// The frame of a word, or the word's first bad symbol.
fn read_round(b: &[u8]) -> Result<Option<Frame>, FrameFault>
    requires { 69 ≤ length b.now }
    ensures { read_of result ≡ worded b.now (word_of_bytes (take 64 (drop 5 b.now))) }
{
    match read_word(&b[5..69]) {
        Ok(word) => {
            let round = u16::from_be_bytes([b[3], b[4]]);
            Ok(Some(round_frame(b[0], round, word)))
        }
        Err(fault) => Err(FrameFault {
            at: 5 + 4 * u64::from(fault.symbol),
            kind: FrameKind::Symbol { seen: fault.seen },
        }),
    }
}

/// The frame of a word for a round, by the tag.
fn round_frame(tag: u8, round: u16, word: Word) -> Frame
    ensures { frame_of result ≡ frame_of_round tag round word }
{
    if tag == 2 {
        Frame::Send { round, word }
    } else {
        Frame::All { round, word }
    }
}
