//! Frames: their bytes by hand, and a reader that is fed in pieces.

ghost use Rattle.std.specs.Prelude.{◌<◌};

use dc_field::{Sym, Word};
use dc_frame::{Frame, FrameFault, FrameKind, Reader, frame_bytes};
use std::process::Abort;

/// The bytes of the hello of station 1 of 3 in a session of 4096 words.
const HELLO: [u8; 9] = [1, 0, 6, 0, 1, 0, 3, 16, 0];

/// The word whose first symbol is 2, whose last is 65536, and whose others are 0.
fn word() -> Word {
    let mut w = Word::zero();
    if let Some(two) = Sym::new(2) {
        w.set(0, two);
    }
    if let Some(most) = Sym::new(65536) {
        w.set(15, most);
    }
    w
}

/// The bytes of that word for round 258, with a tag.
fn word_frame(tag: u8) -> [u8; 69] {
    let mut bytes = [0; 69];
    bytes[0] = tag;
    bytes[2] = 66;
    bytes[3] = 1;
    bytes[4] = 2;
    bytes[8] = 2;
    bytes[66] = 1;
    bytes
}

/// Feeds bytes in pieces of at most so many, until a whole frame is there. What is left of the bytes.
fn feed<'a>(reader: &mut Reader, bytes: &'a [u8], most: usize) -> Result<&'a [u8], FrameFault> {
    let mut rest = bytes;
    for _ in 0..bytes.len() {
        let size = reader.need().min(most).min(rest.len());
        if size == 0 {
            break;
        }
        reader.feed(&rest[..size])?;
        rest = &rest[size..];
    }
    Ok(rest)
}

/// Asserts the bytes of a frame.
fn has_bytes<R: Abort>(rt: &R, frame: &Frame, due: &[u8]) {
    assert_eq!(rt; frame_bytes(frame).bytes(), due);
}

/// Asserts that the reader has this frame after so many bytes, and takes it out.
fn takes<R: Abort>(rt: &R, reader: &mut Reader, due: &[u8], fed: u64) {
    assert_eq!(rt; reader.need(), 0);
    assert_eq!(rt; reader.fed(), fed);
    let frame = reader.take().expect(rt, "a frame is there");
    has_bytes(rt, &frame, due);
    assert_eq!(rt; reader.need(), 3);
    assert!(rt; reader.take().is_none());
}

#[test]
fn bytes_of_frames(rt: HostRuntime) {
    let hello = Frame::Hello {
        station: 1,
        stations: 3,
        words: 4096,
    };
    has_bytes(&rt, &hello, &HELLO);
    let send = Frame::Send {
        round: 258,
        word: word(),
    };
    has_bytes(&rt, &send, &word_frame(2));
    let all = Frame::All {
        round: 258,
        word: word(),
    };
    has_bytes(&rt, &all, &word_frame(3));
}

/// Asserts that two frames are read from their bytes in pieces of at most so many.
fn reads_two<R: Abort>(rt: &R, most: usize) {
    let mut reader = Reader::new();
    assert_eq!(rt; feed(&mut reader, &HELLO, most), Ok(b"".as_slice()));
    takes(rt, &mut reader, &HELLO, 9);
    let second = word_frame(2);
    assert_eq!(rt; feed(&mut reader, &second, most), Ok(b"".as_slice()));
    takes(rt, &mut reader, &second, 78);
}

#[test]
fn frames_in_pieces(rt: HostRuntime) {
    reads_two(&rt, 1);
    reads_two(&rt, 2);
    reads_two(&rt, 50);
    reads_two(&rt, 69);
}

/// All bytes but the last.
fn without_last(bytes: &[u8]) -> &[u8] {
    match bytes {
        [front @ .., _] => front,
        [] => bytes,
    }
}

#[test]
fn an_unfinished_frame(rt: HostRuntime) {
    let mut reader = Reader::new();
    let bytes = word_frame(3);
    assert_eq!(rt;
        feed(&mut reader, without_last(&bytes), 69),
        Ok(b"".as_slice())
    );
    assert!(rt; reader.take().is_none());
    assert_eq!(rt; (reader.need(), reader.fed()), (1, 68));
}

/// Asserts that bytes are refused by this fault as the first frame; and as the second, behind nine bytes more.
fn refuses<R: Abort>(rt: &R, bytes: &[u8], at: u64, kind: FrameKind) {
    let mut reader = Reader::new();
    assert_eq!(rt; feed(&mut reader, bytes, 69), Err(FrameFault { at, kind }));
    let mut reader = Reader::new();
    assert_eq!(rt; feed(&mut reader, &HELLO, 69), Ok(b"".as_slice()));
    takes(rt, &mut reader, &HELLO, 9);
    let later = FrameFault {
        at: at.saturating_add(9),
        kind,
    };
    assert_eq!(rt; feed(&mut reader, bytes, 69), Err(later));
}

/// The word frame with this number in the place of symbol `l`.
fn with_symbol(l: usize, number: u32) -> [u8; 69]
    requires { l < 16 }
{
    let mut bytes = word_frame(3);
    let at = 5 + 4 * l;
    bytes[at..at + 4].copy_from_slice(&number.to_be_bytes());
    bytes
}

#[test]
fn faults_of_frames(rt: HostRuntime) {
    refuses(&rt, &[9, 0, 66], 0, FrameKind::Tag { seen: 9 });
    refuses(&rt, &[0, 0, 0], 0, FrameKind::Tag { seen: 0 });
    refuses(&rt, &[4, 0, 8], 0, FrameKind::Tag { seen: 4 });
    refuses(&rt, &[1, 0, 66], 1, FrameKind::Length { seen: 66 });
    refuses(&rt, &[2, 0, 65], 1, FrameKind::Length { seen: 65 });
    refuses(&rt, &[3, 1, 66], 1, FrameKind::Length { seen: 322 });
    refuses(
        &rt,
        &with_symbol(0, 65537),
        5,
        FrameKind::Symbol { seen: 65537 },
    );
    refuses(
        &rt,
        &with_symbol(15, u32::MAX),
        65,
        FrameKind::Symbol { seen: u32::MAX },
    );
}
