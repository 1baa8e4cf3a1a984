//! Reading a stream file.

ghost use Rattle.std.specs.Prelude.{◌≡◌, IfOk, IsSome, Ok, Some, length};
ghost use Rattle.dc_spec.specs.Entries.{Stream as stream_record};
ghost use Rattle.dc_formats.specs.StreamFile.{IsStream, stream_text};
ghost use Rattle.dc_field.specs.Answers.{Answers};
ghost use Rattle.dc_text.specs.Payload.{payload_in};
ghost use Rattle.dc_stream.specs.Items.{reported_length};
ghost use Rattle.dc_stream.specs.Reading.{stream_fault, stream_from_bytes};
ghost use Rattle.dc_stream.specs.ReadingByLists.{lists_with_coin, lists_with_line, lists_with_long, lists_with_short, stream_by_lists};

use crate::fault::{StreamFault, StreamKind};
use crate::stream::Stream;
use dc_field::{MOST_COINS, MOST_LONGS, MOST_MESSAGE, MOST_SHORTS, Refusal, Value, read_decimal};
use dc_text::{Digits, Lines, decode_payload, payload_bytes, payload_length};
use std::alloc::Global;

/// The stream that the bytes of a stream file spell, or the first fault.
///
/// A stream file is this project's own format. Bytes that do not spell a stream are refused with
/// the first faulty line, from 1, and what is wrong there. Only payload is copied.
pub fn read_stream(alloc: Global, b: &[u8]) -> Result<Stream, Refusal<StreamFault>>
    // The stream, or the fault of the first line that has one, by the order of the tests.
    ensures exact { Answers result (stream_from_bytes b.now) }
    // The stream that is read keeps the limits, and the bytes are its text.
    ensures found { IfOk result (λ s. IsStream s × (b.now ≡ stream_text s)) }
    // The text of each stream is read as that stream.
    ensures only { (s : stream_record) → IsStream s → b.now ≡ stream_text s →
        Answers result (Ok s) }
{
    read_lines(alloc, b)
}

/// Reads one line after another.
fn read_lines(alloc: Global, b: &[u8]) -> Result<Stream, Refusal<StreamFault>>
    ensures { Answers result (stream_by_lists b.now) }
{
    let digits = Digits::new();
    let mut stream = Stream::empty(alloc);
    let mut lines = Lines::new(b);
    while !lines.at_end() {
        let number = lines.number();
        let text = match lines.next() {
            Some(text) => text,
            None => return Err(refusal(number, StreamKind::NotText)),
        };
        stream = match with_text(alloc, &digits, stream, text) {
            Ok(stream) => stream,
            Err(Refusal::Bad(kind)) => return Err(refusal(number, kind)),
            Err(Refusal::NoMemory) => return Err(Refusal::NoMemory),
        };
    }
    Ok(stream)
}

/// The refusal of a line.
fn refusal(line: u32, kind: StreamKind) -> Refusal<StreamFault>
    ensures { result ≡ Refusal.Bad (stream_fault line kind) }
{
    Refusal::Bad(StreamFault { line, kind })
}

/// The stream with one more line.
#[tactic(auto, unfolding(crate::specs::ReadingByLists::lists_with_line))]
fn with_text(
    alloc: Global,
    digits: &Digits,
    stream: Stream,
    text: &[u8],
) -> Result<Stream, Refusal<StreamKind>>
    ensures { Answers result (lists_with_line stream text.now) }
{
    if text.starts_with(b"short ") {
        return with_short(digits, stream, &text[6..]);
    }
    if text.starts_with(b"long ") {
        return with_long(alloc, digits, stream, &text[5..]);
    }
    if text.starts_with(b"coin ") {
        return with_coin(stream, &text[5..]);
    }
    Err(Refusal::Bad(StreamKind::Word))
}

/// The stream with the short of this text.
#[tactic(auto, unfolding(crate::specs::ReadingByLists::lists_with_short))]
fn with_short(digits: &Digits, stream: Stream, text: &[u8]) -> Result<Stream, Refusal<StreamKind>>
    ensures { Answers result (lists_with_short stream text.now) }
{
    if !(stream.longs.as_slice().is_empty() && stream.coins.as_slice().is_empty()) {
        return Err(Refusal::Bad(StreamKind::Order));
    }
    if MOST_SHORTS <= stream.shorts.as_slice().len() {
        return Err(Refusal::Bad(StreamKind::TooMany));
    }
    match payload_length(text) {
        None => Err(Refusal::Bad(StreamKind::Hex)),
        Some(15) => Ok(stream.with_short(value_of(digits, text))?),
        Some(seen) => Err(too_long(seen)),
    }
}

/// The value of thirty digits.
fn value_of(digits: &Digits, payload: &[u8]) -> Value
    requires payload { IsSome (payload_in payload.now) }
    requires thirty { length payload.now ≡ 30 }
    ensures { payload_in payload.now ≡ Some result }
{
    let mut bytes = [0; 15];
    decode_payload(digits, payload, &mut bytes);
    Value { bytes }
}

/// The stream with the long of this payload.
#[tactic(auto, unfolding(crate::specs::ReadingByLists::lists_with_long))]
fn with_long(
    alloc: Global,
    digits: &Digits,
    stream: Stream,
    payload: &[u8],
) -> Result<Stream, Refusal<StreamKind>>
    ensures { Answers result (lists_with_long stream payload.now) }
{
    if !stream.coins.as_slice().is_empty() {
        return Err(Refusal::Bad(StreamKind::Order));
    }
    if MOST_LONGS <= stream.longs.as_slice().len() {
        return Err(Refusal::Bad(StreamKind::TooMany));
    }
    match payload_length(payload) {
        None => Err(Refusal::Bad(StreamKind::Hex)),
        Some(seen) if seen <= MOST_MESSAGE => Ok(stream.with_long(payload_bytes(
            alloc, digits, payload,
        )?)?),
        Some(seen) => Err(too_long(seen)),
    }
}

/// The stream with the coin of this number.
#[tactic(auto, unfolding(crate::specs::ReadingByLists::lists_with_coin))]
fn with_coin(stream: Stream, number: &[u8]) -> Result<Stream, Refusal<StreamKind>>
    ensures { Answers result (lists_with_coin stream number.now) }
{
    if MOST_COINS <= stream.coins.as_slice().len() {
        return Err(Refusal::Bad(StreamKind::TooMany));
    }
    match read_decimal(number) {
        Some(field) if field < 16 => Ok(stream.with_coin(field as u8)?),
        _ => Err(Refusal::Bad(StreamKind::Number)),
    }
}

/// The refusal of so many bytes.
fn too_long(seen: usize) -> Refusal<StreamKind>
    ensures { result ≡ Refusal.Bad (StreamKind.Length (reported_length seen)) }
{
    let reported = if seen < 4294967295 {
        seen as u32
    } else {
        4294967295
    };
    Refusal::Bad(StreamKind::Length { seen: reported })
}
