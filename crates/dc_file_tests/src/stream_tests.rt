use crate::answers::{done, fault_of};
use dc_field::{Bytes, Value};
use dc_stream::{Stream, StreamFault, StreamKind, read_stream, stream_text};
use std::process::Abort;
use std::test::*;

fn refused<R: AllocGlobal + Abort>(rt: &R, text: &[u8], line: u32, kind: StreamKind) {
    let due = StreamFault { line, kind };
    assert_eq!(rt; fault_of(rt, read_stream(rt.alloc(), text)), Some(due));
}

/// A stream file is read, copied and written as the same bytes.
fn kept<R: AllocGlobal + Abort>(rt: &R, text: &[u8]) {
    let stream = done(rt, read_stream(rt.alloc(), text));
    let copy = done(rt, stream.copy(rt.alloc()));
    let again = done(rt, stream_text(rt.alloc(), &copy));
    assert_eq!(rt; again.as_slice(), text);
}

fn written<R: AllocGlobal + Abort>(rt: &R, stream: &Stream, due: &[u8]) {
    let text = done(rt, stream_text(rt.alloc(), stream));
    assert_eq!(rt; text.as_slice(), due);
}

/// A piece so many times, then an end.
fn times<R: AllocGlobal + Abort>(
    rt: &R,
    start: &[u8],
    piece: &[u8],
    count: u32,
    end: &[u8],
) -> Bytes {
    let mut text = done(rt, Vec::from_slice(rt.alloc(), start));
    for _ in 0..count {
        done(rt, text.extend_from_slice(piece));
    }
    done(rt, text.extend_from_slice(end));
    Bytes::from_vec(text)
}

/// So many lines are a stream file; one more is refused before its payload is tested.
fn counted<R: AllocGlobal + Abort>(rt: &R, line: &[u8], most: u32, faulty: u32, other: &[u8]) {
    let text = times(rt, b"", line, most, b"");
    kept(rt, text.as_slice());
    let text = times(rt, b"", line, most, other);
    refused(rt, text.as_slice(), faulty, StreamKind::TooMany);
}

#[test]
fn streams_that_are_made(rt: HostRuntime) {
    let alloc = rt.alloc();
    let nothing = Stream::empty(alloc);
    written(&rt, &nothing, b"");
    let bytes = [0, 0, 0, 0, 0, 0, 0, 0, 0, 0, 0, 0, 0, 1, 255];
    let stream = done(&rt, nothing.with_short(Value { bytes }));
    let stream = done(&rt, stream.with_long(Bytes::from_vec(Vec::new(alloc))));
    let stream = done(&rt, stream.with_coin(5));
    let due = b"short 0000000000000000000000000001ff\nlong \ncoin 5\n";
    written(&rt, &stream, due);
}

#[test]
fn streams_that_are_read(rt: HostRuntime) {
    kept(&rt, b"");
    kept(&rt, b"long aa\ncoin 5\ncoin 5\n");
    kept(&rt, b"long bb\ncoin 5\ncoin 9\n");
    kept(
        &rt,
        b"short 7faebbb3d700f7bf92387b295561ff\nlong \nlong 0ae1\ncoin 15\n",
    );
}

#[test]
fn lines_that_are_not_text(rt: HostRuntime) {
    refused(&rt, b" ", 1, StreamKind::NotText);
    refused(&rt, b"coin 5\ncoin 15", 2, StreamKind::NotText);
    refused(&rt, b"coin 5\r\n", 1, StreamKind::NotText);
    refused(&rt, b"long \x7f\ncoin 16\n", 1, StreamKind::NotText);
    refused(&rt, b"coin 5\ncoin 9\n0 ", 3, StreamKind::NotText);
}

#[test]
fn words_and_orders(rt: HostRuntime) {
    refused(&rt, b"\n", 1, StreamKind::Word);
    refused(&rt, b"long\n", 1, StreamKind::Word);
    refused(&rt, b" coin 5\n", 1, StreamKind::Word);
    refused(&rt, b"long 3ef6\ncogn 15\ncoin 5\n00", 2, StreamKind::Word);
    refused(&rt, b"coin 1\nlong \n", 2, StreamKind::Order);
    refused(&rt, b"long 80\nshort x\n", 2, StreamKind::Order);
    refused(&rt, b"coin 0\nshort x\n", 2, StreamKind::Order);
    refused(&rt, b"long 80\ncoin 0\nlong 08\n\n", 3, StreamKind::Order);
}

#[test]
fn numbers_and_digits(rt: HostRuntime) {
    refused(&rt, b"coin 9\ncoin 00\n", 2, StreamKind::Number);
    refused(&rt, b"coin 16\n", 1, StreamKind::Number);
    refused(&rt, b"coin \n", 1, StreamKind::Number);
    refused(&rt, b"coin 4294967301\n", 1, StreamKind::Number);
    refused(&rt, b"coin 5 \n", 1, StreamKind::Number);
    refused(&rt, b"long 0A\n", 1, StreamKind::Hex);
    refused(&rt, b"long 0aa\n", 1, StreamKind::Hex);
    refused(&rt, b"short short 01\ncoin 5\n", 1, StreamKind::Hex);
    refused(&rt, b"short 0\n", 1, StreamKind::Hex);
}

#[test]
fn lengths(rt: HostRuntime) {
    refused(&rt, b"short \n", 1, StreamKind::Length { seen: 0 });
    let short = b"short 00000000000000000000000000000000\n";
    refused(&rt, short, 1, StreamKind::Length { seen: 16 });
    let long = times(&rt, b"long ", b"e7", 3838, b"\n");
    kept(&rt, long.as_slice());
    let long = times(&rt, b"long ", b"e7", 3839, b"\n");
    refused(&rt, long.as_slice(), 1, StreamKind::Length { seen: 3839 });
}

#[test]
fn counts(rt: HostRuntime) {
    let short = b"short 000000000000000000000000000003\n";
    counted(&rt, short, 4096, 4097, b"short x\n");
    counted(&rt, b"long 0f\n", 256, 257, b"long 0f\n");
    counted(&rt, b"coin 7\n", 4096, 4097, b"coin 99\n");
}
