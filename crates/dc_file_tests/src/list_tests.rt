use crate::answers::{done, fault_of};
use dc_field::{Bytes, ListFault, ListKind};
use dc_graph::read_perm;
use dc_steer::read_wanted;
use std::process::Abort;
use std::test::*;

fn images_are<R: AllocGlobal + Abort>(rt: &R, text: &[u8], due: &[u16]) {
    let images = done(rt, read_perm(rt.alloc(), text));
    assert_eq!(rt; images.as_slice(), due);
}

fn no_images<R: AllocGlobal + Abort>(rt: &R, text: &[u8], line: u32, kind: ListKind) {
    let due = ListFault { line, kind };
    assert_eq!(rt; fault_of(rt, read_perm(rt.alloc(), text)), Some(due));
}

fn no_words<R: AllocGlobal + Abort>(rt: &R, text: &[u8], line: u32, kind: ListKind) {
    let due = ListFault { line, kind };
    assert_eq!(rt; fault_of(rt, read_wanted(rt.alloc(), text)), Some(due));
}

/// A piece so many times, then an end.
fn times<R: AllocGlobal + Abort>(rt: &R, piece: &[u8], count: u32, end: &[u8]) -> Bytes {
    let mut text = Vec::new(rt.alloc());
    for _ in 0..count {
        done(rt, text.extend_from_slice(piece));
    }
    done(rt, text.extend_from_slice(end));
    Bytes::from_vec(text)
}

/// A beginning, seventy-five zeros, an end.
fn padded<R: AllocGlobal + Abort>(rt: &R, start: &[u8], end: &[u8]) -> Bytes {
    let mut text = done(rt, Vec::from_slice(rt.alloc(), start));
    let zeros = times(rt, b"00000", 15, end);
    done(rt, text.extend_from_slice(zeros.as_slice()));
    Bytes::from_vec(text)
}

/// One word is read, with this first symbol and zeros.
fn word_is<R: AllocGlobal + Abort>(rt: &R, start: &[u8], first: u32) {
    let text = padded(rt, start, b"\n");
    let words = done(rt, read_wanted(rt.alloc(), text.as_slice()));
    let due = [first, 0, 0, 0, 0, 0, 0, 0, 0, 0, 0, 0, 0, 0, 0, 0];
    match words.as_slice().first() {
        Some(word) => assert_eq!(rt; word.numbers().as_slice(), due.as_slice()),
        None => panic!(rt; "no word"),
    }
    assert_eq!(rt; words.as_slice().len(), 1);
}

/// One line with this beginning before its zeros, and this end.
fn no_word<R: AllocGlobal + Abort>(rt: &R, start: &[u8], end: &[u8], kind: ListKind) {
    let text = padded(rt, start, end);
    no_words(rt, text.as_slice(), 1, kind);
}

#[test]
fn images(rt: HostRuntime) {
    images_are(&rt, b"", &[]);
    images_are(&rt, b"2\n1\n0\n", &[2, 1, 0]);
    images_are(&rt, b"0\n255\n255\n", &[0, 255, 255]);
}

#[test]
fn first_fault_of_images(rt: HostRuntime) {
    no_images(&rt, b"0\n256\n", 2, ListKind::Number);
    no_images(&rt, b"07\n", 1, ListKind::Number);
    no_images(&rt, b"1\n\n", 2, ListKind::Number);
    no_images(&rt, b"+1\n", 1, ListKind::Number);
    no_images(&rt, b"1 \n", 1, ListKind::Number);
    no_images(&rt, b"4294967296\n", 1, ListKind::Number);
    no_images(&rt, b"0\n1", 2, ListKind::NotText);
    no_images(&rt, b"0\n1\r\n", 2, ListKind::NotText);
    no_images(&rt, b"0\nx\n1\r\n2", 2, ListKind::Number);
}

#[test]
fn at_most_256_images(rt: HostRuntime) {
    let text = times(&rt, b"7\n", 256, b"");
    let images = done(&rt, read_perm(rt.alloc(), text.as_slice()));
    assert_eq!(rt; images.as_slice().len(), 256);
    let text = times(&rt, b"7\n", 257, b"");
    no_images(&rt, text.as_slice(), 257, ListKind::TooMany);
    let text = times(&rt, b"7\n", 256, b"x\n");
    no_images(&rt, text.as_slice(), 257, ListKind::TooMany);
    let text = times(&rt, b"7\n", 256, b"7");
    no_images(&rt, text.as_slice(), 257, ListKind::NotText);
}

#[test]
fn wanted_words(rt: HostRuntime) {
    let nothing = done(&rt, read_wanted(rt.alloc(), b""));
    assert_eq!(rt; nothing.as_slice().len(), 0);
    word_is(&rt, b"0001f", 31);
    word_is(&rt, b"10000", 65536);
}

#[test]
fn first_fault_of_wanted_words(rt: HostRuntime) {
    no_word(&rt, b"0000", b"\n", ListKind::Word);
    no_word(&rt, b"000000", b"\n", ListKind::Word);
    no_word(&rt, b"0001F", b"\n", ListKind::Word);
    no_word(&rt, b"10001", b"\n", ListKind::Word);
    no_word(&rt, b"00000", b"", ListKind::NotText);
    no_word(&rt, b"0000\t", b"\n", ListKind::NotText);
    no_word(&rt, b"", b"\n0", ListKind::Word);
}

#[test]
fn at_most_4096_wanted_words(rt: HostRuntime) {
    let word = padded(&rt, b"00001", b"\n");
    let text = times(&rt, word.as_slice(), 4096, b"");
    let words = done(&rt, read_wanted(rt.alloc(), text.as_slice()));
    assert_eq!(rt; words.as_slice().len(), 4096);
    let text = times(&rt, word.as_slice(), 4096, word.as_slice());
    no_words(&rt, text.as_slice(), 4097, ListKind::TooMany);
    let text = times(&rt, word.as_slice(), 4096, b"0\n");
    no_words(&rt, text.as_slice(), 4097, ListKind::TooMany);
    let text = times(&rt, word.as_slice(), 4095, b"0\n");
    no_words(&rt, text.as_slice(), 4096, ListKind::Word);
}
