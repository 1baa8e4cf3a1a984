use crate::answers::done;
use dc_text::{Digits, Lines, decode_payload, payload_bytes, payload_length};
use std::process::Abort;
use std::test::*;

/// The next line has this number and this text.
fn next_is<R: Abort>(rt: &R, lines: &mut Lines<'_>, number: u32, due: Option<&[u8]>) {
    assert_eq!(rt; lines.number(), number);
    if lines.at_end() {
        panic!(rt; "a line is left");
    }
    assert_eq!(rt; lines.next(), due);
}

fn first_is<R: Abort>(rt: &R, bytes: &[u8], due: Option<&[u8]>) {
    let mut lines = Lines::new(bytes);
    next_is(rt, &mut lines, 1, due);
}

fn length_is<R: Abort>(rt: &R, text: &str, due: Option<usize>) {
    assert_eq!(rt; payload_length(text.as_bytes()), due, "{text}");
}

#[test]
fn lines(rt: HostRuntime) {
    first_is(&rt, b"long \nx", Some(b"long "));
    first_is(&rt, b"\n\n", Some(b""));
    first_is(&rt, b" ~\n", Some(b" ~"));
    first_is(&rt, b"coin 5", None);
    first_is(&rt, b"a\tb\n", None);
    first_is(&rt, b"a\x7f\n", None);
    first_is(&rt, b"a\r\n", None);
    first_is(&rt, b"\xc3\xa4\n", None);
    first_is(&rt, b"\x00", None);
}

#[test]
fn one_line_after_another(rt: HostRuntime) {
    let mut lines = Lines::new(b"a\n\nb c\nd");
    next_is(&rt, &mut lines, 1, Some(b"a"));
    next_is(&rt, &mut lines, 2, Some(b""));
    next_is(&rt, &mut lines, 3, Some(b"b c"));
    next_is(&rt, &mut lines, 4, None);
    next_is(&rt, &mut lines, 4, None);
    assert!(rt; Lines::new(b"").at_end());
}

#[test]
fn lengths_of_payload(rt: HostRuntime) {
    length_is(&rt, "", Some(0));
    length_is(&rt, "0a", Some(1));
    length_is(&rt, "00ff10", Some(3));
    length_is(&rt, "0A", None);
    length_is(&rt, "0", None);
    length_is(&rt, "0a0", None);
    length_is(&rt, "0g", None);
    length_is(&rt, "/0", None);
    length_is(&rt, "0:", None);
    length_is(&rt, "0`", None);
}

#[test]
fn bytes_of_payload(rt: HostRuntime) {
    let digits = Digits::new();
    let text = b"00ff10".as_slice();
    if payload_length(text) == Some(3) {
        let bytes = done(&rt, payload_bytes(rt.alloc(), &digits, text));
        assert_eq!(rt; bytes.as_slice(), [0, 255, 16].as_slice());
        let mut out = [9; 3];
        decode_payload(&digits, text, &mut out);
        assert_eq!(rt; out.as_slice(), [0, 255, 16].as_slice());
    }
}
