//! Payload in hexadecimal digits.

ghost use Rattle.std.specs.Prelude.{◌≡◌, ◌+◌, ◌*◌, IfOk, IfSome, IsSome, Some, is_some, length, option_map};
ghost use Rattle.std.specs.List.{list_all};
ghost use Rattle.dc_field.specs.WordInText.{count_of, digit_in};
ghost use Rattle.dc_text.specs.Payload.{AreCounts, payload_in};

use dc_field::{Bytes, NoMemory};
use std::alloc::Global;
use std::marker::Model;

/// What each character counts as a digit of payload: what `hex` reads of it, and 16 where it is no
/// lower-case digit. With such a table payload is read without a choice at each digit.
#[derive(Debug, Drop)]
pub struct Digits {
    counts: [u8; 256],
}

impl Model for Digits {
    ghost use Rattle.std.specs.Prelude.{ℕ, List};
    ghost use Rattle.dc_text.specs.Payload.{AreCounts};

    ghost Value = { List ℕ };

    ghost view = { λ d. d.counts };

    ghost invariant = { λ d. AreCounts d.counts };
}

impl Digits {
    /// Asks `hex` for each of the sixteen digits.
    pub fn new() -> Digits
        ensures { AreCounts result }
    {
        Digits {
            counts: all_counts(),
        }
    }
}

/// What each character counts.
fn all_counts() -> [u8; 256]
    ensures { AreCounts result }
{
    let mut counts = [0u8; 256];
    for c in 0..256 {
        counts[c] = count_of(c as u8);
    }
    counts
}

/// What a character counts.
fn count_of(c: u8) -> u8
    ensures { result ≡ count_of c }
{
    if is_digit(c) { count_of_digit(c) } else { 16 }
}

/// What `hex` reads of a digit after a zero.
fn count_of_digit(c: u8) -> u8
    requires { IsSome (digit_in c) }
    ensures { digit_in c ≡ Some result }
{
    let text = [b'0', c];
    let mut byte = [0u8; 1];
    let _ = hex::decode_to_slice(text, &mut byte);
    byte[0]
}

/// How many bytes a text is, two lower-case hexadecimal digits a byte. None where it has another
/// character or an odd number of digits.
pub fn payload_length(text: &[u8]) -> Option<usize>
    ensures counted { result ≡ option_map length (payload_in text.now) }
    // The same in parts, for callers: the text is payload, and has two digits a byte.
    ensures payload { IsSome result → IsSome (payload_in text.now) }
    ensures digits { IfSome result (λ n. length text.now ≡ 2 * n) }
{
    if text.len() % 2 == 0 && are_digits(text) {
        Some(text.len() / 2)
    } else {
        None
    }
}

/// Whether all characters are lower-case hexadecimal digits. It goes on after one that is none, so
/// that many are tested at a time.
fn are_digits(text: &[u8]) -> bool
    ensures { result ≡ list_all (λ c. is_some (digit_in c)) text.now }
{
    let mut good = true;
    for c in text {
        good = is_digit(*c) & good;
    }
    good
}

/// Whether a character is a lower-case hexadecimal digit.
fn is_digit(c: u8) -> bool
    ensures { result ≡ is_some (digit_in c) }
{
    matches!(c, b'0'..=b'9' | b'a'..=b'f')
}

/// The bytes of payload.
pub fn payload_bytes(alloc: Global, digits: &Digits, text: &[u8]) -> Result<Bytes, NoMemory>
    requires { IsSome (payload_in text.now) }
    ensures { IfOk result (λ bytes. payload_in text.now ≡ Some bytes) }
{
    let mut bytes = vec![in alloc; 0u8; text.len() / 2]?;
    decode_payload(digits, text, bytes.as_mut_slice());
    Ok(Bytes::from_vec(bytes))
}

/// Puts the bytes of payload into room of their number.
pub fn decode_payload(digits: &Digits, text: &[u8], out: &mut [u8])
    requires payload { IsSome (payload_in text.now) }
    requires sized { length text.now ≡ 2 * length out.old }
    ensures { payload_in text.now ≡ Some out.new }
{
    decode_by(&digits.counts, text, out)
}

/// The same by a table of counts.
fn decode_by(counts: &[u8; 256], text: &[u8], out: &mut [u8])
    requires counts { AreCounts counts.now }
    requires payload { IsSome (payload_in text.now) }
    requires sized { length text.now ≡ 2 * length out.old }
    ensures { payload_in text.now ≡ Some out.new }
{
    for i in 0..out.len() {
        out[i] = byte_of(counts, text[2 * i], text[2 * i + 1]);
    }
}

/// The byte of two digits.
fn byte_of(counts: &[u8; 256], high: u8, low: u8) -> u8
    requires counts { AreCounts counts.now }
    requires high { IsSome (digit_in high) }
    requires low { IsSome (digit_in low) }
    ensures { result ≡ 16 * count_of high + count_of low }
{
    16 * counts[usize::from(high)] + counts[usize::from(low)]
}
