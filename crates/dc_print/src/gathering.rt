//! Text that is gathered in a buffer, which is put where the next piece does not fit. The place
//! where the kept text ends is given.

ghost use Rattle.std.specs.Prelude.{◌≡◌, ◌≤◌, ◌++◌, length, take, decimal};
ghost use Rattle.std.specs.List.{flat_map};
ghost use Rattle.dc_spec.specs.Text.{hex_digit as digit_char, line};
ghost use Rattle.dc_formats.specs.TextFile.{byte_text, hex_text};
ghost use Rattle.dc_formats.specs.WordLines.{pair_word_line};
ghost use Rattle.dc_print.specs.Gathering.{Gathers};

use crate::filling::fill_bytes;
use crate::lines::{LINE_BYTES, fill_pair_line};
use dc_edge::{Failed, Sink};
use dc_field::Word;
use itoa::Buffer;

/// Gathers some bytes.
pub fn gather_bytes<K: Sink>(
    buffer: &mut [u8],
    end: usize,
    bytes: &[u8],
    out: &mut K,
) -> Result<usize, Failed>
    requires end { end ≤ length buffer.old }
    requires size { length bytes.now ≤ length buffer.old }
    ensures { Gathers bytes.now (take end buffer.old) buffer.new
        (K.state out.old) (K.state out.new) result }
{
    if buffer.len() - end < bytes.len() {
        out.put(&buffer[..end])?;
        Ok(fill_bytes(buffer, 0, bytes))
    } else {
        Ok(fill_bytes(buffer, end, bytes))
    }
}

/// Gathers a text and a number, in decimal.
pub fn gather_number<K: Sink>(
    buffer: &mut [u8],
    end: usize,
    text: &[u8],
    n: u32,
    out: &mut K,
) -> Result<usize, Failed>
    requires end { end ≤ length buffer.old }
    requires room { 40 ≤ length buffer.old }
    requires text { length text.now ≤ 40 }
    ensures { Gathers (text.now ++ decimal n) (take end buffer.old) buffer.new
        (K.state out.old) (K.state out.new) result }
{
    let end = gather_bytes(buffer, end, text, out)?;
    let mut digits = Buffer::new();
    gather_bytes(buffer, end, digits.format(n).as_bytes(), out)
}

/// Gathers a text, a number and the end of the line.
pub fn gather_number_line<K: Sink>(
    buffer: &mut [u8],
    end: usize,
    text: &[u8],
    n: u32,
    out: &mut K,
) -> Result<usize, Failed>
    requires end { end ≤ length buffer.old }
    requires room { 40 ≤ length buffer.old }
    requires text { length text.now ≤ 40 }
    ensures { Gathers (line (text.now ++ decimal n)) (take end buffer.old) buffer.new
        (K.state out.old) (K.state out.new) result }
{
    let end = gather_number(buffer, end, text, n, out)?;
    gather_bytes(buffer, end, b"\n", out)
}

/// Gathers a line: a beginning of at most seven bytes, the two stations of a pair, a round and a
/// word. The buffer has room for a line.
pub fn gather_pair_line<K: Sink>(
    buffer: &mut [u8],
    end: usize,
    beginning: &[u8],
    ends: (u16, u16),
    r: u16,
    w: &Word,
    out: &mut K,
) -> Result<usize, Failed>
    requires end { end ≤ length buffer.old }
    requires room { LINE_BYTES ≤ length buffer.old }
    requires beginning { length beginning.now ≤ 7 }
    ensures { Gathers (pair_word_line beginning.now ends.0 ends.1 r w.now) (take end buffer.old)
        buffer.new (K.state out.old) (K.state out.new) result }
{
    let mut text = [0u8; LINE_BYTES];
    let filled = fill_pair_line(&mut text, 0, beginning, ends, r, w);
    gather_bytes(buffer, end, &text[..filled], out)
}

/// Gathers two digits for each of some bytes.
fn gather_hex<K: Sink>(
    buffer: &mut [u8],
    end: usize,
    bytes: &[u8],
    out: &mut K,
) -> Result<usize, Failed>
    requires end { end ≤ length buffer.old }
    requires room { 40 ≤ length buffer.old }
    ensures { Gathers (hex_text bytes.now) (take end buffer.old) buffer.new
        (K.state out.old) (K.state out.new) result }
{
    let mut end = end;
    for byte in bytes {
        end = gather_bytes(buffer, end, &digits_of(*byte), out)?;
    }
    Ok(end)
}

/// The two digits of a byte.
fn digits_of(byte: u8) -> [u8; 2]
    ensures { result ≡ byte_text byte }
{
    [digit(byte / 16), digit(byte % 16)]
}

/// The character of a digit from 0 to 15.
fn digit(d: u8) -> u8
    requires { d ≤ 15 }
    ensures { result ≡ digit_char d }
{
    if d < 10 { b'0' + d } else { b'a' + (d - 10) }
}

/// Gathers a text and some bytes in digits.
fn gather_payload<K: Sink>(
    buffer: &mut [u8],
    end: usize,
    text: &[u8],
    bytes: &[u8],
    out: &mut K,
) -> Result<usize, Failed>
    requires end { end ≤ length buffer.old }
    requires room { 40 ≤ length buffer.old }
    requires text { length text.now ≤ 40 }
    ensures { Gathers (text.now ++ hex_text bytes.now) (take end buffer.old) buffer.new
        (K.state out.old) (K.state out.new) result }
{
    let end = gather_bytes(buffer, end, text, out)?;
    gather_hex(buffer, end, bytes, out)
}

/// Gathers a text, some bytes in digits and the end of the line.
pub fn gather_payload_line<K: Sink>(
    buffer: &mut [u8],
    end: usize,
    text: &[u8],
    bytes: &[u8],
    out: &mut K,
) -> Result<usize, Failed>
    requires end { end ≤ length buffer.old }
    requires room { 40 ≤ length buffer.old }
    requires text { length text.now ≤ 40 }
    ensures { Gathers (line (text.now ++ hex_text bytes.now)) (take end buffer.old) buffer.new
        (K.state out.old) (K.state out.new) result }
{
    let end = gather_payload(buffer, end, text, bytes, out)?;
    gather_bytes(buffer, end, b"\n", out)
}
