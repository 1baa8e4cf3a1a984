//! Lines of printed texts, each filled into a buffer from a place on. The place after the line is
//! given.

ghost use Rattle.std.specs.Prelude.{◌≡◌, ◌+◌, ◌≤◌, ◌++◌, length, codes, decimal};
ghost use Rattle.dc_spec.specs.Text.{line, word_text as text_of};
ghost use Rattle.dc_formats.specs.WordLines.{station_word_line, pair_word_line};
ghost use Rattle.dc_print.specs.Filling.{Fills};

use crate::filling::{fill_bytes, fill_number};
use dc_field::{Word, word_text};

/// The most bytes of a line: a beginning of seven, three numbers of five digits with a blank after
/// each, a word, a line feed.
pub const LINE_BYTES: usize = 106;

/// Fills in a beginning and a number.
pub fn fill_number_line(buffer: &mut [u8], at: usize, beginning: &[u8], n: u16) -> usize
    requires beginning { length beginning.now ≤ 7 }
    requires room { at + LINE_BYTES ≤ length buffer.old }
    ensures text { Fills (line (beginning.now ++ decimal n)) at buffer.old buffer.new result }
    ensures most { result ≤ at + LINE_BYTES }
{
    let end = fill_bytes(buffer, at, beginning);
    fill_line_end(buffer, end, n)
}

/// Fills in a beginning and two numbers.
pub fn fill_numbers_line(buffer: &mut [u8], at: usize, beginning: &[u8], x: u16, y: u16) -> usize
    requires beginning { length beginning.now ≤ 7 }
    requires room { at + LINE_BYTES ≤ length buffer.old }
    ensures text { Fills (line (beginning.now ++ decimal x ++ codes " " ++ decimal y))
        at buffer.old buffer.new result }
    ensures most { result ≤ at + LINE_BYTES }
{
    let end = fill_bytes(buffer, at, beginning);
    let end = fill_number_blank(buffer, end, x);
    fill_line_end(buffer, end, y)
}

/// Fills in a beginning, a station's number and a word.
pub fn fill_station_line(buffer: &mut [u8], at: usize, beginning: &[u8], i: u16, w: &Word) -> usize
    requires beginning { length beginning.now ≤ 7 }
    requires room { at + LINE_BYTES ≤ length buffer.old }
    ensures text { Fills (station_word_line beginning.now i w.now) at buffer.old buffer.new result }
    ensures most { result ≤ at + LINE_BYTES }
{
    let end = fill_bytes(buffer, at, beginning);
    let end = fill_number_blank(buffer, end, i);
    fill_word_line(buffer, end, w)
}

/// Fills in a beginning, the two stations of a pair, a round and a word.
pub fn fill_pair_line(
    buffer: &mut [u8],
    at: usize,
    beginning: &[u8],
    ends: (u16, u16),
    r: u16,
    w: &Word,
) -> usize
    requires beginning { length beginning.now ≤ 7 }
    requires room { at + LINE_BYTES ≤ length buffer.old }
    ensures text { Fills (pair_word_line beginning.now ends.0 ends.1 r w.now)
        at buffer.old buffer.new result }
    ensures most { result ≤ at + LINE_BYTES }
{
    let end = fill_bytes(buffer, at, beginning);
    let end = fill_number_blank(buffer, end, ends.0);
    let end = fill_number_blank(buffer, end, ends.1);
    let end = fill_number_blank(buffer, end, r);
    fill_word_line(buffer, end, w)
}

/// Fills in a word and the end of its line: 81 bytes.
pub fn fill_word_line(buffer: &mut [u8], at: usize, w: &Word) -> usize
    requires { at + 81 ≤ length buffer.old }
    ensures text { Fills (line (text_of w.now)) at buffer.old buffer.new result }
    ensures place { result ≡ at + 81 }
{
    let end = fill_bytes(buffer, at, &word_text(w));
    fill_bytes(buffer, end, b"\n")
}

/// Fills in a number and a blank.
fn fill_number_blank(buffer: &mut [u8], at: usize, n: u16) -> usize
    requires { at + 6 ≤ length buffer.old }
    ensures text { Fills (decimal n ++ codes " ") at buffer.old buffer.new result }
    ensures most { result ≤ at + 6 }
{
    let end = fill_number(buffer, at, n);
    fill_bytes(buffer, end, b" ")
}

/// Fills in a number and the end of its line.
fn fill_line_end(buffer: &mut [u8], at: usize, n: u16) -> usize
    requires { at + 6 ≤ length buffer.old }
    ensures text { Fills (line (decimal n)) at buffer.old buffer.new result }
    ensures most { result ≤ at + 6 }
{
    let end = fill_number(buffer, at, n);
    fill_bytes(buffer, end, b"\n")
}
