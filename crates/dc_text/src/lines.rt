//! The lines of a text file.

ghost use Rattle.std.specs.Prelude.{◌≡◌, ◌+◌, ◌<◌, ◌≤◌, Bool, IfSome, IsNone, drop, length, nat_eq, not, position};
ghost use Rattle.dc_text.specs.Lines.{BeginsWithoutText, IsFirstLine, IsNextLine, is_printable, reported_line};

use std::marker::Model;

/// The lines of a text file that are not read yet, the next one first.
///
/// A reader of a format takes one line after another, and reports a fault with the number of its
/// line.
#[derive(Debug, Drop)]
pub struct Lines<'a> {
    rest: &'a [u8],
    before: u64,
}

impl<'a> Model for Lines<'a> {
    ghost use Rattle.std.specs.Prelude.{◌+◌, ◌<◌, ◌^◌, length};
    ghost use Rattle.dc_text.specs.Lines.{LinesLeft};

    ghost Value = { LinesLeft };

    ghost view = { λ l. record { bytes = l.rest.now; before = l.before } };

    ghost invariant = { λ l. l.before + length l.rest.now < 2 ^ 64 };
}

impl<'a> Lines<'a> {
    /// All lines of a file. Nothing is copied.
    pub fn new(bytes: &'a [u8]) -> Lines<'a>
        ensures { result ≡ record { bytes = bytes.now; before = 0 } }
    {
        Lines {
            rest: bytes,
            before: 0,
        }
    }

    /// Whether no line is left.
    pub fn at_end(&self) -> bool
        ensures { result ≡ nat_eq (length self.now.bytes) 0 }
    {
        self.rest.is_empty()
    }

    /// The number of the next line, from 1, as a fault reports it: at most the greatest `u32`. At
    /// the end it is the number of the line past the last.
    pub fn number(&self) -> u32
        ensures { result ≡ reported_line (self.now.before + 1) }
    {
        if self.before < 4294967295 {
            self.before as u32 + 1
        } else {
            4294967295
        }
    }

    /// The next line without its line feed. None where the line holds another byte than 0x20 to
    /// 0x7e, or is the last one and has no line feed; then no line is taken.
    pub fn next(&mut self) -> Option<&'a [u8]>
        requires { 0 < length self.old.bytes }
        ensures text { IfSome result (λ text. IsNextLine self.old self.new text.now) }
        ensures no_text { IsNone result → BeginsWithoutText self.old.bytes }
        ensures stays { IsNone result → self.new ≡ self.old }
    {
        let text = first_line(self.rest)?;
        self.rest = after_line(self.rest, text.len());
        self.before += 1;
        Some(text)
    }
}

/// The first line of a file without its line feed, where it is text.
fn first_line(bytes: &[u8]) -> Option<&[u8]>
    requires { 0 < length bytes.now }
    ensures text { IfSome result (λ text. IsFirstLine bytes.now text.now) }
    ensures no_text { IsNone result → BeginsWithoutText bytes.now }
{
    let end = first_unprintable(bytes)?;
    if bytes[end] == b'\n' {
        Some(&bytes[..end])
    } else {
        None
    }
}

/// The bytes after a first line of this length and its line feed.
fn after_line(bytes: &[u8], count: usize) -> &[u8]
    requires { count + 1 ≤ length bytes.now }
    ensures { result.now ≡ drop (count + 1) bytes.now }
{
    &bytes[count + 1..]
}

/// The place of the first byte that is not printable, as a line feed.
fn first_unprintable(bytes: &[u8]) -> Option<usize>
    ensures { result ≡ position (λ c. not (is_printable c)) bytes.now }
{
    bytes.iter().position(|c| !is_printable(*c))
}

/// Whether a character is one that a line may hold.
fn is_printable(c: u8) -> bool
    ensures { result ≡ is_printable c }
{
    32 <= c && c <= 126
}
