//! The words of a session, one line each.

ghost use Rattle.std.specs.Prelude.{◌+◌, ◌*◌, ◌≤◌, length};
ghost use Rattle.dc_spec.specs.Text.{words_text};
ghost use Rattle.dc_edge.specs.Sink.{Puts};
ghost use Rattle.dc_print.specs.Filling.{Fills};

use dc_edge::{Failed, Sink};
use dc_field::{Word, Words};
use dc_print::fill_word_line;

/// How many lines one piece has at most.
const LINES_AT_ONCE: usize = 256;

/// The bytes of a line: eighty digits and a line feed.
const LINE_BYTES: usize = 81;

/// Puts one line a word: eighty lower-case hexadecimal digits.
pub fn put_words<K: Sink>(w: &Words, out: &mut K) -> Result<(), Failed>
    ensures { Puts (words_text w.now) (K.state out.old) (K.state out.new) result }
{
    let mut rest = w.as_slice();
    while !rest.is_empty() {
        let (front, after) = rest.split_at(rest.len().min(LINES_AT_ONCE));
        put_lines(front, out)?;
        rest = after;
    }
    Ok(())
}

/// Puts some lines as one piece.
fn put_lines<K: Sink>(words: &[Word], out: &mut K) -> Result<(), Failed>
    requires { length words.now ≤ LINES_AT_ONCE }
    ensures { Puts (words_text words.now) (K.state out.old) (K.state out.new) result }
{
    let mut lines = [0u8; LINES_AT_ONCE * LINE_BYTES];
    let end = fill_lines(&mut lines, words);
    out.put(&lines[..end])
}

/// Fills in one line a word.
fn fill_lines(lines: &mut [u8], words: &[Word]) -> usize
    requires { 81 * length words.now ≤ length lines.old }
    ensures { Fills (words_text words.now) 0 lines.old lines.new result }
{
    let mut end = 0;
    for w in words {
        end = fill_word_line(lines, end, w);
    }
    end
}
