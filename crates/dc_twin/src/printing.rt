//! The text of the shifts of a twin.

ghost use Rattle.std.specs.Prelude.{◌≡◌, ◌≤◌, length, take};
ghost use Rattle.dc_edge.specs.Sink.{Puts};
ghost use Rattle.dc_print.specs.Gathering.{Gathers};
ghost use Rattle.dc_twin_rules.specs.Shifts.{is_zero as is_zero_word, shift_line, shift_lines, shifts_text};

use crate::shift::Shift;
use crate::twinned::Twinned;
use dc_edge::{Failed, Sink};
use dc_field::Word;
use dc_print::{LINE_BYTES, gather_pair_line};

/// How many bytes are gathered before they are put.
const ROOM: usize = 32768;

/// Puts the shifts edge by edge: for each round in which the word is not zero a line with the ends of
/// the edge, the round and the word. The form of the text is this project's own.
pub fn put_shifts<K: Sink>(t: &Twinned, out: &mut K) -> Result<(), Failed>
    ensures { Puts (shifts_text t.now.shifts) (K.state out.old) (K.state out.new) result }
{
    let mut buffer = [0u8; ROOM];
    let end = gather_shifts(&mut buffer, t.shifts.as_slice(), out)?;
    out.put(&buffer[..end])
}

/// Gathers the lines of all edges, from the beginning of a buffer on.
fn gather_shifts<K: Sink>(buffer: &mut [u8], shifts: &[Shift], out: &mut K) -> Result<usize, Failed>
    requires room { LINE_BYTES ≤ length buffer.old }
    ensures { Gathers (shifts_text shifts.now) (take 0 buffer.old) buffer.new
        (K.state out.old) (K.state out.new) result }
{
    let mut end = 0;
    for shift in shifts {
        end = gather_edge(buffer, end, shift, out)?;
    }
    Ok(end)
}

/// Gathers the lines of one edge.
fn gather_edge<K: Sink>(
    buffer: &mut [u8],
    end: usize,
    shift: &Shift,
    out: &mut K,
) -> Result<usize, Failed>
    requires end { end ≤ length buffer.old }
    requires room { LINE_BYTES ≤ length buffer.old }
    ensures { Gathers (shift_lines shift.now) (take end buffer.old) buffer.new
        (K.state out.old) (K.state out.new) result }
{
    let mut end = end;
    for (r, w) in shift.words.as_slice().iter().enumerate() {
        end = gather_round(buffer, end, (shift.u, shift.v), r as u16, w, out)?;
    }
    Ok(end)
}

/// Gathers the line of an edge in one round, where its word is not zero.
fn gather_round<K: Sink>(
    buffer: &mut [u8],
    end: usize,
    ends: (u16, u16),
    r: u16,
    w: &Word,
    out: &mut K,
) -> Result<usize, Failed>
    requires end { end ≤ length buffer.old }
    requires room { LINE_BYTES ≤ length buffer.old }
    ensures { Gathers (shift_line ends.0 ends.1 r w.now) (take end buffer.old) buffer.new
        (K.state out.old) (K.state out.new) result }
{
    if is_zero(w) {
        return Ok(end);
    }
    gather_pair_line(buffer, end, b"shift ", ends, r, w, out)
}

/// Whether all symbols of a word are 0.
fn is_zero(w: &Word) -> bool
    ensures { result ≡ is_zero_word w.now }
{
    w.numbers().iter().all(|x| *x == 0)
}
