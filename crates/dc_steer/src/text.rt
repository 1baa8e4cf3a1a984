//! The text of a steering.

ghost use Rattle.std.specs.Prelude.{◌≡◌, ◌≤◌, ◌++◌, codes, decimal, length, take, All};
ghost use Rattle.dc_spec.specs.Words.{IsSymbol};
ghost use Rattle.dc_spec.specs.Text.{line, symbol_text as digits_of};
ghost use Rattle.dc_edge.specs.Sink.{Puts};
ghost use Rattle.dc_print.specs.Gathering.{Gathers};
ghost use Rattle.dc_steering_rules.specs.SteeringText.{steering_text, change_lines, change_line};
ghost use Rattle.dc_steer.specs.Steered.{steering};

use crate::steered::Steered;
use dc_edge::{Failed, Sink};
use dc_field::{Sym, symbol_text};
use dc_print::{gather_bytes, gather_number, gather_number_line};

/// How many bytes are gathered before they are put.
const ROOM: usize = 32768;

/// Puts the round and the place of the first difference, and each change of a first and of a second
/// pad that is not 0, with the number of the pad. The form of the text is this project's own.
pub fn put_steered<K: Sink>(s: &Steered, out: &mut K) -> Result<(), Failed>
    ensures { Puts (steering_text (steering s.now)) (K.state out.old) (K.state out.new) result }
{
    let mut buffer = [0u8; ROOM];
    let end = gather_steering(&mut buffer, s, out)?;
    out.put(&buffer[..end])
}

/// Gathers the text of a steering, from the beginning of a buffer on.
fn gather_steering<K: Sink>(buffer: &mut [u8], s: &Steered, out: &mut K) -> Result<usize, Failed>
    requires { 40 ≤ length buffer.old }
    ensures { Gathers (steering_text (steering s.now)) (take 0 buffer.old) buffer.new
        (K.state out.old) (K.state out.new) result }
{
    let end = gather_difference(buffer, s.round, s.symbol, out)?;
    let end = gather_changes(buffer, end, b"first ", s.first.as_slice(), out)?;
    gather_changes(buffer, end, b"second ", s.second.as_slice(), out)
}

/// Gathers the line of the first difference, from the beginning of a buffer on.
fn gather_difference<K: Sink>(
    buffer: &mut [u8],
    round: u16,
    symbol: u8,
    out: &mut K,
) -> Result<usize, Failed>
    requires { 40 ≤ length buffer.old }
    ensures { Gathers (line (codes "differ " ++ decimal round ++ codes " " ++ decimal symbol))
        (take 0 buffer.old) buffer.new (K.state out.old) (K.state out.new) result }
{
    let end = gather_number(buffer, 0, b"differ ", u32::from(round), out)?;
    gather_number_line(buffer, end, b" ", u32::from(symbol), out)
}

/// Gathers a line for each change that is not 0, with the number of its pad.
fn gather_changes<K: Sink>(
    buffer: &mut [u8],
    end: usize,
    beginning: &[u8],
    changes: &[u32],
    out: &mut K,
) -> Result<usize, Failed>
    requires end { end ≤ length buffer.old }
    requires room { 40 ≤ length buffer.old }
    requires beginning { length beginning.now ≤ 40 }
    requires count { length changes.now ≤ 65536 }
    requires changes { All IsSymbol changes.now }
    ensures { Gathers (change_lines beginning.now changes.now) (take end buffer.old) buffer.new
        (K.state out.old) (K.state out.new) result }
{
    let mut end = end;
    for n in 0..changes.len() {
        end = gather_change(buffer, end, beginning, n as u32, changes[n], out)?;
    }
    Ok(end)
}

/// Gathers the line of the change of a pad; no line where the change is 0.
fn gather_change<K: Sink>(
    buffer: &mut [u8],
    end: usize,
    beginning: &[u8],
    n: u32,
    x: u32,
    out: &mut K,
) -> Result<usize, Failed>
    requires end { end ≤ length buffer.old }
    requires room { 40 ≤ length buffer.old }
    requires beginning { length beginning.now ≤ 40 }
    requires change { IsSymbol x }
    ensures { Gathers (change_line beginning.now n x) (take end buffer.old) buffer.new
        (K.state out.old) (K.state out.new) result }
{
    if x == 0 {
        return Ok(end);
    }
    let end = gather_number(buffer, end, beginning, n, out)?;
    gather_bytes(buffer, end, &line_end(x), out)
}

/// A blank, the five digits of a change and the end of its line.
fn line_end(x: u32) -> [u8; 7]
    requires { IsSymbol x }
    ensures { result ≡ line (codes " " ++ digits_of x) }
{
    let d = symbol_text(symbol(x));
    [b' ', d[0], d[1], d[2], d[3], d[4], b'\n']
}

/// The symbol of a number below 65537.
fn symbol(x: u32) -> Sym
    requires { IsSymbol x }
    ensures { result ≡ x }
{
    Sym::new(x).unwrap()
}
