//! Text that is filled into a buffer.

ghost use Rattle.std.specs.Prelude.{◌+◌, ◌≤◌, length, decimal};
ghost use Rattle.dc_print.specs.Filling.{Fills};

use itoa::Buffer;

/// Fills in some bytes.
pub fn fill_bytes(buffer: &mut [u8], at: usize, bytes: &[u8]) -> usize
    requires { at + length bytes.now ≤ length buffer.old }
    ensures { Fills bytes.now at buffer.old buffer.new result }
{
    let end = at + bytes.len();
    buffer[at..end].copy_from_slice(bytes);
    end
}

/// Fills in a number, in decimal.
pub fn fill_number(buffer: &mut [u8], at: usize, n: u16) -> usize
    requires { at + 5 ≤ length buffer.old }
    ensures text { Fills (decimal n) at buffer.old buffer.new result }
    ensures most { result ≤ at + 5 }
{
    let mut digits = Buffer::new();
    fill_bytes(buffer, at, digits.format(n).as_bytes())
}
