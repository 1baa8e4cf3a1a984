//! A text that is put piece by piece.

ghost use Rattle.std.specs.Prelude.{◌≡◌, ◌++◌};
ghost use Rattle.std.specs.Fmt.{signed_decimal};
ghost use Rattle.dc_edge.specs.Sink.{Puts};
ghost use Rattle.dc_cli.specs.Pieces.{numbered};

use dc_edge::{Failed, Sink};
use dc_field::Text;
use itoa::Buffer;

/// Puts two pieces as one text.
pub fn put_two<K: Sink>(out: &mut K, first: &[u8], second: &[u8]) -> Result<(), Failed>
    ensures { Puts (first.now ++ second.now) (K.state out.old) (K.state out.new) result }
{
    out.put(first)?;
    out.put(second)
}

/// Puts a text and a number after it, in decimal.
pub fn put_number<K: Sink>(out: &mut K, text: &[u8], n: u64) -> Result<(), Failed>
    ensures { Puts (numbered text.now n) (K.state out.old) (K.state out.new) result }
{
    let mut buffer = Buffer::new();
    put_two(out, text, buffer.format(n).as_bytes())
}

/// Puts a text and a number that may be negative after it, in decimal.
pub fn put_signed<K: Sink>(out: &mut K, text: &[u8], n: i64) -> Result<(), Failed>
    ensures { Puts (text.now ++ signed_decimal n) (K.state out.old) (K.state out.new) result }
{
    let mut buffer = Buffer::new();
    put_two(out, text, buffer.format(n).as_bytes())
}

/// Puts two texts, each with a number after it.
pub fn put_two_numbers<K: Sink>(
    out: &mut K,
    first: &[u8],
    m: u64,
    second: &[u8],
    n: u64,
) -> Result<(), Failed>
    ensures { Puts (numbered first.now m ++ numbered second.now n)
        (K.state out.old) (K.state out.new) result }
{
    put_number(out, first, m)?;
    put_number(out, second, n)
}

/// Puts a text and a number of 16 bits after it, in decimal.
pub fn put_small<K: Sink>(out: &mut K, text: &[u8], n: u16) -> Result<(), Failed>
    ensures { Puts (numbered text.now n) (K.state out.old) (K.state out.new) result }
{
    put_number(out, text, u64::from(n))
}

/// Puts two texts, each with a number of 16 bits after it.
pub fn put_two_small<K: Sink>(
    out: &mut K,
    first: &[u8],
    m: u16,
    second: &[u8],
    n: u16,
) -> Result<(), Failed>
    ensures { Puts (numbered first.now m ++ numbered second.now n)
        (K.state out.old) (K.state out.new) result }
{
    put_two_numbers(out, first, u64::from(m), second, u64::from(n))
}

/// Puts a name and a text after it.
pub fn put_named<K: Sink>(out: &mut K, name: &Text, text: &[u8]) -> Result<(), Failed>
    ensures { Puts (name.now ++ text.now) (K.state out.old) (K.state out.new) result }
{
    put_two(out, name.as_str().as_bytes(), text)
}

/// Puts a text and a name after it.
pub fn put_before_name<K: Sink>(out: &mut K, text: &[u8], name: &Text) -> Result<(), Failed>
    ensures { Puts (text.now ++ name.now) (K.state out.old) (K.state out.new) result }
{
    put_two(out, text, name.as_str().as_bytes())
}
