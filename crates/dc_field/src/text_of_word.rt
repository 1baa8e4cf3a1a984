//! Words written as text.

ghost use Rattle.std.specs.Prelude.{◌≡◌, ◌+◌, ◌<◌, ◌≤◌, ◌++◌, take, drop};
ghost use Rattle.dc_spec.specs.Text.{word_text as text_of, symbol_text, hex_digit as digit_char};

use crate::sym::Sym;
use crate::word::Word;

/// The eighty digits of a word: five lower-case hexadecimal digits a symbol.
pub fn word_text(w: &Word) -> [u8; 80]
    ensures { result ≡ text_of w.now }
{
    let mut text = [0u8; 80];
    for (l, x) in w.numbers().iter().enumerate() {
        put_symbol(&mut text, 5 * l, *x);
    }
    text
}

/// The five lower-case hexadecimal digits of a symbol.
pub fn symbol_text(x: Sym) -> [u8; 5]
    ensures { result ≡ symbol_text x }
{
    symbol_digits(x.number())
}

/// Puts the five digits of a symbol at a place.
fn put_symbol(text: &mut [u8; 80], at: usize, x: u32)
    requires place { at + 5 ≤ 80 }
    requires symbol { x < 65537 }
    ensures { text.new ≡ take at text.old ++ symbol_text x ++ drop (at + 5) text.old }
{
    let digits = symbol_digits(x);
    text[at..at + 5].copy_from_slice(&digits);
}

/// The five digits of a symbol.
fn symbol_digits(x: u32) -> [u8; 5]
    requires { x < 65537 }
    ensures { result ≡ symbol_text x }
{
    [
        hex_digit(x / 65536 % 16),
        hex_digit(x / 4096 % 16),
        hex_digit(x / 256 % 16),
        hex_digit(x / 16 % 16),
        hex_digit(x % 16),
    ]
}

/// The character of a digit from 0 to 15.
fn hex_digit(d: u32) -> u8
    requires { d < 16 }
    ensures { result ≡ digit_char d }
{
    if d < 10 {
        b'0' + d as u8
    } else {
        b'a' + (d as u8 - 10)
    }
}
