//! Words written as bytes.

ghost use Rattle.std.specs.Prelude.{◌≡◌, ◌+◌, ◌≤◌, ◌++◌, take, drop, Ok};
ghost use Rattle.dc_spec.specs.Bytes.{symbol_bytes, word_bytes as word_bytes_of};
ghost use Rattle.dc_field.specs.WordInBytes.{word_of_bytes};

use crate::word::Word;

/// The sixty-four bytes of a word: four bytes a symbol, the most significant first.
pub fn word_bytes(w: &Word) -> [u8; 64]
    ensures bytes { result ≡ word_bytes_of w.now }
    ensures read { word_of_bytes result ≡ Ok w.now }
{
    let mut bytes = [0u8; 64];
    for (l, x) in w.numbers().iter().enumerate() {
        put_symbol(&mut bytes, 4 * l, *x);
    }
    bytes
}

/// Puts the four bytes of a symbol at a place.
fn put_symbol(bytes: &mut [u8; 64], at: usize, x: u32)
    requires { at + 4 ≤ 64 }
    ensures { bytes.new ≡ take at bytes.old ++ symbol_bytes x ++ drop (at + 4) bytes.old }
{
    let four = x.to_be_bytes();
    bytes[at..at + 4].copy_from_slice(&four);
}
