//! Words read from bytes.

ghost use Rattle.std.specs.Prelude.{◌≡◌, length, IfOk};
ghost use Rattle.dc_spec.specs.Bytes.{word_bytes};
ghost use Rattle.dc_field.specs.WordInBytes.{word_of_bytes};

use crate::word::Word;

/// The first symbol of a word in bytes that is above 65536.
#[derive(Clone, Copy, Debug, PartialEq, Eq)]
pub struct SymFault {
    /// Which of the sixteen, from 0.
    pub symbol: u8,
    /// The number that is there.
    pub seen: u32,
}

/// The word that sixty-four bytes spell: four bytes a symbol, the most significant first.
pub fn read_word_bytes(b: &[u8; 64]) -> Result<Word, SymFault>
    ensures read { result ≡ word_of_bytes b.now }
    ensures written { IfOk result (λ w. word_bytes w ≡ b.now) }
{
    read_word(b)
}

/// As `read_word_bytes`, over a slice.
pub fn read_word(b: &[u8]) -> Result<Word, SymFault>
    requires { length b.now ≡ 64 }
    ensures { result ≡ word_of_bytes b.now }
{
    let mut symbols = [0u32; 16];
    for l in 0..16 {
        let at = 4 * l;
        symbols[l] = u32::from_be_bytes([b[at], b[at + 1], b[at + 2], b[at + 3]]);
    }
    Word::of_numbers(symbols)
}
