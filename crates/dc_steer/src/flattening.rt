//! The symbols of a list of words.

ghost use Rattle.std.specs.Prelude.{◌≡◌, ◌*◌, length, IfOk, All};
ghost use Rattle.dc_spec.specs.Words.{IsSymbol, AreWords};
ghost use Rattle.dc_key_rules.specs.PairKeys.{symbols};

use dc_field::{NoMemory, Word};
use std::alloc::Global;

/// The symbols of some words, sixteen for each: symbol `l` of word `t` has the number `16 * t + l`.
pub(crate) fn symbols_of(alloc: Global, words: &[Word]) -> Result<Vec<u32>, NoMemory>
    ensures value { IfOk result (λ xs. xs.items ≡ symbols words.now) }
    ensures sixteen_each { IfOk result (λ xs. length xs.items ≡ 16 * length words.now) }
    ensures are_symbols { IfOk result (λ xs. All IsSymbol xs.items) }
    ensures words { IfOk result (λ _. AreWords words.now) }
{
    let mut symbols = Vec::new(alloc);
    for w in words {
        symbols.extend_from_slice(w.numbers().as_slice())?;
    }
    Ok(symbols)
}
