//! A word: sixteen symbols, added symbol by symbol.

ghost use Rattle.std.specs.Prelude.{◌≡◌, ◌+◌, ◌-◌, ◌%◌, ◌^◌, ◌<◌, ◌≤◌, ℕ, length, nat_lt, position, slice_index, slice_set};
ghost use Rattle.dc_spec.specs.Words.{IsWord, word_of, zero_word, word_add, word_sub, word_sum};
ghost use Rattle.dc_field.specs.WordInBytes.{word_of_numbers};

use crate::sym::Sym;
use crate::word_from_bytes::SymFault;
use std::marker::Model;

/// Sixteen symbols, seen by contracts as the list of their numbers.
#[derive(Clone, Copy, Debug)]
pub struct Word {
    symbols: [u32; 16],
}

impl Model for Word {
    ghost use Rattle.std.specs.Prelude.{ℕ, List};
    ghost use Rattle.dc_spec.specs.Words.{IsWord};

    ghost Value = { List ℕ };

    ghost view = { λ w. w.symbols };

    ghost invariant = { λ w. IsWord w.symbols };

    ghost inverse = { λ l. record { symbols = l } };
}

impl Word {
    /// The word of these numbers, or the first of them that is above 65536.
    pub(crate) fn of_numbers(symbols: [u32; 16]) -> Result<Word, SymFault>
        ensures { result ≡ word_of_numbers symbols }
    {
        match first_above(&symbols) {
            None => Ok(Word { symbols }),
            Some(l) => Err(SymFault {
                symbol: l as u8,
                seen: symbols[l],
            }),
        }
    }

    /// The word of sixteen zeros.
    pub fn zero() -> Word
        ensures { result ≡ zero_word }
    {
        Word { symbols: [0; 16] }
    }

    /// The sixteen numbers, each below 65537.
    pub fn numbers(&self) -> &[u32; 16]
        ensures value { result.now ≡ self.now }
        ensures word { IsWord self.now }
    {
        &self.symbols
    }

    /// The sum modulo 65537, symbol by symbol.
    pub fn add(&self, o: &Word) -> Word
        ensures { result ≡ word_add self.now o.now }
    {
        let mut totals = self.symbols;
        add_to(&mut totals, o);
        reduced(&totals)
    }

    /// The difference modulo 65537, symbol by symbol.
    pub fn sub(&self, o: &Word) -> Word
        ensures { result ≡ word_sub self.now o.now }
    {
        let mut totals = self.symbols;
        add_negated(&mut totals, o);
        reduced(&totals)
    }

    /// The symbol number `l`.
    pub fn get(&self, l: usize) -> Sym
        requires { l < 16 }
        ensures { result ≡ slice_index self.now l }
    {
        let number = self.symbols[l];
        Sym::new(number).unwrap()
    }

    /// Puts `x` in the place of symbol number `l`.
    pub fn set(&mut self, l: usize, x: Sym)
        requires { l < 16 }
        ensures { self.new ≡ slice_set self.old l x }
    {
        self.symbols[l] = x.number();
    }

    /// The sum of all words of a list, modulo 65537.
    pub fn sum(words: &[Word]) -> Word
        requires { length words.now ≤ 65535 }
        ensures { result ≡ word_sum words.now }
    {
        let mut totals = [0u32; 16];
        for w in words {
            add_to(&mut totals, w);
        }
        reduced(&totals)
    }
}

/// The place of the first number that is not a symbol.
fn first_above(numbers: &[u32]) -> Option<usize>
    ensures { result ≡ position (λ x. nat_lt 65536 x) numbers.now }
{
    numbers.iter().position(|x| 65536 < *x)
}

/// Adds the symbols of a word to sixteen totals.
fn add_to(totals: &mut [u32; 16], w: &Word)
    requires room { (k : ℕ) → slice_index totals.old k + 65536 < 2 ^ 32 }
    ensures added { (k : ℕ) → k < 16 →
        slice_index totals.new k ≡ slice_index totals.old k + slice_index w.now k }
    ensures grown { (k : ℕ) → slice_index totals.new k ≤ slice_index totals.old k + 65536 }
{
    for l in 0..16 {
        totals[l] += w.symbols[l];
    }
}

/// Adds 65537 minus each symbol of a word to sixteen totals.
fn add_negated(totals: &mut [u32; 16], w: &Word)
    requires room { (k : ℕ) → slice_index totals.old k + 65537 < 2 ^ 32 }
    ensures { (k : ℕ) → k < 16 →
        slice_index totals.new k ≡ slice_index totals.old k + (65537 - slice_index w.now k) }
{
    for l in 0..16 {
        totals[l] += 65537 - w.symbols[l];
    }
}

/// The word of sixteen totals, each modulo 65537.
fn reduced(totals: &[u32; 16]) -> Word
    ensures { result ≡ word_of (λ l. slice_index totals.now l % 65537) }
{
    let mut symbols = [0u32; 16];
    for l in 0..16 {
        symbols[l] = totals[l] % 65537;
    }
    Word { symbols }
}

/// Asks of a value that it may be sent to another thread and shared with it.
fn needs_threads<T: Send + Sync>(_value: &T) {}

/// A word may be sent to another thread and shared with it.
fn word_meets_threads(w: &Word) {
    needs_threads(w);
}
