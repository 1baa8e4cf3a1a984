//! Sums of pads, and sums of products that are reduced modulo 65537 at their end.

ghost use Rattle.std.specs.Prelude.{◌≡◌, ◌+◌, ◌-◌, ◌*◌, ◌%◌, ◌^◌, ◌<◌, ◌≤◌, ℕ, length, slice_index, sum_by, All};
ghost use Rattle.std.specs.List.{range_with_len};
ghost use Rattle.dc_spec.specs.Words.{IsSymbol, IsWord, word_of};

use dc_field::{Sym, Word};

/// Adds pads to sums, place by place, modulo 65537.
pub(crate) fn add_pads(sums: &mut [u32], pads: &[u32])
    requires as_many { length pads.now ≡ length sums.old }
    requires sums { (n : ℕ) → slice_index sums.old n < 65537 }
    requires pads { (n : ℕ) → slice_index pads.now n < 65537 }
    ensures symbols { (n : ℕ) → slice_index sums.new n < 65537 }
    ensures added { (n : ℕ) → n < length sums.old →
        slice_index sums.new n ≡ (slice_index sums.old n + slice_index pads.now n) % 65537 }
{
    for n in 0..sums.len() {
        sums[n] = below_modulus(sums[n] + pads[n]);
    }
}

/// Subtracts pads from sums, place by place, modulo 65537.
pub(crate) fn subtract_pads(sums: &mut [u32], pads: &[u32])
    requires as_many { length pads.now ≡ length sums.old }
    requires sums { (n : ℕ) → slice_index sums.old n < 65537 }
    requires pads { (n : ℕ) → slice_index pads.now n < 65537 }
    ensures { (n : ℕ) → n < length sums.old →
        slice_index sums.new n
        ≡ (slice_index sums.old n + (65537 - slice_index pads.now n)) % 65537 }
{
    for n in 0..sums.len() {
        sums[n] = below_modulus(sums[n] + (65537 - pads[n]));
    }
}

/// A number below twice 65537, modulo 65537.
fn below_modulus(x: u32) -> u32
    requires { x < 131074 }
    ensures { result ≡ x % 65537 }
{
    if x < 65537 { x } else { x - 65537 }
}

/// Sixteen totals that begin with sixteen symbols.
pub(crate) fn widened(first: &[u32]) -> [u64; 16]
    requires sixteen { length first.now ≡ 16 }
    requires symbols { All IsSymbol first.now }
    ensures value { (l : ℕ) → l < 16 → slice_index result l ≡ slice_index first.now l }
    ensures small { (l : ℕ) → slice_index result l ≤ 65536 }
{
    let mut totals = [0u64; 16];
    for l in 0..16 {
        totals[l] = u64::from(first[l]);
    }
    totals
}

/// Adds to sixteen totals the products of a received word with second pads. The number of the
/// word's first symbol is smaller than that of the first total by `ahead`.
pub(crate) fn add_products(totals: &mut [u64; 16], second: &[u32], w: &Word, ahead: usize)
    requires behind { 16 ≤ ahead }
    requires within { ahead + 16 ≤ length second.now }
    requires symbols { All IsSymbol second.now }
    requires room { (l : ℕ) → slice_index totals.old l + 68719476736 < 2 ^ 64 }
    ensures word { IsWord w.now }
    ensures added { (l : ℕ) → l < 16 → slice_index totals.new l ≡ slice_index totals.old l + sum_by (λ j. slice_index second.now (ahead + l - j) * slice_index w.now j) (range_with_len 0 16) }
    ensures grown { (l : ℕ) → slice_index totals.new l ≤ slice_index totals.old l + 68719476736 }
{
    let numbers = w.numbers();
    for j in 0..16 {
        let from = ahead - j;
        add_scaled(totals, &second[from..from + 16], numbers[j]);
    }
}

/// Adds to each of sixteen totals one of sixteen pads, multiplied by a symbol.
fn add_scaled(totals: &mut [u64; 16], pads: &[u32], c: u32)
    requires sixteen { length pads.now ≡ 16 }
    requires pads_small { (l : ℕ) → slice_index pads.now l ≤ 65536 }
    requires symbol { c ≤ 65536 }
    requires room { (l : ℕ) → slice_index totals.old l + 4294967296 < 2 ^ 64 }
    ensures added { (l : ℕ) → l < 16 →
        slice_index totals.new l ≡ slice_index totals.old l + slice_index pads.now l * c }
    ensures grown { (l : ℕ) → slice_index totals.new l ≤ slice_index totals.old l + 4294967296 }
{
    for l in 0..16 {
        totals[l] += u64::from(pads[l]) * u64::from(c);
    }
}

/// The word whose symbols are sixteen totals modulo 65537.
pub fn reduced(totals: &[u64; 16]) -> Word
    ensures { result ≡ word_of (λ l. slice_index totals.now l % 65537) }
{
    let mut word = Word::zero();
    for l in 0..16 {
        let number = (totals[l] % 65537) as u32;
        word.set(l, Sym::new(number).unwrap());
    }
    word
}
