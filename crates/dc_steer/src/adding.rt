//! Products that are added to sums of 64 bits.

ghost use Rattle.std.specs.Prelude.{◌≡◌, ◌+◌, ◌*◌, ◌^◌, ◌<◌, ◌≤◌, ℕ, length, slice_index, All};
ghost use Rattle.dc_spec.specs.Words.{IsSymbol};

/// Adds to each sum from number `at` on a symbol multiplied by a factor. The first of the symbols is
/// that of sum `at`.
pub(crate) fn add_from(sums: &mut [u64], at: usize, symbols: &[u32], factor: u32)
    requires start { at ≤ length sums.old }
    requires as_many { at + length symbols.now ≡ length sums.old }
    requires symbols { All IsSymbol symbols.now }
    requires factor { IsSymbol factor }
    requires room { (n : ℕ) → slice_index sums.old n + 4294967296 < 2 ^ 64 }
    ensures before { (n : ℕ) → n < at → slice_index sums.new n ≡ slice_index sums.old n }
    ensures added { (i : ℕ) → at + i < length sums.old →
        slice_index sums.new (at + i)
        ≡ slice_index sums.old (at + i) + slice_index symbols.now i * factor }
    ensures grown { (n : ℕ) → slice_index sums.new n ≤ slice_index sums.old n + 4294967296 }
{
    add_scaled(&mut sums[at..], symbols, factor);
}

/// Adds to each of some sums the symbol of its number multiplied by a factor.
fn add_scaled(sums: &mut [u64], symbols: &[u32], factor: u32)
    requires as_many { length symbols.now ≡ length sums.old }
    requires symbols { All IsSymbol symbols.now }
    requires factor { IsSymbol factor }
    requires room { (n : ℕ) → slice_index sums.old n + 4294967296 < 2 ^ 64 }
    ensures added { (n : ℕ) → n < length sums.old →
        slice_index sums.new n ≡ slice_index sums.old n + slice_index symbols.now n * factor }
    ensures grown { (n : ℕ) → slice_index sums.new n ≤ slice_index sums.old n + 4294967296 }
{
    for n in 0..sums.len() {
        sums[n] += product(symbols[n], factor);
    }
}

/// The product of two symbols.
pub(crate) fn product(x: u32, y: u32) -> u64
    requires first { IsSymbol x }
    requires second { IsSymbol y }
    ensures value { result ≡ x * y }
    ensures small { result ≤ 4294967296 }
{
    u64::from(x) * u64::from(y)
}
