//! In what the symbols that two stations received differ.

ghost use Rattle.std.specs.Prelude.{◌≡◌, ◌≢◌, ◌<◌, ℕ, length, slice_index, IfOk, All};
ghost use Rattle.dc_spec.specs.Words.{IsSymbol};
ghost use Rattle.dc_spec.specs.Symbols.{symbol_sub};
ghost use Rattle.dc_steering_rules.specs.Steerings.{first_difference as difference_of, difference_at};

use dc_field::NoMemory;
use std::alloc::Global;

/// The number of the first symbol in which two lists of as many symbols differ, and how many they
/// have where they are the same.
pub(crate) fn first_difference(cu: &[u32], cv: &[u32]) -> usize
    requires { length cv.now ≡ length cu.now }
    ensures value { result ≡ difference_of cu.now cv.now }
    ensures differs { result < length cu.now → slice_index cu.now result ≢ slice_index cv.now result }
{
    for k in 0..cu.len() {
        if cu[k] != cv[k] {
            return k;
        }
    }
    cu.len()
}

/// Each symbol of one list minus that of the other with the same number, modulo 65537.
pub(crate) fn differences(alloc: Global, cu: &[u32], cv: &[u32]) -> Result<Vec<u32>, NoMemory>
    requires as_many { length cv.now ≡ length cu.now }
    requires first { All IsSymbol cu.now }
    requires second { All IsSymbol cv.now }
    ensures as_many { IfOk result (λ ds. length ds.items ≡ length cu.now) }
    ensures are_symbols { IfOk result (λ ds. All IsSymbol ds.items) }
    ensures value { IfOk result (λ ds. (k : ℕ) → k < length cu.now →
        slice_index ds.items k ≡ difference_at cu.now cv.now k) }
{
    let mut differences = Vec::with_capacity(alloc, cu.len())?;
    for k in 0..cu.len() {
        differences.push_reserved(difference(cu[k], cv[k]));
    }
    Ok(differences)
}

/// A symbol minus another one, modulo 65537.
fn difference(x: u32, y: u32) -> u32
    requires first { IsSymbol x }
    requires second { IsSymbol y }
    ensures { result ≡ symbol_sub x y }
{
    (x + (65537 - y)) % 65537
}
