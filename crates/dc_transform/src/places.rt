//! Sums and products of lists place by place, products of rows by factors, and quotients by powers of two.

ghost use Rattle.std.specs.Prelude.{◌≡◌, ◌*◌, ◌^◌, ◌<◌, ◌≤◌, length};
ghost use Rattle.dc_spec.specs.Symbols.{AreSymbols};
ghost use Rattle.dc_transform_rules.specs.Residues.{times, minus_one};
ghost use Rattle.dc_transform_rules.specs.Polynomials.{sums, products, scaled, rows_scaled};

use crate::residue::{difference_of, product_of, sum_of, wide_product_of};

/// Adds to each number of a list the number of another list at the same place.
pub fn add_places(a: &mut [u32], b: &[u32])
    requires lengths { length a.old ≡ length b.now }
    requires a_symbols { AreSymbols a.old }
    requires b_symbols { AreSymbols b.now }
    ensures value { a.new ≡ sums a.old b.now }
    ensures symbols { AreSymbols a.new }
{
    for i in 0..a.len() {
        a[i] = sum_of(a[i], b[i]);
    }
}

/// Multiplies each number of a list by the number of another list at the same place.
pub fn multiply_places(a: &mut [u32], b: &[u32])
    requires lengths { length a.old ≡ length b.now }
    requires a_symbols { AreSymbols a.old }
    requires b_symbols { AreSymbols b.now }
    ensures value { a.new ≡ products a.old b.now }
    ensures symbols { AreSymbols a.new }
{
    for i in 0..a.len() {
        a[i] = wide_product_of(b[i], a[i]);
    }
}

/// Multiplies each row of `width` numbers by a factor of its own.
pub fn multiply_rows(width: usize, rows: &mut [u32], factors: &[u32])
    requires long { length rows.old ≡ width * length factors.now }
    requires rows_symbols { AreSymbols rows.old }
    requires factors_symbols { AreSymbols factors.now }
    ensures value { rows.new ≡ rows_scaled width rows.old factors.now }
    ensures symbols { AreSymbols rows.new }
{
    for i in 0..factors.len() {
        let start = width * i;
        scale(&mut rows[start..start + width], factors[i]);
    }
}

/// Divides each number of a list by 2^depth, modulo 65537.
pub fn divide(depth: usize, numbers: &mut [u32])
    requires depth { depth ≤ 16 }
    requires symbols { AreSymbols numbers.old }
    ensures value { scaled (2 ^ depth) numbers.new ≡ numbers.old }
    ensures symbols { AreSymbols numbers.new }
{
    scale(numbers, inverse_of_power(depth));
}

/// The inverse of 2^depth. Since 2^16 is -1, it is -2^(16 - depth).
fn inverse_of_power(depth: usize) -> u32
    requires { depth ≤ 16 }
    ensures value { times (2 ^ depth) result ≡ 1 }
    ensures small { result < 65537 }
{
    65537 - (1u32 << (16 - depth))
}

/// Multiplies each number of a list by a constant.
fn scale(numbers: &mut [u32], c: u32)
    requires symbols { AreSymbols numbers.old }
    requires constant { c < 65537 }
    ensures value { numbers.new ≡ scaled c numbers.old }
    ensures symbols { AreSymbols numbers.new }
{
    if c == 65536 {
        negate(numbers);
    } else {
        scale_narrow(numbers, c);
    }
}

/// As `scale`, by a constant that is not 65536, so that products fit 32 bits.
fn scale_narrow(numbers: &mut [u32], c: u32)
    requires symbols { AreSymbols numbers.old }
    requires constant { c < 65536 }
    ensures value { numbers.new ≡ scaled c numbers.old }
    ensures symbols { AreSymbols numbers.new }
{
    for i in 0..numbers.len() {
        numbers[i] = product_of(numbers[i], c);
    }
}

/// As `scale`, by 65536, which is -1.
fn negate(numbers: &mut [u32])
    requires symbols { AreSymbols numbers.old }
    ensures value { numbers.new ≡ scaled minus_one numbers.old }
    ensures symbols { AreSymbols numbers.new }
{
    for i in 0..numbers.len() {
        numbers[i] = difference_of(0, numbers[i]);
    }
}
