//! The changes of second pads, which give each later symbol of the sum its wanted change.

ghost use Rattle.std.specs.Prelude.{◌≡◌, ◌≢◌, ◌+◌, ◌-◌, ◌*◌, ◌/◌, ◌%◌, ◌^◌, ◌<◌, ◌≤◌, ◌||◌, ◌++◌, ℕ, length, nat_le, nat_lt, replicate, slice_index, IfOk, All, if◌then◌else◌};
ghost use Rattle.dc_spec.specs.Words.{IsSymbol};
ghost use Rattle.dc_spec.specs.Symbols.{symbol_sub, symbol_inverse};
ghost use Rattle.dc_steering_rules.specs.Steerings.{first_difference, steered_from, second_changes as changes_of};

use crate::adding::{add_from, product};
use crate::differences::differences;
use dc_field::{NoMemory, Sym};
use std::alloc::Global;

/// The change of each second pad, where the ends received `cu` and `cv`, which differ first at
/// number `p`, and each symbol after the round of `p` is wanted to change by a given symbol. Each
/// change is known once the earlier ones are: what is still wanted at the first symbol on which it
/// acts, divided by the first difference.
pub(crate) fn second_changes(
    alloc: Global,
    cu: &[u32],
    cv: &[u32],
    wanted: &[u32],
    p: usize,
) -> Result<Vec<u32>, NoMemory>
    requires most { length cu.now ≤ 65536 }
    requires as_many { length cv.now ≡ length cu.now }
    requires place { p ≡ first_difference cu.now cv.now }
    requires within { p < length cu.now }
    requires differs { slice_index cu.now p ≢ slice_index cv.now p }
    requires wanted { steered_from p + length wanted.now ≡ length cu.now }
    requires first_symbols { All IsSymbol cu.now }
    requires second_symbols { All IsSymbol cv.now }
    requires wanted_symbols { All IsSymbol wanted.now }
    ensures value { IfOk result (λ ys. ys.items ≡
        changes_of cu.now cv.now (replicate (steered_from p) 0 ++ wanted.now) (length cu.now)) }
    ensures are_symbols { IfOk result (λ ys. All IsSymbol ys.items) }
    ensures as_many { IfOk result (λ ys. length ys.items ≡ length cu.now) }
{
    let mut sums = vec![in alloc; 0u64; cu.len()]?;
    changes_by(alloc, cu, cv, wanted, p, &mut sums)
}

/// As `second_changes`, where sums of 0 are given, one for each symbol of the session. They gather
/// what the changes so far add to the symbols.
fn changes_by(
    alloc: Global,
    cu: &[u32],
    cv: &[u32],
    wanted: &[u32],
    p: usize,
    sums: &mut [u64],
) -> Result<Vec<u32>, NoMemory>
    requires most { length cu.now ≤ 65536 }
    requires as_many { length cv.now ≡ length cu.now }
    requires place { p ≡ first_difference cu.now cv.now }
    requires within { p < length cu.now }
    requires differs { slice_index cu.now p ≢ slice_index cv.now p }
    requires wanted { steered_from p + length wanted.now ≡ length cu.now }
    requires first_symbols { All IsSymbol cu.now }
    requires second_symbols { All IsSymbol cv.now }
    requires wanted_symbols { All IsSymbol wanted.now }
    requires sums { length sums.old ≡ length cu.now }
    requires zeros { (n : ℕ) → slice_index sums.old n ≡ 0 }
    ensures value { IfOk result (λ ys. ys.items ≡
        changes_of cu.now cv.now (replicate (steered_from p) 0 ++ wanted.now) (length cu.now)) }
    ensures are_symbols { IfOk result (λ ys. All IsSymbol ys.items) }
    ensures as_many { IfOk result (λ ys. length ys.items ≡ length cu.now) }
{
    let differences = differences(alloc, cu, cv)?;
    let inverse = inverse(differences[p]);
    let mut changes = Vec::with_capacity(alloc, cu.len())?;
    for j in 0..cu.len() {
        let change = next_change(sums, wanted, inverse, p, j);
        add_change(sums, &differences, j, change);
        changes.push_reserved(change);
    }
    Ok(changes)
}

/// The inverse of a symbol other than 0.
fn inverse(x: u32) -> Sym
    requires some { 0 < x }
    requires symbol { IsSymbol x }
    ensures { result ≡ symbol_inverse x }
{
    Sym::new(x).unwrap().inv().unwrap()
}

/// Change `j` of the second pads. It acts first on symbol `j + p`, to which the earlier changes add
/// the sum of that number. It is 0 where that symbol is not after the round of `p`, or past the
/// session.
fn next_change(sums: &[u64], wanted: &[u32], inverse: Sym, p: usize, j: usize) -> u32
    requires place { p < length sums.now }
    requires within { j < length sums.now }
    requires most { length sums.now ≤ 65536 }
    requires wanted { steered_from p + length wanted.now ≡ length sums.now }
    requires symbols { All IsSymbol wanted.now }
    ensures value { result ≡
        (if nat_lt (j + p) (steered_from p) || nat_le (length sums.now) (j + p) then 0
        else symbol_sub (slice_index wanted.now (j + p - steered_from p))
        (slice_index sums.now (j + p) % 65537) * inverse % 65537) }
    ensures symbol { IsSymbol result }
{
    let from = 16 * (p / 16 + 1);
    let n = j + p;
    if n < from || sums.len() <= n {
        return 0;
    }
    missing(wanted[n - from], sums[n]).mul(inverse).number()
}

/// What a symbol is more than a sum, modulo 65537.
fn missing(wanted: u32, sum: u64) -> Sym
    requires { IsSymbol wanted }
    ensures { result ≡ symbol_sub wanted (sum % 65537) }
{
    let added = (sum % 65537) as u32;
    Sym::new((wanted + (65537 - added)) % 65537).unwrap()
}

/// Adds the products of change `j` with the differences to all symbols on which they act: those for
/// which the difference is of an earlier round than the symbol.
fn add_change(sums: &mut [u64], differences: &[u32], j: usize, change: u32)
    requires place { j < length sums.old }
    requires as_many { length differences.now ≡ length sums.old }
    requires symbols { All IsSymbol differences.now }
    requires change { IsSymbol change }
    requires room { (n : ℕ) → slice_index sums.old n + 4294967296 < 2 ^ 64 }
    ensures same { (n : ℕ) → n % 16 < j → n < j → slice_index sums.new n ≡ slice_index sums.old n }
    ensures same_round { (n : ℕ) → j ≤ n % 16 → slice_index sums.new n ≡ slice_index sums.old n }
    ensures added { (n : ℕ) → n % 16 < j → j ≤ n → n < length sums.old →
        slice_index sums.new n
        ≡ slice_index sums.old n + slice_index differences.now (n - j) * change }
    ensures grown { (n : ℕ) → slice_index sums.new n ≤ slice_index sums.old n + 4294967296 }
{
    if j < 16 {
        add_early(sums, differences, j, change);
    } else {
        let end = sums.len() - j;
        add_from(sums, j, &differences[..end], change);
    }
}

/// As `add_change`, for a change below 16, which does not act on all symbols of a round.
fn add_early(sums: &mut [u64], differences: &[u32], j: usize, change: u32)
    requires place { j < length sums.old }
    requires as_many { length differences.now ≡ length sums.old }
    requires symbols { All IsSymbol differences.now }
    requires change { IsSymbol change }
    requires room { (n : ℕ) → slice_index sums.old n + 4294967296 < 2 ^ 64 }
    ensures before { (n : ℕ) → n < j → slice_index sums.new n ≡ slice_index sums.old n }
    ensures same_round { (n : ℕ) → j ≤ n % 16 → slice_index sums.new n ≡ slice_index sums.old n }
    ensures added { (n : ℕ) → n % 16 < j → j ≤ n → n < length sums.old →
        slice_index sums.new n
        ≡ slice_index sums.old n + slice_index differences.now (n - j) * change }
    ensures grown { (n : ℕ) → slice_index sums.new n ≤ slice_index sums.old n + 4294967296 }
{
    for n in j..sums.len() {
        if n % 16 < j {
            sums[n] += product(differences[n - j], change);
        }
    }
}
