//! The changes of first pads, which take from the keys of the smaller end what the changes of
//! second pads add to them.

ghost use Rattle.std.specs.Prelude.{◌≡◌, ◌+◌, ◌-◌, ◌*◌, ◌/◌, ◌%◌, ◌^◌, ◌<◌, ◌≤◌, ℕ, length, slice_index, IfOk, All};
ghost use Rattle.dc_spec.specs.Words.{IsSymbol};
ghost use Rattle.dc_spec.specs.Symbols.{symbol_sub};
ghost use Rattle.dc_steering_rules.specs.Steerings.{first_changes as changes_of, gained_symbol};

use crate::adding::add_from;
use dc_field::NoMemory;
use std::alloc::Global;

/// The change of each first pad, of sixteen a round: minus what the changes of second pads add to
/// that symbol of the keys of the smaller end, which received `cu`.
pub(crate) fn first_changes(alloc: Global, cu: &[u32], second: &[u32]) -> Result<Vec<u32>, NoMemory>
    requires whole { length cu.now % 16 ≡ 0 }
    requires most { length cu.now ≤ 65536 }
    requires as_many { length second.now ≡ length cu.now }
    requires received { All IsSymbol cu.now }
    requires changes { All IsSymbol second.now }
    ensures value { IfOk result (λ xs. xs.items ≡ changes_of cu.now second.now (length cu.now)) }
    ensures are_symbols { IfOk result (λ xs. All IsSymbol xs.items) }
{
    let mut room = vec![in alloc; 0u64; cu.len()]?;
    let sums = room.as_mut_slice();
    add_history(sums, cu, second);
    let changes = taken_away(alloc, sums)?;
    Ok(changes)
}

/// Adds to sums of 0 the products of all received symbols with changes of second pads: to each
/// symbol those of the symbols received in rounds before its own.
fn add_history(sums: &mut [u64], cu: &[u32], second: &[u32])
    requires whole { length cu.now % 16 ≡ 0 }
    requires most { length cu.now ≤ 65536 }
    requires sums { length sums.old ≡ length cu.now }
    requires as_many { length second.now ≡ length cu.now }
    requires received { All IsSymbol cu.now }
    requires changes { All IsSymbol second.now }
    requires zeros { (n : ℕ) → slice_index sums.old n ≡ 0 }
    ensures { (n : ℕ) → n < length cu.now →
        slice_index sums.new n % 65537 ≡ gained_symbol cu.now second.now n }
{
    for k in 0..cu.len() {
        add_received(sums, second, k, cu[k]);
    }
}

/// Adds the products of received symbol `k` with changes of second pads to the symbols of all rounds
/// after that symbol's.
fn add_received(sums: &mut [u64], second: &[u32], k: usize, received: u32)
    requires whole { length sums.old % 16 ≡ 0 }
    requires place { k < length sums.old }
    requires as_many { length second.now ≡ length sums.old }
    requires changes { All IsSymbol second.now }
    requires received { IsSymbol received }
    requires room { (n : ℕ) → slice_index sums.old n + 4294967296 < 2 ^ 64 }
    ensures before { (n : ℕ) → n < 16 * (k / 16 + 1) →
        slice_index sums.new n ≡ slice_index sums.old n }
    ensures added { (n : ℕ) → 16 * (k / 16 + 1) ≤ n → n < length sums.old →
        slice_index sums.new n
        ≡ slice_index sums.old n + slice_index second.now (n - k) * received }
    ensures grown { (n : ℕ) → slice_index sums.new n ≤ slice_index sums.old n + 4294967296 }
{
    let later = 16 * (k / 16 + 1);
    let end = sums.len() - k;
    add_from(sums, later, &second[later - k..end], received);
}

/// What takes each sum away, modulo 65537.
fn taken_away(alloc: Global, sums: &[u64]) -> Result<Vec<u32>, NoMemory>
    ensures as_many { IfOk result (λ xs. length xs.items ≡ length sums.now) }
    ensures value { IfOk result (λ xs. (n : ℕ) → n < length sums.now →
        slice_index xs.items n ≡ symbol_sub 0 (slice_index sums.now n % 65537)) }
    ensures are_symbols { IfOk result (λ xs. All IsSymbol xs.items) }
{
    let mut changes = Vec::with_capacity(alloc, sums.len())?;
    for sum in sums {
        changes.push_reserved(minus(*sum));
    }
    Ok(changes)
}

/// Minus a number, modulo 65537.
fn minus(x: u64) -> u32
    ensures { result ≡ symbol_sub 0 (x % 65537) }
{
    ((65537 - x % 65537) % 65537) as u32
}
