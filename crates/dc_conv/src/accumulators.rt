//! The running sums of a mask.

ghost use Rattle.std.specs.Prelude.{◌≡◌, ◌+◌, ◌*◌, ◌^◌, ◌<◌, ◌≤◌, ℕ, length, slice_index, All, IfOk};
ghost use Rattle.dc_spec.specs.Words.{IsSymbol, AreWords};
ghost use Rattle.dc_keys.specs.StationPads.{history_sum};

use crate::adding::add_words;
use dc_field::{NoMemory, Word};
use std::alloc::Global;
use std::marker::Model;

/// Sums of 64 bits, one for each symbol of the session, seen by contracts as the list of their
/// numbers. Their memory is taken once: the room is exactly the number of sums.
#[derive(Drop)]
pub struct Accumulators {
    items: Vec<u64>,
}

impl Model for Accumulators {
    ghost use Rattle.std.specs.Prelude.{◌≡◌, ℕ, List, vec_len, vec_capacity};

    ghost Value = { List ℕ };

    ghost view = { λ s. s.items.items };

    ghost invariant = { λ s. vec_capacity s.items ≡ vec_len s.items };
}

impl Accumulators {
    /// Sums that begin with these pads.
    pub fn of_pads(alloc: Global, pads: &[u32]) -> Result<Accumulators, NoMemory>
        ensures { IfOk result (λ s. s ≡ pads.now) }
    {
        let mut items = Vec::with_capacity(alloc, pads.len())?;
        for pad in pads {
            items.push_reserved(u64::from(*pad));
        }
        Ok(Accumulators { items })
    }

    /// The sums.
    pub fn as_slice(&self) -> &[u64]
        ensures { result.now ≡ self.now }
    {
        self.items.as_slice()
    }

    /// Adds to each sum from number `at` on what some received words contribute to it. The first of
    /// these sums is that of the symbol that follows the words. Takes no memory.
    pub fn add_from(&mut self, at: usize, second: &[u32], words: &[Word])
        requires start { at ≤ length self.old }
        requires within { 16 * length words.now + length self.old ≤ length second.now + at }
        requires symbols { All IsSymbol second.now }
        requires room { (n : ℕ) →
            slice_index self.old n + 68719476736 * length words.now < 2 ^ 64 }
        ensures words { AreWords words.now }
        ensures as_many { length self.new ≡ length self.old }
        ensures before { (n : ℕ) → n < at →
            slice_index self.new n ≡ slice_index self.old n }
        ensures added { (i : ℕ) → at + i < length self.old →
            slice_index self.new (at + i)
            ≡ slice_index self.old (at + i)
            + history_sum second.now words.now (16 * length words.now + i) }
        ensures grown { (i : ℕ) → at + i < length self.old →
            slice_index self.new (at + i)
            ≤ slice_index self.old (at + i) + 68719476736 * length words.now }
    {
        add_part(&mut self.items, at, second, words);
    }
}

/// As `add_from`, over a slice.
fn add_part(sums: &mut [u64], at: usize, second: &[u32], words: &[Word])
    requires start { at ≤ length sums.old }
    requires within { 16 * length words.now + length sums.old ≤ length second.now + at }
    requires symbols { All IsSymbol second.now }
    requires room { (n : ℕ) →
        slice_index sums.old n + 68719476736 * length words.now < 2 ^ 64 }
    ensures words { AreWords words.now }
    ensures before { (n : ℕ) → n < at →
        slice_index sums.new n ≡ slice_index sums.old n }
    ensures added { (i : ℕ) → at + i < length sums.old →
        slice_index sums.new (at + i)
        ≡ slice_index sums.old (at + i)
        + history_sum second.now words.now (16 * length words.now + i) }
    ensures grown { (i : ℕ) → at + i < length sums.old →
        slice_index sums.new (at + i)
        ≤ slice_index sums.old (at + i) + 68719476736 * length words.now }
{
    add_words(&mut sums[at..], second, words);
}
