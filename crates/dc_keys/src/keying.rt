//! History-bound keys (Waidner 1989): the key of a word depends on all symbols received before.

ghost use Rattle.std.specs.Prelude.{◌≡◌, ◌+◌, ◌-◌, ◌*◌, ◌<◌, ◌≤◌, ℕ, length, slice_index, sum_by, All, take, drop};
ghost use Rattle.std.specs.List.{range_with_len};
ghost use Rattle.dc_spec.specs.Limits.{most_words};
ghost use Rattle.dc_spec.specs.Words.{IsSymbol};
ghost use Rattle.dc_key_rules.specs.PairKeys.{symbols, key_word as key_word_of};

use crate::adding::{add_products, reduced, widened};
use crate::pair_key::PairKey;
use dc_field::{Word, Words};

/// The key of a pair for word `t`, from 0, after the first `t` received words: symbol `l` is first
/// pad `16 * t + l` plus the sum of second pad `16 * t + l - k` times received symbol `k`, over the
/// `16 * t` symbols received before, modulo 65537. Words received from word `t` on do not count.
pub fn key_word(pair: &PairKey, received: &Words, t: u16) -> Word
    requires within { 16 * t < length pair.now.a }
    requires history { t ≤ length received.now }
    ensures { result ≡ key_word_of pair.now (symbols received.now) t }
{
    let start = 16 * usize::from(t);
    let first = &pair.a.as_slice()[start..start + 16];
    let totals = key_totals(
        first,
        pair.b.as_slice(),
        &received.as_slice()[..usize::from(t)],
    );
    reduced(&totals)
}

/// The symbols of a key before they are reduced: each is a first pad plus the products of all
/// received symbols with second pads.
fn key_totals(first: &[u32], second: &[u32], received: &[Word]) -> [u64; 16]
    requires sixteen { length first.now ≡ 16 }
    requires first_symbols { All IsSymbol first.now }
    requires second_symbols { All IsSymbol second.now }
    requires history { length received.now ≤ most_words }
    requires within { 16 * length received.now + 16 ≤ length second.now }
    ensures sixteen_each { length (symbols received.now) ≡ 16 * length received.now }
    ensures sums { (l : ℕ) → l < 16 → slice_index result l ≡ slice_index first.now l + sum_by (λ k. slice_index second.now (16 * length received.now + l - k) * slice_index (symbols received.now) k) (range_with_len 0 (16 * length received.now)) }
{
    let mut totals = widened(first);
    for t in 0..received.len() {
        add_products(&mut totals, second, &received[t], 16 * (received.len() - t));
    }
    totals
}
