//! The two halves of a list, folded and unfolded: the inner loops of the transforms.

ghost use Rattle.std.specs.Prelude.{◌≡◌, ◌<◌, ◌≤◌, length, take};
ghost use Rattle.dc_spec.specs.Symbols.{AreSymbols};
ghost use Rattle.dc_transform_rules.specs.Residues.{times, minus_one};
ghost use Rattle.dc_transform_rules.specs.Polynomials.{sums, scaled};

use crate::residue::{difference_of, product_of, sum_of};

/// Leaves in place of both halves the first plus `c` times the second, and the first minus `c`
/// times the second.
pub(crate) fn fold(left: &mut [u32], right: &mut [u32], c: u32)
    requires lengths { length left.old ≡ length right.old }
    requires left { AreSymbols left.old }
    requires right { AreSymbols right.old }
    requires constant { c < 65536 }
    ensures plus { left.new ≡ sums left.old (scaled c right.old) }
    ensures minus { right.new ≡ sums left.old (scaled (times minus_one c) right.old) }
    ensures left_symbols { AreSymbols left.new }
    ensures right_symbols { AreSymbols right.new }
{
    for i in 0..left.len() {
        let first = left[i];
        let second = product_of(right[i], c);
        left[i] = sum_of(first, second);
        right[i] = difference_of(first, second);
    }
}

/// Leaves in place of both halves their sum, and `c` times their difference.
pub(crate) fn unfold(left: &mut [u32], right: &mut [u32], c: u32)
    requires lengths { length left.old ≡ length right.old }
    requires left { AreSymbols left.old }
    requires right { AreSymbols right.old }
    requires constant { c < 65536 }
    ensures plus { left.new ≡ sums left.old right.old }
    ensures minus { right.new ≡ scaled c (sums left.old (scaled minus_one right.old)) }
    ensures left_symbols { AreSymbols left.new }
    ensures right_symbols { AreSymbols right.new }
{
    for i in 0..left.len() {
        let first = left[i];
        let second = right[i];
        left[i] = sum_of(first, second);
        right[i] = product_of(difference_of(first, second), c);
    }
}

/// Adds to each number of a list the difference of the numbers of two other lists at the same place.
pub(crate) fn add_differences(totals: &mut [u32], left: &[u32], right: &[u32])
    requires long { length totals.old ≤ length left.now }
    requires lengths { length left.now ≡ length right.now }
    requires totals { AreSymbols totals.old }
    requires left { AreSymbols left.now }
    requires right { AreSymbols right.now }
    ensures value { totals.new ≡ sums totals.old (take (length totals.old) (sums left.now (scaled minus_one right.now))) }
    ensures symbols { AreSymbols totals.new }
{
    for i in 0..totals.len() {
        totals[i] = sum_of(totals[i], difference_of(left[i], right[i]));
    }
}
