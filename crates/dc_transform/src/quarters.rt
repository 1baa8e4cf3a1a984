//! The four quarters of a list, folded and unfolded twice in one pass: the inner loops of the transforms.

ghost use Rattle.std.specs.Prelude.{◌≡◌, ◌<◌, length};
ghost use Rattle.dc_spec.specs.Symbols.{AreSymbols};
ghost use Rattle.dc_transform_rules.specs.Residues.{plus, times, minus_one};
ghost use Rattle.dc_transform_rules.specs.Polynomials.{sums};
ghost use Rattle.dc_transform.specs.Halves.{plus_half, minus_half, difference_half};

use crate::residue::{difference_of, product_of, sum_of};

/// `x` plus `c` times `y`, and `x` minus `c` times `y`.
fn folded(x: u32, y: u32, c: u32) -> (u32, u32)
    requires x { x < 65537 }
    requires y { y < 65537 }
    requires constant { c < 65536 }
    ensures plus { result.0 ≡ plus x (times c y) }
    ensures minus { result.1 ≡ plus x (times minus_one (times c y)) }
    ensures plus_small { result.0 < 65537 }
    ensures minus_small { result.1 < 65537 }
{
    let second = product_of(y, c);
    (sum_of(x, second), difference_of(x, second))
}

/// `x` plus `y`, and `c` times `x` minus `y`.
fn unfolded(x: u32, y: u32, c: u32) -> (u32, u32)
    requires x { x < 65537 }
    requires y { y < 65537 }
    requires constant { c < 65536 }
    ensures plus { result.0 ≡ plus x y }
    ensures minus { result.1 ≡ times c (plus x (times minus_one y)) }
    ensures plus_small { result.0 < 65537 }
    ensures minus_small { result.1 < 65537 }
{
    (sum_of(x, y), product_of(difference_of(x, y), c))
}

/// Folds the first two quarters and the last two by `c`, then the first quarter and the second by
/// `d`, and the third and the fourth by `e`.
#[inline(always)]
pub(crate) fn fold_twice(
    first: &mut [u32],
    second: &mut [u32],
    third: &mut [u32],
    fourth: &mut [u32],
    constants: (u32, u32, u32),
)
    requires second_long { length second.old ≡ length first.old }
    requires third_long { length third.old ≡ length first.old }
    requires fourth_long { length fourth.old ≡ length first.old }
    requires first { AreSymbols first.old }
    requires second { AreSymbols second.old }
    requires third { AreSymbols third.old }
    requires fourth { AreSymbols fourth.old }
    requires constants { constants.0 < 65536 }
    requires first_constant { constants.1 < 65536 }
    requires second_constant { constants.2 < 65536 }
    ensures first { first.new ≡ plus_half constants.1 (plus_half constants.0 first.old third.old) (plus_half constants.0 second.old fourth.old) }
    ensures second { second.new ≡ minus_half constants.1 (plus_half constants.0 first.old third.old) (plus_half constants.0 second.old fourth.old) }
    ensures third { third.new ≡ plus_half constants.2 (minus_half constants.0 first.old third.old) (minus_half constants.0 second.old fourth.old) }
    ensures fourth { fourth.new ≡ minus_half constants.2 (minus_half constants.0 first.old third.old) (minus_half constants.0 second.old fourth.old) }
    ensures first_symbols { AreSymbols first.new }
    ensures second_symbols { AreSymbols second.new }
    ensures third_symbols { AreSymbols third.new }
    ensures fourth_symbols { AreSymbols fourth.new }
{
    let (c, d, e) = constants;
    for i in 0..first.len() {
        let (w, y) = folded(first[i], third[i], c);
        let (x, z) = folded(second[i], fourth[i], c);
        (first[i], second[i]) = folded(w, x, d);
        (third[i], fourth[i]) = folded(y, z, e);
    }
}

/// Unfolds the first quarter and the second by `d`, and the third and the fourth by `e`, then the
/// first two quarters and the last two by `c`.
#[inline(always)]
pub(crate) fn unfold_twice(
    first: &mut [u32],
    second: &mut [u32],
    third: &mut [u32],
    fourth: &mut [u32],
    constants: (u32, u32, u32),
)
    requires second_long { length second.old ≡ length first.old }
    requires third_long { length third.old ≡ length first.old }
    requires fourth_long { length fourth.old ≡ length first.old }
    requires first { AreSymbols first.old }
    requires second { AreSymbols second.old }
    requires third { AreSymbols third.old }
    requires fourth { AreSymbols fourth.old }
    requires constants { constants.0 < 65536 }
    requires first_constant { constants.1 < 65536 }
    requires second_constant { constants.2 < 65536 }
    ensures first { first.new ≡ sums (sums first.old second.old) (sums third.old fourth.old) }
    ensures second { second.new ≡ sums (difference_half constants.1 first.old second.old) (difference_half constants.2 third.old fourth.old) }
    ensures third { third.new ≡ difference_half constants.0 (sums first.old second.old) (sums third.old fourth.old) }
    ensures fourth { fourth.new ≡ difference_half constants.0 (difference_half constants.1 first.old second.old) (difference_half constants.2 third.old fourth.old) }
    ensures first_symbols { AreSymbols first.new }
    ensures second_symbols { AreSymbols second.new }
    ensures third_symbols { AreSymbols third.new }
    ensures fourth_symbols { AreSymbols fourth.new }
{
    let (c, d, e) = constants;
    for i in 0..first.len() {
        let (w, x) = unfolded(first[i], second[i], d);
        let (y, z) = unfolded(third[i], fourth[i], e);
        (first[i], third[i]) = unfolded(w, y, c);
        (second[i], fourth[i]) = unfolded(x, z, c);
    }
}
