//! The transform and the way back, in place. Each pass over the rows takes two steps, but for one
//! step at the top where the depth is odd.

ghost use Rattle.std.specs.Prelude.{◌≡◌, ◌++◌, ◌-◌, ◌%◌, ◌<◌, ◌≤◌, length, take, drop, replicate};
ghost use Rattle.dc_spec.specs.Symbols.{AreSymbols};
ghost use Rattle.dc_transform.specs.Roots.{AreRoots};
ghost use Rattle.dc_transform_rules.specs.Polynomials.{sums};
ghost use Rattle.dc_transform_rules.specs.Transforms.{size, forward, backward};

use crate::halves::{add_differences, fold, unfold};
use crate::quarters::{fold_twice, unfold_twice};
use crate::table::{constant, constants, inverse, inverses};

/// Transforms 2^depth rows of numbers below the node whose exponent is `exponent`.
pub(crate) fn go_forward(
    roots: &[u16],
    width: usize,
    depth: usize,
    exponent: usize,
    rows: &mut [u32],
)
    requires roots { AreRoots roots.now }
    requires exponent { exponent < 65536 }
    requires long { length rows.old ≡ size width depth }
    requires symbols { AreSymbols rows.old }
    ensures value { rows.new ≡ forward width depth exponent rows.old }
    ensures symbols { AreSymbols rows.new }
{
    if depth % 2 == 0 {
        go_forward_by_two(roots, width, depth, exponent, rows);
        return;
    }
    let half = rows.len() / 2;
    let (left, right) = rows.split_at_mut(half);
    fold(left, right, constant(roots, exponent / 2));
    go_forward_by_two(roots, width, depth - 1, exponent / 2, left);
    go_forward_by_two(roots, width, depth - 1, exponent / 2 + 32768, right);
}

/// As `go_forward`, where the depth is even.
fn go_forward_by_two(roots: &[u16], width: usize, depth: usize, exponent: usize, rows: &mut [u32])
    requires roots { AreRoots roots.now }
    requires exponent { exponent < 65536 }
    requires even { depth % 2 ≡ 0 }
    requires long { length rows.old ≡ size width depth }
    requires symbols { AreSymbols rows.old }
    ensures value { rows.new ≡ forward width depth exponent rows.old }
    ensures symbols { AreSymbols rows.new }
{
    if depth == 0 {
        return;
    }
    let half = rows.len() / 2;
    let (left, right) = rows.split_at_mut(half);
    let (first, second) = left.split_at_mut(half / 2);
    let (third, fourth) = right.split_at_mut(half / 2);
    fold_twice(first, second, third, fourth, constants(roots, exponent));
    if depth == 2 {
        return;
    }
    let (y, z) = (exponent / 2 / 2, (exponent / 2 + 32768) / 2);
    go_forward_by_two(roots, width, depth - 2, y, first);
    go_forward_by_two(roots, width, depth - 2, y + 32768, second);
    go_forward_by_two(roots, width, depth - 2, z, third);
    go_forward_by_two(roots, width, depth - 2, z + 32768, fourth);
}

/// Goes the way back below the node whose exponent is `exponent`.
pub(crate) fn go_backward(
    roots: &[u16],
    width: usize,
    depth: usize,
    exponent: usize,
    rows: &mut [u32],
)
    requires roots { AreRoots roots.now }
    requires exponent { exponent < 65536 }
    requires long { length rows.old ≡ size width depth }
    requires symbols { AreSymbols rows.old }
    ensures value { rows.new ≡ backward width depth exponent rows.old }
    ensures symbols { AreSymbols rows.new }
{
    if depth % 2 == 0 {
        go_backward_by_two(roots, width, depth, exponent, rows);
        return;
    }
    let half = rows.len() / 2;
    let (left, right) = rows.split_at_mut(half);
    go_backward_by_two(roots, width, depth - 1, exponent / 2, left);
    go_backward_by_two(roots, width, depth - 1, exponent / 2 + 32768, right);
    unfold(left, right, inverse(roots, exponent / 2));
}

/// As `go_backward`, where the depth is even.
fn go_backward_by_two(roots: &[u16], width: usize, depth: usize, exponent: usize, rows: &mut [u32])
    requires roots { AreRoots roots.now }
    requires exponent { exponent < 65536 }
    requires even { depth % 2 ≡ 0 }
    requires long { length rows.old ≡ size width depth }
    requires symbols { AreSymbols rows.old }
    ensures value { rows.new ≡ backward width depth exponent rows.old }
    ensures symbols { AreSymbols rows.new }
{
    if depth == 0 {
        return;
    }
    let half = rows.len() / 2;
    let (left, right) = rows.split_at_mut(half);
    let (first, second) = left.split_at_mut(half / 2);
    let (third, fourth) = right.split_at_mut(half / 2);
    if depth == 2 {
        unfold_twice(first, second, third, fourth, inverses(roots, exponent));
        return;
    }
    let (y, z) = (exponent / 2 / 2, (exponent / 2 + 32768) / 2);
    go_backward_by_two(roots, width, depth - 2, y, first);
    go_backward_by_two(roots, width, depth - 2, y + 32768, second);
    go_backward_by_two(roots, width, depth - 2, z, third);
    go_backward_by_two(roots, width, depth - 2, z + 32768, fourth);
    unfold_twice(first, second, third, fourth, inverses(roots, exponent));
}

/// Transforms rows of which the second half counts as zeros: the first step copies the first half.
pub(crate) fn go_forward_from_front(roots: &[u16], width: usize, depth: usize, rows: &mut [u32])
    requires roots { AreRoots roots.now }
    requires some { 0 < depth }
    requires long { length rows.old ≡ size width depth }
    requires symbols { AreSymbols (take (size width (depth - 1)) rows.old) }
    ensures value { rows.new ≡ forward width depth 0 (take (size width (depth - 1)) rows.old ++ replicate (size width (depth - 1)) 0) }
    ensures symbols { AreSymbols rows.new }
{
    let half = rows.len() / 2;
    let (left, right) = rows.split_at_mut(half);
    right.copy_from_slice(left);
    go_forward(roots, width, depth - 1, 0, left);
    go_forward(roots, width, depth - 1, 32768, right);
}

/// Goes the way back, and adds the second half of what comes to a list that is not longer. The last
/// step has the constant 1, and computes that half alone.
pub(crate) fn go_backward_to_back(
    roots: &[u16],
    width: usize,
    depth: usize,
    rows: &mut [u32],
    totals: &mut [u32],
)
    requires roots { AreRoots roots.now }
    requires some { 0 < depth }
    requires long { length rows.old ≡ size width depth }
    requires symbols { AreSymbols rows.old }
    requires totals_long { length totals.old ≤ size width (depth - 1) }
    requires totals { AreSymbols totals.old }
    ensures value { totals.new ≡ sums totals.old (take (length totals.old) (drop (size width (depth - 1)) (backward width depth 0 rows.old))) }
    ensures symbols { AreSymbols totals.new }
{
    let half = rows.len() / 2;
    let (left, right) = rows.split_at_mut(half);
    go_backward(roots, width, depth - 1, 0, left);
    go_backward(roots, width, depth - 1, 32768, right);
    add_differences(totals, left, right);
}
