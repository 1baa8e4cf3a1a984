//! Blocks that are alike in all columns, and their products.

ghost use Rattle.std.specs.Prelude.{◌≡◌, ◌++◌, ◌+◌, ◌-◌, ◌*◌, ◌<◌, ◌≤◌, ℕ, IsTrue, length, replicate, slice_index, take};
ghost use Rattle.dc_spec.specs.Symbols.{AreSymbols};
ghost use Rattle.dc_transform_rules.specs.Polynomials.{products};
ghost use Rattle.dc_transform_rules.specs.Transforms.{size, forward, column};
ghost use Rattle.dc_fast_keys.specs.Spectrum.{AreAlike};

use dc_transform::{Roots, multiply_rows};

/// Whether each of so many rows has one number in all columns.
pub(crate) fn are_alike(width: usize, rows: usize, block: &[u32]) -> bool
    requires some { 1 ≤ width }
    requires long { length block.now ≡ width * rows }
    ensures { IsTrue result → AreAlike width rows block.now }
{
    for row in 0..rows {
        let from = width * row;
        if !is_constant(&block[from..from + width]) {
            return false;
        }
    }
    true
}

/// Whether all numbers of a row are the first one.
fn is_constant(row: &[u32]) -> bool
    requires some { 1 ≤ length row.now }
    ensures { IsTrue result → (s : ℕ) → s < length row.now → slice_index row.now s ≡ slice_index row.now 0 }
{
    let first = row[0];
    row.iter().all(|x| *x == first)
}

/// Writes to `many` the product, place by place, of the transform of a block, with as many zeros
/// after it, and of these transforms. All columns of the block are alike, so one of them is
/// transformed for all, in `one`.
pub(crate) fn multiply_alike(
    roots: &Roots,
    width: usize,
    depth: usize,
    spectrum: &[u32],
    block: &[u32],
    many: &mut [u32],
    one: &mut [u32],
)
    requires width { 1 ≤ width }
    requires some { 0 < depth }
    requires block_long { length block.now ≡ size width (depth - 1) }
    requires spectrum_long { length spectrum.now ≡ size width depth }
    requires many_long { length many.old ≡ size width depth }
    requires one_long { length one.old ≡ size 1 depth }
    requires spectrum_symbols { AreSymbols spectrum.now }
    requires block_symbols { AreSymbols block.now }
    requires alike { AreAlike width (size 1 (depth - 1)) block.now }
    ensures value { many.new ≡ products (forward width depth 0 (block.now ++ replicate (length block.now) 0)) spectrum.now }
    ensures symbols { AreSymbols many.new }
{
    let rows = one.len() / 2;
    fill_front(width, rows, block, one);
    roots.forward_from_front(1, depth, one);
    many.copy_from_slice(spectrum);
    multiply_rows(width, many, one);
}

/// Writes the first column of a block to the front of a list.
fn fill_front(width: usize, rows: usize, block: &[u32], one: &mut [u32])
    requires width { 1 ≤ width }
    requires block_long { length block.now ≡ width * rows }
    requires long { length one.old ≡ rows + rows }
    requires symbols { AreSymbols block.now }
    ensures value { take rows one.new ≡ column width rows 0 block.now }
    ensures symbols { AreSymbols (take rows one.new) }
{
    let (front, _) = one.split_at_mut(rows);
    write_first_column(width, block, front);
}

/// Writes the first column of a block.
fn write_first_column(width: usize, block: &[u32], front: &mut [u32])
    requires width { 1 ≤ width }
    requires block_long { length block.now ≡ width * length front.old }
    requires symbols { AreSymbols block.now }
    ensures value { front.new ≡ column width (length front.old) 0 block.now }
    ensures symbols { AreSymbols front.new }
{
    for row in 0..front.len() {
        front[row] = block[width * row];
    }
}
