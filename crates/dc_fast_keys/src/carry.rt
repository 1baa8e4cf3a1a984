//! What a block of received symbols contributes to later sums.

ghost use Rattle.std.specs.Prelude.{◌≡◌, ◌++◌, ◌+◌, ◌-◌, ◌*◌, ◌^◌, ◌<◌, ◌≤◌, ℕ, length, replicate, slice_index, take};
ghost use Rattle.dc_spec.specs.Symbols.{AreSymbols};
ghost use Rattle.dc_transform_rules.specs.Polynomials.{products};
ghost use Rattle.dc_transform_rules.specs.Transforms.{size, forward};
ghost use Rattle.dc_fast_keys.specs.Spectrum.{Added, CarriedFrom};

use crate::alike::{are_alike, multiply_alike};
use dc_transform::{Roots, multiply_places};

/// Adds to each column of later sums what a block of rows before them contributes, by the
/// transforms of the pads of all columns. The block is as long as half of these transforms. There is
/// room for the products in `many`, and for one of them in `one`.
pub(crate) fn add_block(
    roots: &Roots,
    width: usize,
    depth: usize,
    spectrum: &[u32],
    block: &[u32],
    sums: &mut [u32],
    many: &mut [u32],
    one: &mut [u32],
)
    requires some { 0 < depth }
    requires most { depth ≤ 16 }
    requires block_long { length block.now ≡ size width (depth - 1) }
    requires spectrum_long { length spectrum.now ≡ size width depth }
    requires many_long { length many.old ≡ size width depth }
    requires one_long { length one.old ≡ size 1 depth }
    requires sums_long { length sums.old ≤ length block.now }
    requires spectrum_symbols { AreSymbols spectrum.now }
    requires block_symbols { AreSymbols block.now }
    requires sums_symbols { AreSymbols sums.old }
    ensures added { Added width depth (size 1 (depth - 1)) spectrum.now block.now sums.old sums.new }
    ensures symbols { AreSymbols sums.new }
{
    multiply_block(roots, width, depth, spectrum, block, many, one);
    roots.backward_to_back(width, depth, many, sums);
}

/// Writes to `many` the products, place by place, of the transforms of a block, with as many zeros
/// after it, and of these transforms.
fn multiply_block(
    roots: &Roots,
    width: usize,
    depth: usize,
    spectrum: &[u32],
    block: &[u32],
    many: &mut [u32],
    one: &mut [u32],
)
    requires some { 0 < depth }
    requires most { depth ≤ 16 }
    requires block_long { length block.now ≡ size width (depth - 1) }
    requires spectrum_long { length spectrum.now ≡ size width depth }
    requires many_long { length many.old ≡ size width depth }
    requires one_long { length one.old ≡ size 1 depth }
    requires spectrum_symbols { AreSymbols spectrum.now }
    requires block_symbols { AreSymbols block.now }
    ensures value { many.new ≡ products (forward width depth 0 (block.now ++ replicate (length block.now) 0)) spectrum.now }
    ensures symbols { AreSymbols many.new }
{
    if 0 < width && are_alike(width, one.len() / 2, block) {
        multiply_alike(roots, width, depth, spectrum, block, many, one);
    } else {
        multiply(roots, width, depth, spectrum, block, many);
    }
}

/// As `multiply_block`, by a transform of each column.
fn multiply(
    roots: &Roots,
    width: usize,
    depth: usize,
    spectrum: &[u32],
    block: &[u32],
    many: &mut [u32],
)
    requires some { 0 < depth }
    requires block_long { length block.now ≡ size width (depth - 1) }
    requires spectrum_long { length spectrum.now ≡ size width depth }
    requires many_long { length many.old ≡ size width depth }
    requires spectrum_symbols { AreSymbols spectrum.now }
    requires block_symbols { AreSymbols block.now }
    ensures value { many.new ≡ products (forward width depth 0 (block.now ++ replicate (length block.now) 0)) spectrum.now }
    ensures symbols { AreSymbols many.new }
{
    fill_front(many, block);
    roots.forward_from_front(width, depth, many);
    multiply_places(many, spectrum);
}

/// Writes a block to the front of a list.
fn fill_front(many: &mut [u32], block: &[u32])
    requires long { length block.now ≤ length many.old }
    requires symbols { AreSymbols block.now }
    ensures value { take (length block.now) many.new ≡ block.now }
{
    let (front, _) = many.split_at_mut(block.len());
    front.copy_from_slice(block);
}

/// How many rows a transform of this depth has, 2^depth.
fn rows_at(depth: usize) -> usize
    requires { depth ≤ 16 }
    ensures { result ≡ 2 ^ depth }
{
    1 << depth
}

/// Adds what the numbers of a block before place `now` contribute to the sums of a block from there
/// on, as far as there are sums.
pub(crate) fn carry_block(
    roots: &Roots,
    width: usize,
    depth: usize,
    spectrum: &[u32],
    received: &[u32],
    span: (usize, usize),
    sums: &mut [u32],
    work: &mut [u32],
)
    requires some { 0 < depth }
    requires most { depth ≤ 16 }
    requires block { span.0 ≡ size width (depth - 1) }
    requires before { span.0 ≤ span.1 }
    requires spectrum_long { length spectrum.now ≡ size width depth }
    requires received_long { span.1 ≤ length received.now }
    requires sums_long { span.1 ≤ length sums.old }
    requires work_long { size width depth + size 1 depth ≤ length work.old }
    requires spectrum_symbols { AreSymbols spectrum.now }
    requires received_symbols { AreSymbols received.now }
    requires sums_symbols { AreSymbols sums.old }
    ensures carried { CarriedFrom width depth (size 1 (depth - 1)) span.0 span.1 spectrum.now received.now sums.old sums.new }
    ensures later { (n : ℕ) → span.1 + span.0 ≤ n → slice_index sums.new n ≡ slice_index sums.old n }
    ensures symbols { AreSymbols sums.new }
{
    let (block, now) = span;
    let end = sums.len().min(now + block);
    let (many, rest) = work.split_at_mut(spectrum.len());
    add_block(
        roots,
        width,
        depth,
        spectrum,
        &received[now - block..now],
        &mut sums[now..end],
        many,
        &mut rest[..rows_at(depth)],
    );
}
