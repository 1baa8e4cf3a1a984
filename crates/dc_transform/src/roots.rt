//! The transforms, and products of polynomials by them.

ghost use Rattle.std.specs.Prelude.{◌≡◌, ◌++◌, ◌-◌, ◌<◌, ◌≤◌, length, take, drop, replicate, IfOk};
ghost use Rattle.dc_spec.specs.Symbols.{AreSymbols};
ghost use Rattle.dc_transform_rules.specs.Polynomials.{product, sums};
ghost use Rattle.dc_transform.specs.Roots.{AreRoots};
ghost use Rattle.dc_transform_rules.specs.Transforms.{size, forward, backward};

use crate::places::{divide, multiply_places};
use crate::table::powers;
use crate::transform::{go_backward, go_backward_to_back, go_forward, go_forward_from_front};
use dc_field::NoMemory;
use std::alloc::Global;
use std::marker::Model;

/// The powers of 3 that all transforms take, 64 KiB, seen by contracts as the list of these powers.
/// After the start nothing takes memory.
#[derive(Drop)]
pub struct Roots {
    powers: Vec<u16>,
}

impl Model for Roots {
    ghost use Rattle.std.specs.Prelude.{ℕ, List};
    ghost use Rattle.dc_transform.specs.Roots.{AreRoots};

    ghost Value = { List ℕ };

    ghost view = { λ r. r.powers.items };

    ghost invariant = { λ r. AreRoots r.powers.items };
}

impl Roots {
    /// Makes the table.
    pub fn start(alloc: Global) -> Result<Roots, NoMemory>
        ensures { IfOk result AreRoots }
    {
        let powers = powers(alloc, 32768)?;
        Ok(Roots { powers })
    }

    /// Transforms 2^depth rows of `width` numbers: each column is a polynomial, its constant
    /// coefficient in the first row.
    pub fn forward_in_place(&self, width: usize, depth: usize, rows: &mut [u32])
        requires long { length rows.old ≡ size width depth }
        requires symbols { AreSymbols rows.old }
        ensures value { rows.new ≡ forward width depth 0 rows.old }
        ensures symbols { AreSymbols rows.new }
    {
        go_forward(self.powers.as_slice(), width, depth, 0, rows);
    }

    /// Goes the way back: 2^depth rows that were transformed come back, times 2^depth.
    pub fn backward_in_place(&self, width: usize, depth: usize, rows: &mut [u32])
        requires long { length rows.old ≡ size width depth }
        requires symbols { AreSymbols rows.old }
        ensures value { rows.new ≡ backward width depth 0 rows.old }
        ensures symbols { AreSymbols rows.new }
    {
        go_backward(self.powers.as_slice(), width, depth, 0, rows);
    }

    /// As `forward_in_place`, for rows of which the second half counts as zeros, whatever it holds.
    pub fn forward_from_front(&self, width: usize, depth: usize, rows: &mut [u32])
        requires some { 0 < depth }
        requires long { length rows.old ≡ size width depth }
        requires symbols { AreSymbols (take (size width (depth - 1)) rows.old) }
        ensures value { rows.new ≡ forward width depth 0 (take (size width (depth - 1)) rows.old ++ replicate (size width (depth - 1)) 0) }
        ensures symbols { AreSymbols rows.new }
    {
        go_forward_from_front(self.powers.as_slice(), width, depth, rows);
    }

    /// Goes the way back as `backward_in_place`, and adds the second half of what comes to `totals`, as
    /// far as there are totals. What the rows hold after it is of no use.
    pub fn backward_to_back(&self, width: usize, depth: usize, rows: &mut [u32], totals: &mut [u32])
        requires some { 0 < depth }
        requires long { length rows.old ≡ size width depth }
        requires symbols { AreSymbols rows.old }
        requires totals_long { length totals.old ≤ size width (depth - 1) }
        requires totals { AreSymbols totals.old }
        ensures value { totals.new ≡ sums totals.old (take (length totals.old) (drop (size width (depth - 1)) (backward width depth 0 rows.old))) }
        ensures symbols { AreSymbols totals.new }
    {
        go_backward_to_back(self.powers.as_slice(), width, depth, rows, totals);
    }

    /// Multiplies a polynomial of 2^depth coefficients by another modulo x^(2^depth) - 1. The
    /// other one is left transformed.
    pub fn multiply_in_place(&self, depth: usize, a: &mut [u32], b: &mut [u32])
        requires depth { depth ≤ 16 }
        requires a_long { length a.old ≡ size 1 depth }
        requires b_long { length b.old ≡ size 1 depth }
        requires a_symbols { AreSymbols a.old }
        requires b_symbols { AreSymbols b.old }
        ensures value { a.new ≡ product 1 a.old b.old }
        ensures transformed { b.new ≡ forward 1 depth 0 b.old }
    {
        self.forward_in_place(1, depth, a);
        self.forward_in_place(1, depth, b);
        multiply_places(a, b);
        self.backward_in_place(1, depth, a);
        divide(depth, a);
    }
}
