//! The transforms of the pads of all stations.

ghost use Rattle.std.specs.Prelude.{◌≡◌, ◌≤◌, ◌<◌, ◌+◌, ◌*◌, ◌^◌, ℕ, length, IfOk, slice_index};
ghost use Rattle.dc_spec.specs.Symbols.{AreSymbols};
ghost use Rattle.dc_transform_rules.specs.Polynomials.{scaled};
ghost use Rattle.dc_transform_rules.specs.Transforms.{size, forward};
ghost use Rattle.dc_fast_keys.specs.Spectrum.{AreSpectra, AreAllSpectra};

use crate::pads::write_second;
use crate::walk::power_of;
use dc_field::NoMemory;
use dc_keys::SummedPads;
use dc_transform::{Roots, divide};
use std::alloc::Global;
use std::marker::Model;

/// Rows of transforms that stand side by side, seen by contracts as the list of their numbers, each
/// below 65537.
#[derive(Drop)]
pub struct Spectrum {
    rows: Vec<u32>,
}

impl Model for Spectrum {
    ghost use Rattle.std.specs.Prelude.{ℕ, List};
    ghost use Rattle.dc_spec.specs.Symbols.{AreSymbols};

    ghost Value = { List ℕ };

    ghost view = { λ s. s.rows.items };

    ghost invariant = { λ s. AreSymbols s.rows.items };
}

impl Spectrum {
    /// The transforms of the first 32 * 2^level second pads of each station, divided by their number.
    pub(crate) fn of_pads(
        alloc: Global,
        roots: &Roots,
        level: usize,
        pads: &[SummedPads],
    ) -> Result<Spectrum, NoMemory>
        requires level { level < 12 }
        requires few { length pads.now ≤ 256 }
        ensures long { IfOk result (λ s. length s ≡ size (length pads.now) (level + 5)) }
        ensures spectra { IfOk result (λ s. AreSpectra (level + 5) s pads.now) }
    {
        let mut rows = vec![in alloc; 0u32; pads.len() * (32 * power_of(level))]?;
        write_transforms(roots, level, pads, &mut rows);
        Ok(Spectrum { rows })
    }

    /// The rows, one after another.
    pub(crate) fn as_slice(&self) -> &[u32]
        ensures value { result.now ≡ self.now }
        ensures symbols { AreSymbols result.now }
    {
        self.rows.as_slice()
    }
}

/// Writes the transforms of the pads of each station to rows of zeros.
fn write_transforms(roots: &Roots, level: usize, pads: &[SummedPads], rows: &mut [u32])
    requires level { level < 12 }
    requires long { length rows.old ≡ length pads.now * (32 * 2 ^ level) }
    requires zeros { (i : ℕ) → slice_index rows.old i ≡ 0 }
    ensures long { length rows.new ≡ size (length pads.now) (level + 5) }
    ensures spectra { AreSpectra (level + 5) rows.new pads.now }
    ensures symbols { AreSymbols rows.new }
{
    write_second(rows, 32 * power_of(level), pads);
    transform(roots, level + 5, pads.len(), rows);
}

/// Transforms rows, and divides them by their number.
fn transform(roots: &Roots, depth: usize, width: usize, rows: &mut [u32])
    requires depth { depth ≤ 16 }
    requires long { length rows.old ≡ size width depth }
    requires symbols { AreSymbols rows.old }
    ensures value { scaled (2 ^ depth) rows.new ≡ forward width depth 0 rows.old }
    ensures symbols { AreSymbols rows.new }
{
    roots.forward_in_place(width, depth, rows);
    divide(depth, rows);
}

/// The transforms of the pads of each station for all levels below a number of them.
pub(crate) fn spectra_of(
    alloc: Global,
    roots: &Roots,
    levels: usize,
    pads: &[SummedPads],
) -> Result<Vec<Spectrum>, NoMemory>
    requires levels { levels ≤ 12 }
    requires few { length pads.now ≤ 256 }
    ensures many { IfOk result (λ v. length v.items ≡ levels) }
    ensures spectra { IfOk result (λ v. AreAllSpectra levels v.items pads.now) }
{
    let mut items = Vec::with_capacity(alloc, levels)?;
    for level in 0..levels {
        items.push_reserved(Spectrum::of_pads(alloc, roots, level, pads)?);
    }
    Ok(items)
}
