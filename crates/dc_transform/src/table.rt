//! The table of the powers of 3 that the transforms take.

ghost use Rattle.std.specs.Prelude.{◌≡◌, ◌+◌, ◌-◌, ◌/◌, ◌<◌, ◌≤◌, length, IfOk, slice_index};
ghost use Rattle.dc_transform_rules.specs.Residues.{root};
ghost use Rattle.dc_transform.specs.Roots.{ArePowers, AreRoots};

use crate::residue::product_of;
use dc_field::NoMemory;
use std::alloc::Global;

/// The powers of 3 with the exponents below `count`.
pub(crate) fn powers(alloc: Global, count: usize) -> Result<Vec<u16>, NoMemory>
    requires { count ≤ 32768 }
    ensures { IfOk result (λ v. (length v.items ≡ count) × ArePowers v.items count) }
{
    let mut items = Vec::with_capacity(alloc, count)?;
    let mut power = 1u32;
    for exponent in 0..count {
        items.push_reserved(power as u16);
        power = product_of(power, 3);
    }
    Ok(items)
}

/// The constant of the node whose exponent is twice `z`.
pub(crate) fn constant(roots: &[u16], z: usize) -> u32
    requires roots { AreRoots roots.now }
    requires exponent { z < 32768 }
    ensures value { result ≡ root z }
    ensures small { result < 65536 }
{
    u32::from(roots[z])
}

/// The inverse of the constant of the node whose exponent is twice `z`.
pub(crate) fn inverse(roots: &[u16], z: usize) -> u32
    requires roots { AreRoots roots.now }
    requires exponent { z < 32768 }
    ensures value { result ≡ root (65536 - z) }
    ensures small { result < 65536 }
{
    if z == 0 {
        1
    } else {
        65537 - u32::from(roots[32768 - z])
    }
}

/// The constants of the node of an exponent, and of the two nodes below it.
pub(crate) fn constants(roots: &[u16], exponent: usize) -> (u32, u32, u32)
    requires roots { AreRoots roots.now }
    requires exponent { exponent < 65536 }
    ensures value { result.0 ≡ root (exponent / 2) }
    ensures left { result.1 ≡ root (exponent / 2 / 2) }
    ensures right { result.2 ≡ root ((exponent / 2 + 32768) / 2) }
    ensures small { result.0 < 65536 }
    ensures left_small { result.1 < 65536 }
    ensures right_small { result.2 < 65536 }
{
    let z = exponent / 2;
    (
        constant(roots, z),
        constant(roots, z / 2),
        constant(roots, (z + 32768) / 2),
    )
}

/// The inverses of the constants of the node of an exponent, and of the two nodes below it.
pub(crate) fn inverses(roots: &[u16], exponent: usize) -> (u32, u32, u32)
    requires roots { AreRoots roots.now }
    requires exponent { exponent < 65536 }
    ensures value { result.0 ≡ root (65536 - exponent / 2) }
    ensures left { result.1 ≡ root (65536 - exponent / 2 / 2) }
    ensures right { result.2 ≡ root (65536 - (exponent / 2 + 32768) / 2) }
    ensures small { result.0 < 65536 }
    ensures left_small { result.1 < 65536 }
    ensures right_small { result.2 < 65536 }
{
    let z = exponent / 2;
    (
        inverse(roots, z),
        inverse(roots, z / 2),
        inverse(roots, (z + 32768) / 2),
    )
}
