//! Products of small polynomials by hand, and of long ones by plain sums.

use dc_transform::{Roots, are_symbols, has_rows};
use std::alloc::Global;
use std::process::Abort;
use std::test::Fail;

/// The product of two polynomials of 2^depth coefficients.
fn product_of(roots: &Roots, depth: usize, a: &mut [u32], b: &mut [u32]) -> Result<(), Fail> {
    if depth > 16
        || !has_rows(a, 1, depth)
        || !has_rows(b, 1, depth)
        || !are_symbols(a)
        || !are_symbols(b)
    {
        return Err("these are no polynomials".into());
    }
    roots.multiply_in_place(depth, a, b);
    Ok(())
}

/// Asserts the product of two polynomials of 2^depth coefficients.
fn gives<R: AllocGlobal + Abort>(
    rt: &R,
    roots: &Roots,
    depth: usize,
    factors: (&[u32], &[u32]),
    product: &[u32],
) -> Result<(), Fail> {
    let mut a = Vec::from_slice(rt.alloc(), factors.0)?;
    let mut b = Vec::from_slice(rt.alloc(), factors.1)?;
    product_of(roots, depth, &mut a, &mut b)?;
    assert_eq!(rt; a.as_slice(), product);
    Ok(())
}

#[test]
fn small_polynomials_are_multiplied(rt: HostRuntime) -> Result<(), Fail> {
    let roots = Roots::start(rt.alloc()).ok().ok_or("there is memory")?;
    gives(&rt, &roots, 0, (&[65536], &[65536]), &[1])?;
    gives(&rt, &roots, 1, (&[1, 2], &[3, 4]), &[11, 10])?;
    gives(&rt, &roots, 1, (&[65536, 1], &[65536, 65536]), &[0, 0])?;
    gives(
        &rt,
        &roots,
        2,
        (&[1, 2, 3, 4], &[5, 6, 7, 8]),
        &[66, 68, 66, 60],
    )?;
    gives(
        &rt,
        &roots,
        2,
        (&[3, 5, 7, 9], &[1, 2, 0, 0]),
        &[21, 11, 17, 23],
    )?;
    gives(
        &rt,
        &roots,
        2,
        (&[65536, 65536, 65536, 65536], &[65536, 0, 0, 65536]),
        &[2, 2, 2, 2],
    )
}

/// 2^depth numbers below 65537 that a seed determines.
fn numbers_of(alloc: Global, depth: u32, seed: u32) -> Result<Vec<u32>, Fail> {
    let mut numbers = Vec::new(alloc);
    let mut number = u64::from(seed);
    for _ in 0..1u32 << depth.min(16) {
        number = number.wrapping_mul(48271).wrapping_add(11) % 2147483647;
        numbers.push((number % 65537) as u32)?;
    }
    Ok(numbers)
}

/// The coefficients of a product modulo x^n - 1, each summed by itself.
fn plain_product(alloc: Global, a: &[u32], b: &[u32]) -> Result<Vec<u32>, Fail> {
    let mut sums = Vec::new(alloc);
    for k in 0..a.len() {
        let mut sum = 0u64;
        for i in 0..b.len() {
            let place = if i <= k {
                k - i
            } else {
                a.len() - (i - k).min(a.len())
            };
            let first = a.get(place).copied().unwrap_or(0);
            sum = sum % 65537 + u64::from(first) * u64::from(b[i]);
        }
        sums.push((sum % 65537) as u32)?;
    }
    Ok(sums)
}

#[test]
fn long_polynomials_are_multiplied(rt: HostRuntime) -> Result<(), Fail> {
    let roots = Roots::start(rt.alloc()).ok().ok_or("there is memory")?;
    for (depth, seed) in [(3u32, 5u32), (7, 77), (10, 4001)] {
        let a = numbers_of(rt.alloc(), depth, seed)?;
        let b = numbers_of(rt.alloc(), depth, seed + 1)?;
        let due = plain_product(rt.alloc(), &a, &b)?;
        gives(&rt, &roots, depth as usize, (&a, &b), &due)?;
    }
    Ok(())
}
