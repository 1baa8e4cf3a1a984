//! Transforms of known polynomials, alone and side by side, and the way back.

use dc_transform::{Roots, are_symbols, divide, has_rows, multiply_places, multiply_rows};
use std::process::Abort;
use std::test::Fail;

/// Asserts a transform, and that the way back gives what was transformed.
fn goes_to<R: AllocGlobal + Abort>(
    rt: &R,
    roots: &Roots,
    width: usize,
    depth: usize,
    rows: &[u32],
    transform: &[u32],
) -> Result<(), Fail> {
    let mut numbers = Vec::from_slice(rt.alloc(), rows)?;
    if width > 65536 || depth > 16 || !has_rows(&numbers, width, depth) || !are_symbols(&numbers) {
        return Err("these are no polynomials".into());
    }
    roots.forward_in_place(width, depth, &mut numbers);
    assert_eq!(rt; numbers.as_slice(), transform);
    roots.backward_in_place(width, depth, &mut numbers);
    divide(depth, &mut numbers);
    assert_eq!(rt; numbers.as_slice(), rows);
    Ok(())
}

/// The values of 1 + 2x + 3x^2 + 4x^3 and of x - x^3 at 1, -1 and the two square roots of -1.
#[test]
fn polynomials_are_transformed_side_by_side(rt: HostRuntime) -> Result<(), Fail> {
    let roots = Roots::start(rt.alloc()).ok().ok_or("there is memory")?;
    goes_to(&rt, &roots, 1, 0, &[65536], &[65536])?;
    goes_to(&rt, &roots, 1, 1, &[1, 2], &[3, 65536])?;
    goes_to(&rt, &roots, 1, 2, &[1, 2, 3, 4], &[10, 65535, 510, 65023])?;
    goes_to(&rt, &roots, 1, 2, &[0, 1, 0, 65536], &[0, 0, 65025, 512])?;
    goes_to(
        &rt,
        &roots,
        2,
        2,
        &[1, 0, 2, 1, 3, 0, 4, 65536],
        &[10, 0, 65535, 0, 510, 65025, 65023, 512],
    )
}

#[test]
fn places_and_rows_are_multiplied(rt: HostRuntime) -> Result<(), Fail> {
    let mut places = Vec::from_slice(rt.alloc(), &[2u32, 65536, 65536, 0])?;
    let factors = Vec::from_slice(rt.alloc(), &[3u32, 65536, 5, 7])?;
    if places.len() != factors.len() || !are_symbols(&places) || !are_symbols(&factors) {
        return Err("these are no symbols".into());
    }
    multiply_places(&mut places, &factors);
    assert_eq!(rt; places.as_slice(), [6, 1, 65532, 0].as_slice());
    let mut rows = Vec::from_slice(rt.alloc(), &[1u32, 2, 3, 4, 5, 65536])?;
    let two = Vec::from_slice(rt.alloc(), &[10u32, 65536])?;
    if rows.len() != 3 * two.len() || !are_symbols(&rows) || !are_symbols(&two) {
        return Err("these are no rows".into());
    }
    multiply_rows(3, &mut rows, &two);
    assert_eq!(rt; rows.as_slice(), [10, 20, 30, 65533, 65532, 1].as_slice());
    Ok(())
}
