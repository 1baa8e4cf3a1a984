//! Symbols, and numbers in text.

use dc_field::{Sym, read_decimal};
use std::process::Abort;
use std::test::Fail;

/// Asserts which symbol a number is.
fn is_symbol<R: Abort>(rt: &R, x: u32, due: Option<u32>) {
    let number = Sym::new(x).map(|s: Sym| -> u32 { s.number() });
    assert_eq!(rt; number, due, "{x}");
}

/// Asserts the sum, the difference and the product of two symbols.
fn gives<R: Abort>(rt: &R, x: u32, y: u32, due: [u32; 3]) -> Result<(), Fail> {
    let x = Sym::new(x).ok_or("it is a symbol")?;
    let y = Sym::new(y).ok_or("it is a symbol")?;
    let sum = x.add(y).number();
    let difference = x.sub(y).number();
    let negative = y.neg().add(x).number();
    let product = x.mul(y).number();
    assert_eq!(rt; [sum, difference, product].as_slice(), due.as_slice());
    assert_eq!(rt; negative, difference);
    Ok(())
}

/// Asserts the inverse of a symbol.
fn inverts<R: Abort>(rt: &R, x: u32, due: Option<u32>) -> Result<(), Fail> {
    let x = Sym::new(x).ok_or("it is a symbol")?;
    let number = x.inv().map(|s: Sym| -> u32 { s.number() });
    assert_eq!(rt; number, due, "{x:?}");
    Ok(())
}

/// Asserts which number a text is.
fn is_number<R: Abort>(rt: &R, text: &[u8], due: Option<u32>) {
    assert_eq!(rt; read_decimal(text), due);
}

#[test]
fn numbers_as_symbols(rt: HostRuntime) {
    is_symbol(&rt, 0, Some(0));
    is_symbol(&rt, 1, Some(1));
    is_symbol(&rt, 65536, Some(65536));
    is_symbol(&rt, 65537, None);
    is_symbol(&rt, 4294967295, None);
}

#[test]
fn sums_and_products(rt: HostRuntime) -> Result<(), Fail> {
    gives(&rt, 65536, 1, [0, 65535, 65536])?;
    gives(&rt, 65536, 65536, [65535, 0, 1])?;
    gives(&rt, 40000, 30000, [4463, 10000, 17530])?;
    gives(&rt, 2, 7, [9, 65532, 14])?;
    gives(&rt, 0, 0, [0, 0, 0])
}

#[test]
fn inverses(rt: HostRuntime) -> Result<(), Fail> {
    inverts(&rt, 0, None)?;
    inverts(&rt, 1, Some(1))?;
    inverts(&rt, 65536, Some(65536))?;
    inverts(&rt, 2, Some(32769))?;
    inverts(&rt, 3, Some(21846))?;
    inverts(&rt, 65535, Some(32768))
}

#[test]
fn numbers_in_decimal(rt: HostRuntime) {
    is_number(&rt, b"0", Some(0));
    is_number(&rt, b"4294967295", Some(4294967295));
    is_number(&rt, b"4294967296", None);
    is_number(&rt, b"", None);
    is_number(&rt, b"07", None);
    is_number(&rt, b"+7", None);
    is_number(&rt, b"7 ", None);
}
