//! Lists and texts, and their copies with ample memory.

use dc_field::{Bytes, Items, NoMemory, Syms, Text, TryClone};
use std::process::Abort;
use std::test::Fail;

/// A list of these bytes.
fn bytes<R: AllocGlobal>(rt: &R, of: &[u8]) -> Result<Bytes, NoMemory> {
    Ok(Bytes::from_vec(Vec::from_slice(rt.alloc(), of)?))
}

/// Asserts the items of a list of lists.
fn are<R: Abort>(rt: &R, lists: &Items<Bytes>, first: &[u8], second: &[u8]) -> Result<(), Fail> {
    match lists.as_slice() {
        [a, b] => {
            assert_eq!(rt; a.as_slice(), first);
            assert_eq!(rt; b.as_slice(), second);
            Ok(())
        }
        _ => Err("another number of items")?,
    }
}

#[test]
fn copies_of_lists(rt: HostRuntime) -> Result<(), Fail> {
    let one = bytes(&rt, &[1, 2])?;
    let two = bytes(&rt, &[3])?.try_clone(rt.alloc())?;
    assert_eq!(rt; one.copy(rt.alloc())?.as_slice(), [1, 2].as_slice());
    let mut items = Vec::new(rt.alloc());
    items.push(one)?;
    items.push(two)?;
    let lists = Items::from_vec(items);
    are(&rt, &lists, &[1, 2], &[3])?;
    are(&rt, &lists.copy_each(rt.alloc())?, &[1, 2], &[3])
}

#[test]
fn lists_and_texts_give_back_what_they_took(rt: HostRuntime) -> Result<(), Fail> {
    let syms = Syms::from_vec(Vec::from_slice(rt.alloc(), &[0, 65536])?);
    assert_eq!(rt; syms.as_slice(), [0, 65536].as_slice());
    assert_eq!(rt; syms.into_vec().as_slice(), [0, 65536].as_slice());
    let text = Text::copy_of(rt.alloc(), "k.bin")?;
    assert_eq!(rt; text.as_str(), "k.bin");
    let text = Text::from_string(text.into_string());
    assert_eq!(rt; text.as_str(), "k.bin");
    Ok(())
}
