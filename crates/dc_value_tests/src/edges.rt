//! The objects of the outside in memory, and a reader in memory.

use dc_edge::{Failed, MemoryShelf, MemorySink, Shelf, ShelfFault, Sink, WriteFault, read_rest};
use std::process::Abort;
use std::test::Fail;

/// Asserts the answer of a put, and all that was written by then.
fn puts<R: Abort>(
    rt: &R,
    sink: &mut MemorySink,
    piece: &[u8],
    answer: Result<(), Failed>,
    written: &[u8],
) {
    assert_eq!(rt; sink.put(piece), answer);
    assert_eq!(rt; sink.bytes(), written);
}

/// Asserts the answer of a read.
pub fn reads<R: AllocGlobal + Abort, F: Shelf>(
    rt: &R,
    shelf: &mut F,
    name: &str,
    limit: u64,
    answer: Result<&[u8], ShelfFault>,
) {
    let read = shelf.read(rt.alloc(), name, limit);
    assert_eq!(rt;
        read.as_ref().map(|bytes| bytes.as_slice()).map_err(|e| *e),
        answer,
        "{name}"
    );
}

#[test]
fn a_sink_takes_what_fits(rt: HostRuntime) -> Result<(), Fail> {
    let mut sink = MemorySink::new(rt.alloc(), 10, &[])?;
    puts(&rt, &mut sink, b"twelve bytes", Err(Failed), b"twelve byt");
    puts(&rt, &mut sink, b"", Ok(()), b"twelve byt");
    puts(&rt, &mut sink, b"!", Err(Failed), b"twelve byt");
    Ok(())
}

#[test]
fn a_sink_fails_at_its_calls(rt: HostRuntime) -> Result<(), Fail> {
    let mut sink = MemorySink::new(rt.alloc(), 10, &[1, 3])?;
    puts(&rt, &mut sink, b"ab", Ok(()), b"ab");
    puts(&rt, &mut sink, b"", Ok(()), b"ab");
    puts(&rt, &mut sink, b"cd", Err(Failed), b"ab");
    puts(&rt, &mut sink, b"", Ok(()), b"ab");
    puts(&rt, &mut sink, b"ef", Ok(()), b"abef");
    puts(&rt, &mut sink, b"gh", Err(Failed), b"abef");
    puts(&rt, &mut sink, b"ij", Ok(()), b"abefij");
    Ok(())
}

#[test]
fn a_shelf_answers_by_name(rt: HostRuntime) -> Result<(), Fail> {
    let mut shelf = MemoryShelf::new(rt.alloc(), &[4])?;
    shelf.hold(rt.alloc(), "a", b"first")?;
    shelf.hold(rt.alloc(), "b", b"other")?;
    shelf.hold(rt.alloc(), "a", b"second")?;
    reads(&rt, &mut shelf, "a", 6, Ok(b"second"));
    reads(&rt, &mut shelf, "b", 9, Ok(b"other"));
    reads(&rt, &mut shelf, "c", 9, Err(ShelfFault::Missing));
    reads(&rt, &mut shelf, "a", 5, Err(ShelfFault::TooLong));
    reads(&rt, &mut shelf, "a", 6, Err(ShelfFault::Failed));
    reads(&rt, &mut shelf, "a", 6, Ok(b"second"));
    Ok(())
}

/// Asserts the answer of a write.
pub fn writes<R: AllocGlobal + Abort, F: Shelf>(
    rt: &R,
    shelf: &mut F,
    name: &str,
    bytes: &[u8],
    answer: Result<(), WriteFault>,
) {
    assert_eq!(rt; shelf.write(rt.alloc(), name, bytes), answer, "{name}");
}

#[test]
fn a_shelf_takes_files(rt: HostRuntime) -> Result<(), Fail> {
    let mut shelf = MemoryShelf::new(rt.alloc(), &[2])?;
    shelf.hold(rt.alloc(), "a", b"first")?;
    writes(&rt, &mut shelf, "a", b"second", Ok(()));
    writes(&rt, &mut shelf, "b", b"other", Ok(()));
    writes(&rt, &mut shelf, "a", b"third", Err(WriteFault::Failed));
    reads(&rt, &mut shelf, "a", 6, Ok(b"second"));
    reads(&rt, &mut shelf, "b", 9, Ok(b"other"));
    Ok(())
}

/// Asserts what is read of bytes that are left.
fn rest_is<R: AllocGlobal + Abort>(
    rt: &R,
    left: &[u8],
    room: usize,
    limit: u64,
    answer: Result<&[u8], ShelfFault>,
) {
    let read = read_rest(left, rt.alloc(), room, limit);
    assert_eq!(rt;
        read.as_ref().map(|bytes| bytes.as_slice()).map_err(|e| *e),
        answer
    );
}

#[test]
fn the_rest_of_a_reader(rt: HostRuntime) {
    rest_is(&rt, b"six by", 7, 6, Ok(b"six by"));
    rest_is(&rt, b"six by", 0, u64::MAX, Ok(b"six by"));
    rest_is(&rt, b"", 0, 0, Ok(b""));
    rest_is(&rt, b"six by", 7, 5, Err(ShelfFault::TooLong));
}
