//! The objects of the outside over the real system.

use crate::edges::{reads, writes};
use dc_edge::{DirShelf, Failed, ShelfFault, Sink, StdSink, WriteFault};
use std::io::{ErrorKind, Write};
use std::process::Abort;
use std::test::Fail;
use std::{env, fs, io, process};

#[test]
fn a_shelf_reads_files(rt: HostRuntime) -> Result<(), Fail> {
    let folder = env::temp_dir(&rt)?;
    let folder = folder.as_path().as_str();
    let id = process::id(rt.process());
    let path = format!(in rt.alloc(); "{folder}/dcnet_shelf_{id}")?;
    let absent = format!(in rt.alloc(); "{folder}/dcnet_absent_{id}")?;
    fs::write(&rt, path.as_str(), b"six by")?;
    let mut shelf = DirShelf::new(rt);
    reads(&rt, &mut shelf, path.as_str(), 6, Ok(b"six by"));
    reads(&rt, &mut shelf, path.as_str(), 5, Err(ShelfFault::TooLong));
    reads(
        &rt,
        &mut shelf,
        absent.as_str(),
        6,
        Err(ShelfFault::Missing),
    );
    reads(&rt, &mut shelf, folder, 1 << 20, Err(ShelfFault::Failed));
    reads(&rt, &mut shelf, "/dev/null", 6, Ok(b""));
    reads(&rt, &mut shelf, "/dev/zero", 6, Err(ShelfFault::TooLong));
    fs::remove_file(&rt, path.as_str())?;
    Ok(())
}

#[test]
fn a_shelf_writes_files(rt: HostRuntime) -> Result<(), Fail> {
    let folder = env::temp_dir(&rt)?;
    let folder = folder.as_path().as_str();
    let id = process::id(rt.process());
    let room = format!(in rt.alloc(); "{folder}/dcnet_room_{id}")?;
    let path = format!(in rt.alloc(); "{room}/k.bin")?;
    fs::create_dir(&rt, room.as_str())?;
    let mut shelf = DirShelf::new(rt);
    writes(&rt, &mut shelf, path.as_str(), b"a long file", Ok(()));
    reads(&rt, &mut shelf, path.as_str(), 20, Ok(b"a long file"));
    writes(&rt, &mut shelf, path.as_str(), b"a file", Ok(()));
    reads(&rt, &mut shelf, path.as_str(), 20, Ok(b"a file"));
    writes(&rt, &mut shelf, room.as_str(), b"", Err(WriteFault::Failed));
    writes(&rt, &mut shelf, "/dev/null", b"", Err(WriteFault::Failed));
    // A folder that still had a file in it could not be removed.
    fs::remove_file(&rt, path.as_str())?;
    fs::remove_dir(&rt, room.as_str())?;
    writes(&rt, &mut shelf, path.as_str(), b"", Err(WriteFault::Failed));
    Ok(())
}

/// A writer that takes nothing.
#[derive(Drop)]
struct Stuck;

impl Write for Stuck {
    fn write(&mut self, _buf: &[u8]) -> io::Result<usize> {
        Ok(0)
    }

    fn flush(&mut self) -> io::Result<()> {
        Ok(())
    }
}

/// A writer that takes all and cannot pass it on.
#[derive(Drop)]
struct Unflushed;

impl Write for Unflushed {
    fn write(&mut self, buf: &[u8]) -> io::Result<usize> {
        Ok(buf.len())
    }

    fn flush(&mut self) -> io::Result<()> {
        Err(ErrorKind::BrokenPipe.into())
    }
}

#[test]
fn a_sink_writes_a_file(rt: HostRuntime) -> Result<(), Fail> {
    let folder = env::temp_dir(&rt)?;
    let folder = folder.as_path().as_str();
    let id = process::id(rt.process());
    let path = format!(in rt.alloc(); "{folder}/dcnet_sink_{id}")?;
    let mut sink = StdSink::new(fs::File::create(&rt, path.as_str())?);
    assert_eq!(rt; sink.put(b"one "), Ok(()));
    assert_eq!(rt; sink.put(b""), Ok(()));
    assert_eq!(rt; sink.put(b"two"), Ok(()));
    let written = fs::read_to_string(&rt, path.as_str())?;
    assert_eq!(rt; written.as_str(), "one two");
    fs::remove_file(&rt, path.as_str())?;
    Ok(())
}

/// Asserts that a piece fails, and that an empty piece does not.
fn fails<R: Abort, W: Write + Drop>(rt: &R, mut sink: StdSink<W>) {
    assert_eq!(rt; sink.put(b"one"), Err(Failed));
    assert_eq!(rt; sink.put(b""), Ok(()));
}

#[test]
fn a_sink_that_cannot_write_fails(rt: HostRuntime) -> Result<(), Fail> {
    fails(&rt, StdSink::new(fs::File::create(&rt, "/dev/full")?));
    fails(&rt, StdSink::new(Stuck));
    fails(&rt, StdSink::new(Unflushed));
    Ok(())
}
