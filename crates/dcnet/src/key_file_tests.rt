use crate::in_memory::{call_alone, holds};
use dc_edge::{MemoryShelf, MemorySink};
use dc_field::{Bytes, NoMemory};
use dc_graph::Graph;
use dc_keyfile::{generate, key_bytes};
use std::process::Abort;
use std::test::Fail;
use std::thread::Threads;

/// A manifest of three stations that all share keys, for five rounds.
const TRIANGLE: &[u8] = b"stations = 3
words = 5
edges = [[0, 1], [0, 2], [1, 2]]
keys = \"k.bin\"
streams = [\"a.txt\", \"b.txt\", \"c.txt\"]
";

/// A seed of 32 bytes that are 0.
const ZEROS: &str = "0000000000000000000000000000000000000000000000000000000000000000";

/// The bytes of the file `in`, and the calls of the shelf that fail.
#[derive(Clone, Copy)]
struct Given<'a> {
    file: &'a [u8],
    shelf_fails: &'a [u32],
}

/// How a call is to end, and what the file `out` is to hold then.
#[derive(Clone, Copy)]
struct Due<'a> {
    status: u8,
    err: &'a [u8],
    written: &'a [u8],
}

/// Asserts how a call ends over a shelf that holds the files `in` and `out`.
fn check<R: Threads + Sync + AllocGlobal + Abort>(
    rt: &R,
    words: &[&str],
    given: Given<'_>,
    due: Due<'_>,
) -> Result<(), NoMemory> {
    let alloc = rt.alloc();
    let mut shelf = MemoryShelf::new(alloc, given.shelf_fails)?;
    shelf.hold(alloc, "in", given.file)?;
    shelf.hold(alloc, "out", b"former")?;
    let mut out = MemorySink::new(alloc, 0, &[])?;
    let mut err = MemorySink::new(alloc, 1000, &[])?;
    let status = call_alone(rt, words, &mut shelf, &mut out, &mut err)?;
    assert_eq!(rt; status, due.status);
    assert_eq!(rt; err.bytes(), due.err);
    holds(rt, &mut shelf, "out", due.written);
    Ok(())
}

/// Asserts that a call over a shelf that does not fail writes these bytes.
fn writes<R: Threads + Sync + AllocGlobal + Abort>(
    rt: &R,
    words: &[&str],
    file: &[u8],
    written: &[u8],
) -> Result<(), NoMemory> {
    let given = Given {
        file,
        shelf_fails: &[],
    };
    let due = Due {
        status: 0,
        err: b"",
        written,
    };
    check(rt, words, given, due)
}

/// Asserts that a call ends with a fault line, and that the file `out` stays.
fn refuses<R: Threads + Sync + AllocGlobal + Abort>(
    rt: &R,
    words: &[&str],
    given: Given<'_>,
    status: u8,
    err: &[u8],
) -> Result<(), NoMemory> {
    let due = Due {
        status,
        err,
        written: b"former",
    };
    check(rt, words, given, due)
}

/// The key file that the seed of zeros generates for the triangle.
fn generated<R: AllocGlobal + Abort>(rt: &R) -> Result<Bytes, NoMemory> {
    let graph = Graph::new(rt.alloc(), 3, &[(0, 1), (0, 2), (1, 2)]);
    let graph = graph.ok().expect(rt, "a graph");
    key_bytes(rt.alloc(), &generate(rt.alloc(), &[0; 32], &graph, 5)?)
}

/// The key file of seeds in which each edge of the triangle has the seed of zeros.
fn seeded<R: AllocGlobal>(rt: &R) -> Result<Vec<u8>, NoMemory> {
    let mut file = Vec::from_slice(rt.alloc(), b"DCK\x02\0\x03\0\x05\0\0\0\x03")?;
    for ends in [b"\0\0\0\x01", b"\0\0\0\x02", b"\0\x01\0\x02"] {
        file.extend_from_slice(ends)?;
        file.extend_from_slice(&[0; 32])?;
    }
    Ok(file)
}

#[test]
fn key_files_are_written(rt: HostRuntime) -> Result<(), Fail> {
    let pads = generated(&rt)?;
    let seeds = seeded(&rt)?;
    assert_eq!(&rt; pads.as_slice().len(), 1944);
    assert_eq!(&rt; seeds.len(), 120);
    let keygen = ["keygen", ZEROS, "in", "out"];
    writes(&rt, &keygen, TRIANGLE, pads.as_slice())?;
    writes(
        &rt,
        &["keygen", ZEROS, "in", "out", "--seeds"],
        TRIANGLE,
        &seeds,
    )?;
    writes(&rt, &["migrate", "in", "out"], &seeds, pads.as_slice())?;
    writes(
        &rt,
        &["migrate", "in", "out"],
        pads.as_slice(),
        pads.as_slice(),
    )?;
    Ok(())
}

#[test]
fn key_files_that_are_not_written(rt: HostRuntime) -> Result<(), Fail> {
    let keygen = ["keygen", ZEROS, "in", "out"];
    let mut given = Given {
        file: TRIANGLE,
        shelf_fails: &[0],
    };
    refuses(&rt, &keygen, given, 8, b"dcnet: file fault\n")?;
    given.shelf_fails = &[1];
    refuses(&rt, &keygen, given, 8, b"dcnet: file fault\n")?;
    given.shelf_fails = &[];
    given.file = b"words = 5";
    let fault = b"dcnet: in: malformed: field name=edges\n";
    refuses(&rt, &keygen, given, 5, fault)?;
    refuses(
        &rt,
        &["migrate", "no", "out"],
        given,
        3,
        b"dcnet: no: missing\n",
    )?;
    Ok(())
}

#[test]
fn a_short_key_file_is_malformed(rt: HostRuntime) -> Result<(), Fail> {
    let mut seeds = seeded(&rt)?;
    seeds.truncate(119);
    let given = Given {
        file: &seeds,
        shelf_fails: &[],
    };
    let fault = b"dcnet: in: malformed: truncated at=119 need=120\n";
    refuses(&rt, &["migrate", "in", "out"], given, 5, fault)?;
    Ok(())
}

/// Asserts that words are not a command line.
fn is_usage<R: Threads + Sync + AllocGlobal + Abort>(
    rt: &R,
    words: &[&str],
    err: &[u8],
) -> Result<(), NoMemory> {
    let given = Given {
        file: TRIANGLE,
        shelf_fails: &[],
    };
    refuses(rt, words, given, 2, err)
}

#[test]
fn words_that_are_not_keygen(rt: HostRuntime) -> Result<(), Fail> {
    let short = "000000000000000000000000000000000000000000000000000000000000000";
    let upper = "A000000000000000000000000000000000000000000000000000000000000000";
    is_usage(&rt, &["keygen"], b"dcnet: usage: word 1\n")?;
    is_usage(
        &rt,
        &["keygen", short, "in", "out"],
        b"dcnet: usage: word 1\n",
    )?;
    is_usage(
        &rt,
        &["keygen", upper, "in", "out"],
        b"dcnet: usage: word 1\n",
    )?;
    is_usage(&rt, &["keygen", ZEROS], b"dcnet: usage: word 2\n")?;
    is_usage(
        &rt,
        &["keygen", ZEROS, "in", "-k"],
        b"dcnet: usage: word 3\n",
    )?;
    is_usage(
        &rt,
        &["keygen", ZEROS, "in", "out", "x"],
        b"dcnet: usage: word 4\n",
    )?;
    is_usage(
        &rt,
        &["keygen", ZEROS, "in", "out", "--seeds", "x"],
        b"dcnet: usage: word 5\n",
    )?;
    Ok(())
}

#[test]
fn words_that_are_not_migrate(rt: HostRuntime) -> Result<(), Fail> {
    is_usage(&rt, &["migrate"], b"dcnet: usage: word 1\n")?;
    is_usage(&rt, &["migrate", "in"], b"dcnet: usage: word 2\n")?;
    is_usage(
        &rt,
        &["migrate", "in", "out", "--seeds"],
        b"dcnet: usage: word 3\n",
    )?;
    Ok(())
}
