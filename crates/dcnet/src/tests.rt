use crate::in_memory::call_alone;
use dc_edge::{MemoryShelf, MemorySink};
use dc_field::NoMemory;
use std::process::Abort;
use std::test::Fail;
use std::thread::Threads;

/// A transcript of two stations and one round, whose words are all 65536 and all 1.
const TRANSCRIPT: &[u8; 136] = b"DCT1\0\x02\0\x01\
    \0\x01\0\0\0\x01\0\0\0\x01\0\0\0\x01\0\0\0\x01\0\0\0\x01\0\0\0\x01\0\0\0\x01\0\0\
    \0\x01\0\0\0\x01\0\0\0\x01\0\0\0\x01\0\0\0\x01\0\0\0\x01\0\0\0\x01\0\0\0\x01\0\0\
    \0\0\0\x01\0\0\0\x01\0\0\0\x01\0\0\0\x01\0\0\0\x01\0\0\0\x01\0\0\0\x01\0\0\0\x01\
    \0\0\0\x01\0\0\0\x01\0\0\0\x01\0\0\0\x01\0\0\0\x01\0\0\0\x01\0\0\0\x01\0\0\0\x01";

/// The printed word of its sum.
const ZEROS: &[u8; 81] =
    b"00000000000000000000000000000000000000000000000000000000000000000000000000000000\n";

/// The objects of a call: the bytes of `t.bin`, and the rooms of both sinks.
#[derive(Clone, Copy)]
struct Given<'a> {
    file: &'a [u8],
    shelf_fails: &'a [u32],
    out_room: u32,
    err_room: u32,
}

/// How a call is to end.
#[derive(Clone, Copy)]
struct Due<'a> {
    status: u8,
    out: &'a [u8],
    err: &'a [u8],
}

/// Asserts how a call over objects in memory ends.
fn check<R: Threads + Sync + AllocGlobal + Abort>(
    rt: &R,
    words: &[&str],
    given: &Given<'_>,
    due: &Due<'_>,
) -> Result<(), NoMemory> {
    let alloc = rt.alloc();
    let mut shelf = MemoryShelf::new(alloc, given.shelf_fails)?;
    shelf.hold(alloc, "t.bin", given.file)?;
    let mut out = MemorySink::new(alloc, given.out_room, &[])?;
    let mut err = MemorySink::new(alloc, given.err_room, &[])?;
    let status = call_alone(rt, words, &mut shelf, &mut out, &mut err)?;
    assert_eq!(rt; status, due.status);
    assert_eq!(rt; out.bytes(), due.out);
    assert_eq!(rt; err.bytes(), due.err);
    Ok(())
}

/// Asserts how `sum t.bin` ends for a file.
fn sums<R: Threads + Sync + AllocGlobal + Abort>(
    rt: &R,
    file: &[u8],
    due: &Due<'_>,
) -> Result<(), NoMemory> {
    let given = Given {
        file,
        shelf_fails: &[],
        out_room: 1000,
        err_room: 1000,
    };
    check(rt, &["sum", "t.bin"], &given, due)
}

/// Asserts that a file is malformed, with this fault line.
fn is_malformed<R: Threads + Sync + AllocGlobal + Abort>(
    rt: &R,
    file: &[u8],
    err: &[u8],
) -> Result<(), NoMemory> {
    let due = Due {
        status: 5,
        out: b"",
        err,
    };
    sums(rt, file, &due)
}

/// Asserts how a command line ends, over a shelf and sinks that do not fail.
fn ends<R: Threads + Sync + AllocGlobal + Abort>(
    rt: &R,
    words: &[&str],
    status: u8,
    err: &[u8],
) -> Result<(), NoMemory> {
    let given = Given {
        file: TRANSCRIPT,
        shelf_fails: &[],
        out_room: 1000,
        err_room: 1000,
    };
    let due = Due {
        status,
        out: b"",
        err,
    };
    check(rt, words, &given, &due)
}

/// The transcript with another last byte of its first symbol.
fn changed<R: AllocGlobal>(rt: &R, byte: u8) -> Result<Vec<u8>, NoMemory> {
    let mut file = Vec::from_slice(rt.alloc(), TRANSCRIPT.as_slice())?;
    if 11 < file.len() {
        file[11] = byte;
    }
    Ok(file)
}

#[test]
fn the_sum_of_a_transcript_is_printed(rt: HostRuntime) -> Result<(), Fail> {
    let due = Due {
        status: 0,
        out: ZEROS,
        err: b"",
    };
    sums(&rt, TRANSCRIPT, &due)?;
    Ok(())
}

#[test]
fn first_faults_of_the_words(rt: HostRuntime) -> Result<(), Fail> {
    is_malformed(
        &rt,
        &changed(&rt, 1)?,
        b"dcnet: t.bin: malformed: symbol at=8 seen=65537\n",
    )?;
    let mut file = changed(&rt, 0)?;
    file.push(7)?;
    is_malformed(&rt, &file, b"dcnet: t.bin: malformed: rest at=136\n")?;
    file.truncate(135);
    is_malformed(
        &rt,
        &file,
        b"dcnet: t.bin: malformed: truncated at=135 need=136\n",
    )?;
    Ok(())
}

#[test]
fn first_faults_of_the_header(rt: HostRuntime) -> Result<(), Fail> {
    is_malformed(
        &rt,
        b"",
        b"dcnet: t.bin: malformed: truncated at=0 need=8\n",
    )?;
    is_malformed(
        &rt,
        b"DCT2\0\x02\0\x01",
        b"dcnet: t.bin: malformed: magic\n",
    )?;
    is_malformed(
        &rt,
        b"DCT1\x01\x01\0\x01",
        b"dcnet: t.bin: malformed: stations seen=257\n",
    )?;
    is_malformed(
        &rt,
        b"DCT1\0\x02\0\0",
        b"dcnet: t.bin: malformed: words seen=0\n",
    )?;
    Ok(())
}

#[test]
fn words_that_are_not_a_command_line(rt: HostRuntime) -> Result<(), Fail> {
    ends(&rt, &[], 2, b"dcnet: usage: word 0\n")?;
    ends(&rt, &["frob"], 2, b"dcnet: usage: word 0\n")?;
    ends(&rt, &["--help"], 2, b"dcnet: usage: word 0\n")?;
    ends(&rt, &["Sum", "t.bin"], 2, b"dcnet: usage: word 0\n")?;
    ends(&rt, &["sum"], 2, b"dcnet: usage: word 1\n")?;
    ends(&rt, &["sum", "-t"], 2, b"dcnet: usage: word 1\n")?;
    ends(&rt, &["sum", ""], 2, b"dcnet: usage: word 1\n")?;
    ends(&rt, &["sum", "-", "b"], 2, b"dcnet: usage: word 1\n")?;
    ends(&rt, &["sum", "a", "b"], 2, b"dcnet: usage: word 2\n")?;
    ends(&rt, &["sum"; 300], 2, b"dcnet: usage: word 2\n")?;
    Ok(())
}

#[test]
fn faults_of_the_outside(rt: HostRuntime) -> Result<(), Fail> {
    ends(&rt, &["sum", "no.bin"], 3, b"dcnet: no.bin: missing\n")?;
    let mut given = Given {
        file: TRANSCRIPT,
        shelf_fails: &[0],
        out_room: 1000,
        err_room: 1000,
    };
    let failed = Due {
        status: 8,
        out: b"",
        err: b"dcnet: file fault\n",
    };
    check(&rt, &["sum", "t.bin"], &given, &failed)?;
    given.shelf_fails = &[];
    given.out_room = 10;
    let full = Due {
        status: 9,
        out: b"0000000000",
        err: b"dcnet: output fault\n",
    };
    check(&rt, &["sum", "t.bin"], &given, &full)?;
    given.err_room = 10;
    let cut = Due {
        status: 2,
        out: b"",
        err: b"dcnet: usa",
    };
    check(&rt, &["sum"], &given, &cut)?;
    Ok(())
}
