ghost use Rattle.std.specs.Prelude.{◌≡◌};

use dc_cli::{dcnet, status};
use dc_edge::{Gate, MemoryShelf, MemorySink, MemoryWire, OpenGate, Shelf};
use dc_field::NoMemory;
use std::process::Abort;
use std::thread::Threads;

/// A command line, the files that the shelf holds beside `o.bin`, and the numbers of the calls that fail.
#[derive(Clone, Copy)]
pub struct Given<'a> {
    pub words: &'a [&'a str],
    pub files: &'a [(&'a str, &'a [u8])],
    pub shelf_fails: &'a [u32],
    pub out_fails: &'a [u32],
}

/// How the call is to end, and what `o.bin` is to hold then.
#[derive(Clone, Copy)]
pub struct Due<'a> {
    pub status: u8,
    pub out: &'a [u8],
    pub err: &'a [u8],
    pub written: &'a [u8],
}

/// What `o.bin` holds before each call.
pub const FORMER: &[u8] = b"former";

/// Asserts how a call over objects in memory ends.
pub fn check<R: Threads + Sync + AllocGlobal + Abort>(
    rt: &R,
    given: Given<'_>,
    due: Due<'_>,
) -> Result<(), NoMemory> {
    let alloc = rt.alloc();
    let mut shelf = MemoryShelf::new(alloc, given.shelf_fails)?;
    for (name, bytes) in given.files {
        shelf.hold(alloc, name, bytes)?;
    }
    shelf.hold(alloc, "o.bin", FORMER)?;
    let mut out = MemorySink::new(alloc, 40000, given.out_fails)?;
    let mut err = MemorySink::new(alloc, 1000, &[])?;
    let status = call_alone(rt, given.words, &mut shelf, &mut out, &mut err)?;
    assert_eq!(rt; status, due.status);
    assert_eq!(rt; out.bytes(), due.out);
    assert_eq!(rt; err.bytes(), due.err);
    holds(rt, &mut shelf, "o.bin", due.written);
    Ok(())
}

/// The status with which a call over objects in memory ends.
pub fn call<R: Threads + Sync + AllocGlobal + Abort, G: Gate + Sync>(
    rt: &R,
    words: &[&str],
    shelf: &mut MemoryShelf,
    out: &mut MemorySink,
    err: &mut MemorySink,
    wire: &mut MemoryWire,
    gate: &G,
) -> Result<u8, NoMemory>
    requires { wire.old.peers ≡ 0 }
{
    let line = line_of(rt, words)?;
    let outcome = dcnet(rt, rt.alloc(), &line, shelf, out, err, wire, gate);
    Ok(status(&outcome))
}

/// A command line with these words.
fn line_of<R: AllocGlobal>(rt: &R, words: &[&str]) -> Result<Vec<String>, NoMemory> {
    let mut line = Vec::new(rt.alloc());
    for word in words {
        line.push(String::from_str(rt.alloc(), word)?)?;
    }
    Ok(line)
}

/// As `call`, with a wire that has no peer and a gate that lets all pass.
pub fn call_alone<R: Threads + Sync + AllocGlobal + Abort>(
    rt: &R,
    words: &[&str],
    shelf: &mut MemoryShelf,
    out: &mut MemorySink,
    err: &mut MemorySink,
) -> Result<u8, NoMemory> {
    let mut wire = MemoryWire::new(rt.alloc(), 0, 1, &[], &[])?;
    call(rt, words, shelf, out, err, &mut wire, &OpenGate)
}

/// Asserts what a file of the shelf holds.
pub fn holds<R: AllocGlobal + Abort>(rt: &R, shelf: &mut MemoryShelf, name: &str, due: &[u8]) {
    match shelf.read(rt.alloc(), name, 100000) {
        Ok(bytes) => assert_eq!(rt; bytes.as_slice(), due),
        Err(_) => assert!(rt; false),
    }
}

/// Asserts that a call is done: this is printed, and `o.bin` holds these bytes.
pub fn done<R: Threads + Sync + AllocGlobal + Abort>(
    rt: &R,
    words: &[&str],
    files: &[(&str, &[u8])],
    out: &[u8],
    written: &[u8],
) -> Result<(), NoMemory> {
    let given = Given {
        words,
        files,
        shelf_fails: &[],
        out_fails: &[],
    };
    let due = Due {
        status: 0,
        out,
        err: b"",
        written,
    };
    check(rt, given, due)
}

/// Asserts that a call ends with a status and a fault line, prints nothing and leaves `o.bin`.
pub fn refuses<R: Threads + Sync + AllocGlobal + Abort>(
    rt: &R,
    words: &[&str],
    files: &[(&str, &[u8])],
    status: u8,
    err: &[u8],
) -> Result<(), NoMemory> {
    let given = Given {
        words,
        files,
        shelf_fails: &[],
        out_fails: &[],
    };
    let due = Due {
        status,
        out: b"",
        err,
        written: FORMER,
    };
    check(rt, given, due)
}

/// The first calls, each alone.
const EACH_CALL: [&[u32]; 7] = [&[0], &[1], &[2], &[3], &[4], &[5], &[6]];

/// Asserts that a command, each of whose first calls of the shelf fails in turn, up to seven, ends with the
/// fault of a file, prints nothing and leaves `o.bin`.
pub fn files_fail<'a, R: Threads + Sync + AllocGlobal + Abort>(
    rt: &R,
    words: &'a [&'a str],
    files: &'a [(&'a str, &'a [u8])],
    calls: usize,
) -> Result<(), NoMemory> {
    for call in 0..calls.min(EACH_CALL.len()) {
        let given = Given {
            words,
            files,
            shelf_fails: EACH_CALL[call],
            out_fails: &[],
        };
        let due = Due {
            status: 8,
            out: b"",
            err: b"dcnet: file fault\n",
            written: FORMER,
        };
        check(rt, given, due)?;
    }
    Ok(())
}

/// Asserts that a command whose first put to the output fails ends with the fault of the output, and
/// what `o.bin` holds then.
pub fn output_fails<R: Threads + Sync + AllocGlobal + Abort>(
    rt: &R,
    words: &[&str],
    files: &[(&str, &[u8])],
    written: &[u8],
) -> Result<(), NoMemory> {
    let given = Given {
        words,
        files,
        shelf_fails: &[],
        out_fails: &[0],
    };
    let due = Due {
        status: 9,
        out: b"",
        err: b"dcnet: output fault\n",
        written,
    };
    check(rt, given, due)
}

/// A pad that is not 0: the place of its pair, its number (the second pads come after the first ones), and its value.
type Pad = (usize, usize, u32);

/// A key file with these pairs, in which all pads are 0 but these.
pub fn key_file<R: AllocGlobal>(
    rt: &R,
    stations: u8,
    words: u8,
    pairs: &[(u8, u8)],
    pads: &[Pad],
) -> Result<Vec<u8>, NoMemory> {
    let count = u8::try_from(pairs.len()).unwrap_or(0);
    let mut file = Vec::from_slice(rt.alloc(), b"DCK\x01\0")?;
    for byte in [stations, 0, words, 0, 0, 0, count] {
        file.push(byte)?;
    }
    for (place, (u, v)) in pairs.iter().enumerate() {
        for byte in [0, *u, 0, *v] {
            file.push(byte)?;
        }
        push_pads(&mut file, place, words, pads)?;
    }
    Ok(file)
}

/// Pushes the first and second pads of a pair.
fn push_pads(file: &mut Vec<u8>, place: usize, words: u8, pads: &[Pad]) -> Result<(), NoMemory> {
    for n in 0..32 * usize::from(words) {
        file.extend_from_slice(&pad_of(pads, place, n).to_be_bytes())?;
    }
    Ok(())
}

/// The pad of a number of a pair.
fn pad_of(pads: &[Pad], place: usize, n: usize) -> u32 {
    for (of, number, value) in pads {
        if *of == place && *number == n {
            return *value;
        }
    }
    0
}
