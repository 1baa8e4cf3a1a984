use crate::in_memory::{call, call_alone};
use dc_edge::{Gate, MemoryShelf, MemorySink, MemoryWire};
use dc_field::NoMemory;
use std::process::Abort;
use std::sync::atomic::{AtomicBool, Ordering};
use std::test::Fail;
use std::thread::Threads;

/// A manifest of one station, for one round.
const ALONE: &str = "stations = 1
words = 1
edges = []
keys = \"k.bin\"
streams = [\"a.txt\"]
";

/// The key file of a net of this number of stations, without pairs, for one word.
fn keys(stations: u8) -> [u8; 12] {
    [b'D', b'C', b'K', 1, 0, stations, 0, 1, 0, 0, 0, 0]
}

/// The view of a station that has nothing to say.
const VIEW: &[u8] = b"view 1
net 1 1
round 0
word 0 00000000000000000000000000000000000000000000000000000000000000000000000000000000
sum 00000000000000000000000000000000000000000000000000000000000000000000000000000000
all
got 0 00000000000000000000000000000000000000000000000000000000000000000000000000000000
";

/// The logs of that station.
const LOGS: &[u8] = b"station 0
pending 0 0
";

/// Asserts how `replay` or `logs` ends over a shelf that holds the manifest, a key file and a stream.
fn check<R: Threads + Sync + AllocGlobal + Abort>(
    rt: &R,
    words: &[&str],
    stations: u8,
    due: u8,
    printed: &[u8],
    told: &[u8],
) -> Result<(), NoMemory> {
    let alloc = rt.alloc();
    let mut shelf = MemoryShelf::new(alloc, &[])?;
    shelf.hold(alloc, "net.toml", ALONE.as_bytes())?;
    shelf.hold(alloc, "k.bin", &keys(stations))?;
    shelf.hold(alloc, "a.txt", b"")?;
    let mut out = MemorySink::new(alloc, 1000, &[])?;
    let mut err = MemorySink::new(alloc, 1000, &[])?;
    let status = call_alone(rt, words, &mut shelf, &mut out, &mut err)?;
    assert_eq!(rt; status, due);
    assert_eq!(rt; out.bytes(), printed);
    assert_eq!(rt; err.bytes(), told);
    Ok(())
}

#[test]
fn views(rt: HostRuntime) -> Result<(), Fail> {
    check(&rt, &["replay", "net.toml"], 1, 0, VIEW, b"")?;
    check(
        &rt,
        &["replay", "net.toml", "--workers", "2"],
        1,
        0,
        VIEW,
        b"",
    )?;
    Ok(())
}

#[test]
fn logs(rt: HostRuntime) -> Result<(), Fail> {
    check(&rt, &["logs", "net.toml"], 1, 0, LOGS, b"")?;
    Ok(())
}

#[test]
fn refusals(rt: HostRuntime) -> Result<(), Fail> {
    let differ = b"dcnet: files disagree: key-stations told=2 net=1\n";
    check(&rt, &["replay", "net.toml"], 2, 6, b"", differ)?;
    let usage = b"dcnet: usage: word 3\n";
    check(
        &rt,
        &["replay", "net.toml", "--workers", "65"],
        1,
        2,
        b"",
        usage,
    )?;
    Ok(())
}

/// A manifest of eight stations, for one round.
const EIGHT: &str = "stations = 8
words = 1
edges = []
keys = \"k.bin\"
streams = [\"a.txt\", \"a.txt\", \"a.txt\", \"a.txt\", \"a.txt\", \"a.txt\", \"a.txt\", \"a.txt\"]
";

/// A gate at which the first and the last of eight pieces wait for each other.
#[derive(Drop)]
struct Meeting {
    first: AtomicBool,
    last: AtomicBool,
    first_saw: AtomicBool,
    last_saw: AtomicBool,
}

impl Gate for Meeting {
    fn pass(&self, piece: usize) {
        if piece == 0 {
            meet(&self.first, &self.last, &self.first_saw);
        }
        if piece == 7 {
            meet(&self.last, &self.first, &self.last_saw);
        }
    }
}

/// Sets a flag and then waits for another one, at most 200,000,000 turns.
fn meet(mine: &AtomicBool, other: &AtomicBool, saw: &AtomicBool) {
    mine.store(true, Ordering::SeqCst);
    for _ in 0..200_000_000u32 {
        if other.load(Ordering::SeqCst) {
            saw.store(true, Ordering::SeqCst);
            return;
        }
    }
}

/// Asserts that a call that computes the words of eight stations is done, with this gate.
fn passes<R: Threads + Sync + AllocGlobal + Abort>(
    rt: &R,
    words: &[&str],
    gate: &Meeting,
) -> Result<(), NoMemory> {
    let alloc = rt.alloc();
    let mut shelf = MemoryShelf::new(alloc, &[])?;
    shelf.hold(alloc, "net.toml", EIGHT.as_bytes())?;
    shelf.hold(alloc, "k.bin", &keys(8))?;
    shelf.hold(alloc, "a.txt", b"")?;
    let mut out = MemorySink::new(alloc, 4000, &[])?;
    let mut err = MemorySink::new(alloc, 1000, &[])?;
    let mut wire = MemoryWire::new(alloc, 0, 1, &[], &[])?;
    let status = call(rt, words, &mut shelf, &mut out, &mut err, &mut wire, gate)?;
    assert_eq!(rt; status, 0);
    Ok(())
}

/// Asserts that two pieces meet in a call.
fn meets<R: Threads + Sync + AllocGlobal + Abort>(rt: &R, words: &[&str]) -> Result<(), NoMemory> {
    let gate = Meeting {
        first: AtomicBool::new(false),
        last: AtomicBool::new(false),
        first_saw: AtomicBool::new(false),
        last_saw: AtomicBool::new(false),
    };
    passes(rt, words, &gate)?;
    assert!(rt; gate.first_saw.load(Ordering::SeqCst));
    assert!(rt; gate.last_saw.load(Ordering::SeqCst));
    Ok(())
}

#[test]
fn two_workers_compute_words_at_once(rt: HostRuntime) -> Result<(), Fail> {
    meets(&rt, &["replay", "net.toml", "--workers", "2"])?;
    meets(&rt, &["trial", "7", "8", "1", "--workers", "2"])?;
    Ok(())
}
