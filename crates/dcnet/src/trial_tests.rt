use crate::in_memory::call_alone;
use dc_edge::{MemoryShelf, MemorySink};
use dc_field::NoMemory;
use std::process::Abort;
use std::test::Fail;
use std::thread::Threads;

/// Asserts how a call ends over an empty shelf and an output of this room.
fn check<R: Threads + Sync + AllocGlobal + Abort>(
    rt: &R,
    words: &[&str],
    room: u32,
    due: u8,
    printed: &[u8],
    told: &[u8],
) -> Result<(), NoMemory> {
    let alloc = rt.alloc();
    let mut shelf = MemoryShelf::new(alloc, &[])?;
    let mut out = MemorySink::new(alloc, room, &[])?;
    let mut err = MemorySink::new(alloc, 1000, &[])?;
    let status = call_alone(rt, words, &mut shelf, &mut out, &mut err)?;
    assert_eq!(rt; status, due);
    assert_eq!(rt; out.bytes(), printed);
    assert_eq!(rt; err.bytes(), told);
    Ok(())
}

/// The summary of a trial of 16 stations.
const SIXTEEN: &[u8] = b"trial 3 16 64
short 32
long 1
pending 0 0
sum 0006402a9f02e5602a65037a0029890319902dbb0364702dbb0376602c2b02e500362f0301803587
";

/// The summary of a trial of 17 stations, two of which have a message.
const SEVENTEEN: &[u8] = b"trial 4 17 64
short 34
long 2
pending 0 0
sum 0007202e4902eb8040fe03096036d10380003c6e0327a0339503a810399c03d120384f0351503a2c
";

#[test]
fn a_summary_is_the_same_for_each_number_of_workers(rt: HostRuntime) -> Result<(), Fail> {
    let words = ["trial", "3", "16", "64", "--workers", "1"];
    check(&rt, &words, 1000, 0, SIXTEEN, b"")?;
    let words = ["trial", "3", "16", "64", "--workers", "8"];
    check(&rt, &words, 1000, 0, SIXTEEN, b"")?;
    Ok(())
}

#[test]
fn all_stations_send_all(rt: HostRuntime) -> Result<(), Fail> {
    check(&rt, &["trial", "4", "17", "64"], 1000, 0, SEVENTEEN, b"")?;
    Ok(())
}

#[test]
fn an_output_without_room(rt: HostRuntime) -> Result<(), Fail> {
    let told = b"dcnet: output fault\n";
    check(&rt, &["trial", "0", "1", "1"], 9, 9, b"trial 0 1", told)?;
    Ok(())
}

/// Asserts that words are not a command line.
fn is_usage<R: Threads + Sync + AllocGlobal + Abort>(
    rt: &R,
    words: &[&str],
    told: &[u8],
) -> Result<(), NoMemory> {
    check(rt, words, 1000, 2, b"", told)
}

#[test]
fn words_that_are_not_a_trial(rt: HostRuntime) -> Result<(), Fail> {
    is_usage(&rt, &["trial"], b"dcnet: usage: word 1\n")?;
    is_usage(&rt, &["trial", "x", "1", "1"], b"dcnet: usage: word 1\n")?;
    let above = ["trial", "4294967296", "1", "1"];
    is_usage(&rt, &above, b"dcnet: usage: word 1\n")?;
    is_usage(&rt, &["trial", "7", "0", "5"], b"dcnet: usage: word 2\n")?;
    is_usage(&rt, &["trial", "7", "257", "5"], b"dcnet: usage: word 2\n")?;
    is_usage(&rt, &["trial", "7", "256"], b"dcnet: usage: word 3\n")?;
    is_usage(
        &rt,
        &["trial", "7", "256", "2049"],
        b"dcnet: usage: word 3\n",
    )?;
    is_usage(&rt, &["trial", "7", "1", "4097"], b"dcnet: usage: word 3\n")?;
    is_usage(
        &rt,
        &["trial", "7", "1", "1", "1"],
        b"dcnet: usage: word 4\n",
    )?;
    let lost = ["trial", "7", "1", "1", "--workers"];
    is_usage(&rt, &lost, b"dcnet: usage: word 5\n")?;
    let more = ["trial", "7", "1", "1", "--workers", "1", "1"];
    is_usage(&rt, &more, b"dcnet: usage: word 6\n")?;
    Ok(())
}
