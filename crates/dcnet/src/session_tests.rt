use crate::in_memory;
use crate::in_memory::{FORMER, holds, key_file};
use dc_edge::{MemoryShelf, MemorySink, MemoryWire, OpenGate};
use dc_field::NoMemory;
use std::process::Abort;
use std::test::Fail;
use std::thread::Threads;

/// What a call left behind.
#[derive(Drop)]
struct Ended {
    status: u8,
    shelf: MemoryShelf,
    out: MemorySink,
    err: MemorySink,
}

/// The numbers of the calls that fail: of the wire, of the shelf, and of the output.
#[derive(Clone, Copy)]
struct Fails<'a> {
    wire: &'a [u32],
    shelf: &'a [u32],
    out: &'a [u32],
}

/// No call fails.
const NONE: Fails<'_> = Fails {
    wire: &[],
    shelf: &[],
    out: &[],
};

/// These calls of the wire fail, and no others.
fn wire_fails(wire: &[u32]) -> Fails<'_> {
    Fails {
        wire,
        shelf: &[],
        out: &[],
    }
}

/// These calls of the shelf fail, and no others.
fn file_fails(shelf: &[u32]) -> Fails<'_> {
    Fails {
        wire: &[],
        shelf,
        out: &[],
    }
}

/// These puts to the output fail, and no others.
fn output_fails(out: &[u32]) -> Fails<'_> {
    Fails {
        wire: &[],
        shelf: &[],
        out,
    }
}

/// A call over objects in memory: the files `k.bin`, `s.txt` and `o.bin`, two peers that give these bytes, the peers in the order in
/// which a hub hears them, and the calls that fail.
fn call<R: Threads + Sync + AllocGlobal + Abort>(
    rt: &R,
    words: &[&str],
    keys: &[u8],
    stream: &[u8],
    first: &[u8],
    second: &[u8],
    order: &[u32],
    fails: Fails<'_>,
) -> Result<Ended, NoMemory> {
    let alloc = rt.alloc();
    let mut shelf = MemoryShelf::new(alloc, fails.shelf)?;
    shelf.hold(alloc, "k.bin", keys)?;
    shelf.hold(alloc, "s.txt", stream)?;
    shelf.hold(alloc, "o.bin", FORMER)?;
    let mut out = MemorySink::new(alloc, 1000, fails.out)?;
    let mut err = MemorySink::new(alloc, 1000, &[])?;
    let mut wire = MemoryWire::new(alloc, 1000, 69, order, fails.wire)?;
    wire.feed_peer(alloc, first)?;
    wire.feed_peer(alloc, second)?;
    let status = in_memory::call(
        rt, words, &mut shelf, &mut out, &mut err, &mut wire, &OpenGate,
    )?;
    Ok(Ended {
        status,
        shelf,
        out,
        err,
    })
}

/// Asserts how a call ended, what it printed, and what `o.bin` holds.
fn ends<R: AllocGlobal + Abort>(
    rt: &R,
    ended: Ended,
    status: u8,
    out: &[u8],
    err: &[u8],
    written: &[u8],
) {
    let mut ended = ended;
    assert_eq!(rt; ended.status, status);
    assert_eq!(rt; ended.out.bytes(), out);
    assert_eq!(rt; ended.err.bytes(), err);
    holds(rt, &mut ended.shelf, "o.bin", written);
}

/// Appends the frame of a tag for a round, whose word has this first and this last symbol and zeros between.
fn push_word(bytes: &mut Vec<u8>, tag: u8, round: u8, first: u8, last: u8) -> Result<(), NoMemory> {
    bytes.extend_from_slice(&[tag, 0, 66, 0, round, 0, 0, 0, first])?;
    bytes.extend_from_slice(&[0; 56])?;
    bytes.extend_from_slice(&[0, 0, 0, last])?;
    Ok(())
}

/// The bytes of a peer of a hub: its hello, and what follows it.
fn peer<R: AllocGlobal>(rt: &R, station: u8, stations: u8, words: u8) -> Result<Vec<u8>, NoMemory> {
    Ok(Vec::from_slice(rt.alloc(), &[1, 0, 6, 0, station, 0, stations, 0, words])?)
}

/// The transcript of one station and one word, whose first symbol is 1 and whose last one is 2.
const KEPT: &[u8; 72] =
    b"DCT1\0\x01\0\x01\0\0\0\x01\0\0\0\0\0\0\0\0\0\0\0\0\0\0\0\0\0\0\0\0\0\0\0\0\
\0\0\0\0\0\0\0\0\0\0\0\0\0\0\0\0\0\0\0\0\0\0\0\0\0\0\0\0\0\0\0\0\0\0\0\x02";

/// The printed word.
const SUM: &[u8] =
    b"00001000000000000000000000000000000000000000000000000000000000000000000000000002\n";

/// A hub of one station and one word over one peer, where these calls fail.
fn hub_of_one<R: Threads + Sync + AllocGlobal + Abort>(
    rt: &R,
    bytes: &[u8],
    fails: Fails<'_>,
) -> Result<Ended, NoMemory> {
    call(
        rt,
        &["hub", "x", "1", "1", "o.bin"],
        b"",
        b"",
        bytes,
        b"",
        &[],
        fails,
    )
}

/// Asserts that a hub of one station and one word refuses what follows the hello of its peer.
fn hub_refuses<R: Threads + Sync + AllocGlobal + Abort>(
    rt: &R,
    rest: &[u8],
    err: &[u8],
) -> Result<(), NoMemory> {
    let mut bytes = peer(rt, 0, 1, 1)?;
    bytes.extend_from_slice(rest)?;
    let ended = hub_of_one(rt, &bytes, NONE)?;
    ends(rt, ended, 11, b"", err, FORMER);
    Ok(())
}

#[test]
fn hub_of_one_station(rt: HostRuntime) -> Result<(), Fail> {
    let mut bytes = peer(&rt, 0, 1, 1)?;
    push_word(&mut bytes, 2, 0, 1, 2)?;
    let ended = hub_of_one(&rt, &bytes, NONE)?;
    ends(&rt, ended, 0, SUM, b"", KEPT);
    Ok(())
}

/// How many calls of the wire a hub of one station and one word makes: it listens, accepts, receives the hello's header and body and
/// the word's, and sends the sum.
const HUB_CALLS: u32 = 7;

#[test]
fn hub_wire_fails(rt: HostRuntime) -> Result<(), Fail> {
    let mut bytes = peer(&rt, 0, 1, 1)?;
    push_word(&mut bytes, 2, 0, 1, 2)?;
    for number in 0..HUB_CALLS {
        let ended = hub_of_one(&rt, &bytes, wire_fails(&[number]))?;
        ends(&rt, ended, 10, b"", b"dcnet: wire fault\n", FORMER);
    }
    let ended = hub_of_one(&rt, &bytes, wire_fails(&[HUB_CALLS]))?;
    ends(&rt, ended, 0, SUM, b"", KEPT);
    Ok(())
}

#[test]
fn hub_file_or_output_fails(rt: HostRuntime) -> Result<(), Fail> {
    let mut bytes = peer(&rt, 0, 1, 1)?;
    push_word(&mut bytes, 2, 0, 1, 2)?;
    let ended = hub_of_one(&rt, &bytes, file_fails(&[0]))?;
    ends(&rt, ended, 8, b"", b"dcnet: file fault\n", FORMER);
    let ended = hub_of_one(&rt, &bytes, output_fails(&[0]))?;
    ends(&rt, ended, 9, b"", b"dcnet: output fault\n", KEPT);
    Ok(())
}

#[test]
fn hub_refuses_other_frames(rt: HostRuntime) -> Result<(), Fail> {
    let mut early = Vec::new(rt.alloc());
    push_word(&mut early, 2, 0, 0, 0)?;
    let ended = hub_of_one(&rt, &early, NONE)?;
    ends(
        &rt,
        ended,
        11,
        b"",
        b"dcnet: peer 0: unexpected tag=2\n",
        FORMER,
    );
    let mut later = Vec::new(rt.alloc());
    push_word(&mut later, 2, 1, 0, 0)?;
    hub_refuses(&rt, &later, b"dcnet: peer 0: round told=1 now=0\n")?;
    Ok(())
}

#[test]
fn hub_refuses_bytes(rt: HostRuntime) -> Result<(), Fail> {
    hub_refuses(&rt, b"\x09\0B", b"dcnet: peer 0: frame at=9 tag seen=9\n")?;
    hub_refuses(
        &rt,
        b"\x02\0A",
        b"dcnet: peer 0: frame at=10 length seen=65\n",
    )?;
    hub_refuses(&rt, b"", b"dcnet: peer 0: ended at=9\n")?;
    let mut large = Vec::from_slice(rt.alloc(), b"\x02\0B\0\0\0\x01\0\x01")?;
    large.extend_from_slice(&[0; 60])?;
    hub_refuses(
        &rt,
        &large,
        b"dcnet: peer 0: frame at=14 symbol seen=65537\n",
    )?;
    Ok(())
}

#[test]
fn hub_refuses_hellos(rt: HostRuntime) -> Result<(), Fail> {
    let other = peer(&rt, 1, 1, 1)?;
    let ended = hub_of_one(&rt, &other, NONE)?;
    ends(
        &rt,
        ended,
        11,
        b"",
        b"dcnet: peer 0: hello station=1 stations=1 words=1\n",
        FORMER,
    );
    let taken = peer(&rt, 0, 2, 1)?;
    let words = ["hub", "x", "2", "1", "o.bin"];
    let ended = call(&rt, &words, b"", b"", &taken, &taken, &[], NONE)?;
    ends(
        &rt,
        ended,
        11,
        b"",
        b"dcnet: peer 1: hello station=0 stations=2 words=1\n",
        FORMER,
    );
    Ok(())
}

#[test]
fn hub_hears_a_peer_again(rt: HostRuntime) -> Result<(), Fail> {
    let mut twice = peer(&rt, 0, 2, 2)?;
    push_word(&mut twice, 2, 0, 0, 0)?;
    push_word(&mut twice, 2, 0, 0, 0)?;
    let mut once = peer(&rt, 1, 2, 2)?;
    push_word(&mut once, 2, 0, 0, 0)?;
    let words = ["hub", "x", "2", "2", "o.bin"];
    let ended = call(&rt, &words, b"", b"", &twice, &once, &[0, 0, 0, 0, 0], NONE)?;
    ends(
        &rt,
        ended,
        11,
        b"",
        b"dcnet: peer 0: round told=0 now=1\n",
        FORMER,
    );
    Ok(())
}

#[test]
fn hub_hears_by_choice(rt: HostRuntime) -> Result<(), Fail> {
    let mut first = peer(&rt, 0, 2, 1)?;
    push_word(&mut first, 2, 1, 0, 0)?;
    let mut second = peer(&rt, 1, 2, 1)?;
    push_word(&mut second, 2, 1, 0, 0)?;
    let words = ["hub", "x", "2", "1", "o.bin"];
    let ended = call(&rt, &words, b"", b"", &first, &second, &[1, 1], NONE)?;
    ends(
        &rt,
        ended,
        11,
        b"",
        b"dcnet: peer 1: round told=1 now=0\n",
        FORMER,
    );
    Ok(())
}

/// Station 0 of two, whose pads are 0 and whose stream is empty, in a session of two words over what the hub gives.
fn station<R: Threads + Sync + AllocGlobal + Abort>(
    rt: &R,
    hub: &[u8],
    fails: Fails<'_>,
) -> Result<Ended, NoMemory> {
    let keys = key_file(rt, 2, 2, &[(0, 1)], &[])?;
    call(
        rt,
        &["station", "x", "0", "k.bin", "s.txt"],
        &keys,
        b"",
        hub,
        b"",
        &[],
        fails,
    )
}

#[test]
fn station_refuses_the_hub(rt: HostRuntime) -> Result<(), Fail> {
    let mut short = Vec::new(rt.alloc());
    push_word(&mut short, 3, 0, 0, 0)?;
    short.extend_from_slice(&[3, 0, 66, 0, 1, 0, 0, 0, 0, 0])?;
    let ended = station(&rt, &short, NONE)?;
    ends(&rt, ended, 11, b"", b"dcnet: peer 0: ended at=79\n", FORMER);
    let hello = peer(&rt, 0, 2, 2)?;
    let ended = station(&rt, &hello, NONE)?;
    ends(
        &rt,
        ended,
        11,
        b"",
        b"dcnet: peer 0: unexpected tag=1\n",
        FORMER,
    );
    let mut later = Vec::new(rt.alloc());
    push_word(&mut later, 3, 1, 0, 0)?;
    let ended = station(&rt, &later, NONE)?;
    ends(
        &rt,
        ended,
        11,
        b"",
        b"dcnet: peer 0: round told=1 now=0\n",
        FORMER,
    );
    Ok(())
}

/// How many calls of the wire the station makes: it dials, sends the hello, and in each of two rounds sends its word and receives the
/// sum's header and body.
const STATION_CALLS: u32 = 8;

#[test]
fn station_wire_fails(rt: HostRuntime) -> Result<(), Fail> {
    let mut hub = Vec::new(rt.alloc());
    push_word(&mut hub, 3, 0, 0, 0)?;
    push_word(&mut hub, 3, 1, 0, 0)?;
    for number in 0..STATION_CALLS {
        let ended = station(&rt, &hub, wire_fails(&[number]))?;
        ends(&rt, ended, 10, b"", b"dcnet: wire fault\n", FORMER);
    }
    let ended = station(&rt, &hub, wire_fails(&[STATION_CALLS]))?;
    ends(&rt, ended, 0, b"station 0\npending 0 0\n", b"", FORMER);
    Ok(())
}

#[test]
fn station_files_or_output_fail(rt: HostRuntime) -> Result<(), Fail> {
    let mut hub = Vec::new(rt.alloc());
    push_word(&mut hub, 3, 0, 0, 0)?;
    push_word(&mut hub, 3, 1, 0, 0)?;
    for number in 0..2 {
        let ended = station(&rt, &hub, file_fails(&[number]))?;
        ends(&rt, ended, 8, b"", b"dcnet: file fault\n", FORMER);
    }
    let ended = station(&rt, &hub, output_fails(&[0]))?;
    ends(&rt, ended, 9, b"", b"dcnet: output fault\n", FORMER);
    Ok(())
}

#[test]
fn no_such_station(rt: HostRuntime) -> Result<(), Fail> {
    let keys = key_file(&rt, 2, 2, &[(0, 1)], &[])?;
    let words = ["station", "x", "2", "k.bin", "s.txt"];
    let fails = wire_fails(&[0]);
    let ended = call(&rt, &words, &keys, b"", b"", b"", &[], fails)?;
    ends(
        &rt,
        ended,
        6,
        b"",
        b"dcnet: files disagree: no-station station=2 stations=2\n",
        FORMER,
    );
    Ok(())
}

/// What station 1 of a triangle logs over the sums of a session in which the values 1, 3 and 3 were sent.
const LOG: &[u8] = b"station 1
log short 1 000000000000000000000000000001
log short 2 000000000000000000000000000003
sent short 000000000000000000000000000003
pending 0 0
";

#[test]
fn station_logs_all(rt: HostRuntime) -> Result<(), Fail> {
    let keys = key_file(&rt, 3, 5, &[(0, 1), (0, 2), (1, 2)], &[])?;
    let mut hub = Vec::new(rt.alloc());
    push_word(&mut hub, 3, 0, 0, 0)?;
    push_word(&mut hub, 3, 1, 3, 7)?;
    push_word(&mut hub, 3, 2, 1, 1)?;
    push_word(&mut hub, 3, 3, 2, 6)?;
    push_word(&mut hub, 3, 4, 0, 0)?;
    let words = ["station", "x", "1", "k.bin", "s.txt"];
    let stream = b"short 000000000000000000000000000003\n";
    let ended = call(&rt, &words, &keys, stream, &hub, b"", &[], NONE)?;
    ends(&rt, ended, 0, LOG, b"", FORMER);
    Ok(())
}
