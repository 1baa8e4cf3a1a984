//! The sessions of a line: of a station, and of a hub.

ghost use Rattle.std.specs.Prelude.{◌≡◌};

use crate::fields::{bytes_of, push_bytes, push_field};
use crate::outside::{Limits, push_sent, wire_of};
use dc_cli::{dcnet, status};
use dc_edge::{MemoryShelf, MemorySink, MemoryWire, OpenGate, Shelf};
use std::alloc::Global;
use std::thread::Threads;

/// How many bytes the output and the faults have room for.
const ROOM: u32 = 1000000;

/// How the session of a line ended. There is no answer where the line is malformed or memory ran out.
pub fn answer<R: Threads + Sync + AllocGlobal>(rt: &R, line: &str) -> Option<String> {
    let fields: Vec<&str> = line.split(' ').collect(rt.alloc()).ok()?;
    match fields.as_slice() {
        [verb, rest @ ..] => match *verb {
            "station" => station(rt, rest),
            "hub" => hub(rt, rest),
            _ => None,
        },
        _ => None,
    }
}

/// Plays a station: the status, the fault line, what its peer was sent, what was printed.
fn station<R: Threads + Sync + AllocGlobal>(rt: &R, fields: &[&str]) -> Option<String> {
    let [id, keys, stream, peer, step, fails, room] = fields else {
        return None;
    };
    let alloc = rt.alloc();
    let mut shelf = MemoryShelf::new(alloc, &[]).ok()?;
    shelf
        .hold(alloc, "k.bin", bytes_of(alloc, keys)?.as_slice())
        .ok()?;
    shelf
        .hold(alloc, "s.txt", bytes_of(alloc, stream)?.as_slice())
        .ok()?;
    let limits = Limits {
        step,
        order: "-",
        fails,
        room,
    };
    let mut wire = wire_of(alloc, limits, &[*peer])?;
    let words = ["station", "x", *id, "k.bin", "s.txt"];
    play(rt, &words, &mut shelf, &mut wire, 1)
}

/// Plays a hub: the status, the fault line, what each peer was sent, what was printed, what was written.
fn hub<R: Threads + Sync + AllocGlobal>(rt: &R, fields: &[&str]) -> Option<String> {
    let [stations, words, step, order, fails, room, peers @ ..] = fields else {
        return None;
    };
    let alloc = rt.alloc();
    let mut shelf = MemoryShelf::new(alloc, &[]).ok()?;
    let limits = Limits {
        step,
        order,
        fails,
        room,
    };
    let mut wire = wire_of(alloc, limits, peers)?;
    let words = ["hub", "x", *stations, *words, "o.bin"];
    let count = u32::try_from(peers.len()).ok()?;
    let mut answer = play(rt, &words, &mut shelf, &mut wire, count)?;
    match shelf.read(alloc, "o.bin", u64::from(ROOM)) {
        Ok(written) => push_bytes(alloc, &mut answer, written.as_slice())?,
        Err(_) => push_field(&mut answer, "")?,
    }
    Some(answer)
}

/// Runs the command line over the shelf and the wire.
fn play<R: Threads + Sync + AllocGlobal>(
    rt: &R,
    words: &[&str],
    shelf: &mut MemoryShelf,
    wire: &mut MemoryWire,
    peers: u32,
) -> Option<String>
    requires { wire.old.peers ≡ 0 }
{
    let alloc = rt.alloc();
    let words = line_of(alloc, words)?;
    let mut out = MemorySink::new(alloc, ROOM, &[]).ok()?;
    let mut err = MemorySink::new(alloc, ROOM, &[]).ok()?;
    let outcome = dcnet(
        rt, alloc, &words, shelf, &mut out, &mut err, wire, &OpenGate,
    );
    let mut answer = format!(in alloc; "{}", status(&outcome)).ok()?;
    let line = std::str::from_utf8(err.bytes()).ok()?;
    push_field(&mut answer, line.trim_end_matches('\n'))?;
    push_sent(alloc, &mut answer, wire, peers)?;
    push_bytes(alloc, &mut answer, out.bytes())?;
    Some(answer)
}

/// The words as a command line.
fn line_of(alloc: Global, words: &[&str]) -> Option<Vec<String>> {
    let mut line = Vec::new(alloc);
    for word in words {
        line.push(String::from_str(alloc, word).ok()?).ok()?;
    }
    Some(line)
}
