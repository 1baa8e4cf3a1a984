ghost use Rattle.std.specs.Prelude.{◌≤◌};

use crate::answers::done;
use crate::check_tests::{Parts, agreed, checked, net_of};
use dc_edge::{Gate, OpenGate};
use dc_field::{Sym, Value, Word};
use dc_net::{CheckedNet, Played, Streams, run};
use dc_station::{Entry, Pending};
use dc_stream::Stream;
use std::process::Abort;
use std::sync::atomic::{AtomicBool, Ordering};
use std::test::*;
use std::thread::Threads;

/// The value of this number.
fn value<R: Abort>(rt: &R, number: u128) -> Value {
    match Value::of_number(number) {
        Some(value) => value,
        None => panic!(rt; "a value"),
    }
}

/// The word of so many stations whose values have this total, below 65537.
fn group(count: u32, total: u32) -> Option<Word> {
    let mut word = Word::zero();
    word.set(0, Sym::new(count)?);
    word.set(15, Sym::new(total)?);
    Some(word)
}

/// The net of these parts, in which each station that has a stream sends a value.
pub(crate) fn sending<R: AllocGlobal + Abort>(
    rt: &R,
    parts: &Parts,
    values: &[u128],
) -> CheckedNet {
    let mut net = net_of(rt, parts);
    let mut streams = Vec::new(rt.alloc());
    for number in values {
        let stream = done(rt, Stream::empty(rt.alloc()).with_short(value(rt, *number)));
        done(rt, streams.push(Some(stream)));
    }
    net.streams = Streams::from_vec(streams);
    done(rt, checked(rt, net))
}

/// The run of a net, with so many workers.
fn played<R: Threads + Sync + AllocGlobal + Abort, G: Gate + Sync>(
    rt: &R,
    net: &CheckedNet,
    workers: u32,
    gate: &G,
) -> Played
    requires some { 1 ≤ workers }
    requires most { workers ≤ 64 }
{
    done(rt, run(rt, rt.alloc(), net, workers, gate))
}

/// Whether a log has an entry at a place.
fn has_entry<R: Abort>(
    rt: &R,
    played: &Played,
    station: usize,
    at: usize,
    number: u128,
    times: u16,
) -> bool {
    let entry = Entry::Short {
        value: value(rt, number),
        times,
    };
    match played.logs.as_slice().get(station) {
        Some(log) => at < log.len() && log.is_entry(at, &entry),
        None => false,
    }
}

/// Three stations that send 1, 3 and 3, with so many workers: the sums of five rounds, and what each
/// station has at the end.
fn ordinary_session<R: Threads + Sync + AllocGlobal + Abort>(rt: &R, workers: u32)
    requires some { 1 ≤ workers }
    requires most { workers ≤ 64 }
{
    let parts = Parts {
        edges: &[(0, 1), (0, 2), (1, 2)],
        key_edges: &[(0, 1), (0, 2), (1, 2)],
        members: &[],
        key_words: 5,
        script: "dcscript 1\nround 0\nall\nround 1\nall\nround 2\nall\nround 3\nall\nround 4\nall\n",
        words: 5,
        ..agreed()
    };
    let net = sending(rt, &parts, &[1, 3, 3]);
    let played = played(rt, &net, workers, &OpenGate);
    let due = [
        Some(Word::zero()),
        group(3, 7),
        group(1, 1),
        group(2, 6),
        Some(Word::zero()),
    ];
    for (sum, due) in played.sums.as_slice().iter().zip(due.iter()) {
        assert_eq!(rt; Some(*sum.numbers()), due.map(|w| *w.numbers()));
    }
    assert_eq!(rt; played.sums.as_slice().len(), 5);
    assert_eq!(rt; played.words.as_slice().len(), 15);
    assert_eq!(rt; played.delivered.as_slice().len(), 15);
    for station in 0..3 {
        assert!(rt; has_entry(rt, &played, station, 0, 1, 1));
        assert!(rt; has_entry(rt, &played, station, 1, 3, 2));
    }
    let nothing = Pending {
        shorts: 0,
        longs: 0,
    };
    for (sent, pending) in played
        .sents
        .as_slice()
        .iter()
        .zip(played.pending.as_slice().iter())
    {
        assert_eq!(rt; sent.len(), 1);
        assert_eq!(rt; *pending, nothing);
    }
}

#[test]
fn an_ordinary_session(rt: HostRuntime) {
    ordinary_session(&rt, 1);
    ordinary_session(&rt, 2);
}

/// A symbol of a word of a list.
fn symbol(words: &[Word], at: usize, l: usize) -> Option<u32> {
    words.get(at)?.numbers().get(l).copied()
}

#[test]
fn members_say_and_deal_words_by_rules(rt: HostRuntime) {
    let net = done(&rt, checked(&rt, net_of(&rt, &agreed())));
    let played = played(&rt, &net, 1, &OpenGate);
    let words = played.words.as_slice();
    assert!(rt; symbol(words, 2, 0) == symbol(words, 1, 0));
    assert!(rt; symbol(words, 5, 3) == symbol(words, 2, 0));
    let delivered = played.delivered.as_slice();
    let sums = played.sums.as_slice();
    assert_eq!(rt; delivered.len(), 4);
    assert!(rt; symbol(delivered, 0, 7) == symbol(sums, 0, 7));
    assert!(rt; symbol(delivered, 1, 7) == symbol(sums, 0, 7));
    assert!(rt; symbol(delivered, 2, 0) == symbol(words, 5, 0));
    assert!(rt; symbol(delivered, 3, 7) == Some(0));
}

/// A gate at which the first and the last of eight pieces wait for each other.
#[derive(Drop)]
struct Meeting {
    first: AtomicBool,
    last: AtomicBool,
    first_saw: AtomicBool,
    last_saw: AtomicBool,
}

impl Gate for Meeting {
    fn pass(&self, piece: usize) {
        if piece == 0 {
            meet(&self.first, &self.last, &self.first_saw);
        }
        if piece == 7 {
            meet(&self.last, &self.first, &self.last_saw);
        }
    }
}

/// Sets a flag and then waits for another one, at most 200,000,000 turns.
fn meet(mine: &AtomicBool, other: &AtomicBool, saw: &AtomicBool) {
    mine.store(true, Ordering::SeqCst);
    for _ in 0..200_000_000u32 {
        if other.load(Ordering::SeqCst) {
            saw.store(true, Ordering::SeqCst);
            return;
        }
    }
}

#[test]
fn two_stations_compute_their_words_at_once(rt: HostRuntime) {
    let parts = Parts {
        stations: 8,
        edges: &[(0, 7)],
        key_stations: 8,
        key_edges: &[(0, 7)],
        members: &[],
        key_words: 1,
        script: "dcscript 1\nround 0\nall\n",
        words: 1,
        ..agreed()
    };
    let net = sending(&rt, &parts, &[0, 1, 2, 3, 4, 5, 6, 7]);
    let gate = Meeting {
        first: AtomicBool::new(false),
        last: AtomicBool::new(false),
        first_saw: AtomicBool::new(false),
        last_saw: AtomicBool::new(false),
    };
    let played = played(&rt, &net, 2, &gate);
    assert_eq!(rt; played.words.as_slice().len(), 8);
    assert!(rt; gate.first_saw.load(Ordering::SeqCst));
    assert!(rt; gate.last_saw.load(Ordering::SeqCst));
}
