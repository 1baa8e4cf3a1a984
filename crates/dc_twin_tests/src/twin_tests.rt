//! Nets and their twins.

use crate::answers::done;
use crate::nets::{Parts, images, net_of, played, spelled};
use dc_edge::MemorySink;
use dc_field::{Sym, Word};
use dc_keyfile::key_bytes;
use dc_keys::KeyFile;
use dc_net::CheckedNet;
use dc_twin::{Twinned, demands, put_shifts, twin};
use dc_view::put_view;
use std::process::Abort;
use std::test::*;
use std::thread::Threads;

/// A ring of four stations, of which the last is the coalition. Two stations that are no neighbours
/// send a value each.
const RING: Parts = Parts {
    stations: 4,
    edges: &[(0, 1), (0, 3), (1, 2), (2, 3)],
    members: &[3],
    words: 4,
    pad: (0, 0),
    streams: &[
        Some("short 000000000000000000000000000005\n"),
        Some(""),
        Some("short 000000000000000000000000000009\n"),
        None,
    ],
    script: None,
};

/// The word with these numbers in its first and its last symbol, and zeros between them.
fn ends<R: Abort>(rt: &R, first: u32, last: u32) -> Word {
    let mut word = Word::zero();
    match (Sym::new(first), Sym::new(last)) {
        (Some(first), Some(last)) => {
            word.set(0, first);
            word.set(15, last);
        }
        _ => panic!(rt; "symbols"),
    }
    word
}

/// A sink of 65536 bytes.
fn sink<R: AllocGlobal + Abort>(rt: &R) -> MemorySink {
    done(rt, MemorySink::new(rt.alloc(), 65536, &[]))
}

/// Asserts that the shifts are printed as this text, in which Z stands for seventy zeros.
fn prints<R: AllocGlobal + Abort>(rt: &R, twinned: &Twinned, text: &str) {
    let mut out = sink(rt);
    assert!(rt; put_shifts(twinned, &mut out).is_ok());
    assert!(rt; out.bytes() == spelled(rt, text).as_slice());
}

/// Asserts that two key files have the same bytes.
fn are_same<R: AllocGlobal + Abort>(rt: &R, keys: &KeyFile, others: &KeyFile) {
    let bytes = done(rt, key_bytes(rt.alloc(), keys));
    let other_bytes = done(rt, key_bytes(rt.alloc(), others));
    assert!(rt; bytes.as_slice() == other_bytes.as_slice());
}

/// The sink with the view of the run of a net.
fn viewed<R: Threads + Sync + AllocGlobal + Abort>(rt: &R, net: &CheckedNet) -> MemorySink {
    let mut out = sink(rt);
    assert!(rt; put_view(net, &played(rt, net), &mut out).is_ok());
    out
}

/// Asserts that the first pads of a pair are zeros but at these places.
fn has_pads<R: Abort>(rt: &R, keys: &KeyFile, pair: usize, due: &[(usize, u32)]) {
    match keys.pairs.as_slice().get(pair) {
        Some(pair) => {
            for (n, x) in pair.a.as_slice().iter().enumerate() {
                let expected = match due.iter().find(|place| place.0 == n) {
                    Some(place) => place.1,
                    None => 0,
                };
                assert_eq!(rt; *x, expected, "{n}");
            }
        }
        None => panic!(rt; "a pair"),
    }
}

/// The twin of a net by a permutation that is its own inverse: the shifts as printed; the view of the
/// twin is that of the net; the twin of the twin has the keys of the net.
fn there_and_back<R: Threads + Sync + AllocGlobal + Abort>(
    rt: &R,
    net: &CheckedNet,
    perm: &[u16],
    text: &str,
) {
    let perm = images(rt, perm);
    let there = done(rt, twin(rt.alloc(), net, &played(rt, net), &perm));
    prints(rt, &there, text);
    let changed = done(rt, net.changed(rt.alloc(), there.keys, &perm));
    assert!(rt; viewed(rt, &changed).bytes() == viewed(rt, net).bytes());
    let back = done(rt, twin(rt.alloc(), &changed, &played(rt, &changed), &perm));
    are_same(rt, &back.keys, &net.net().keys);
}

#[test]
fn two_values_are_swapped_in_a_ring(rt: HostRuntime) {
    let text = "shift 0 1 1 00000Z0fffd\nshift 0 1 2 00001Z00005\n\
shift 1 2 1 00000Z0fffd\nshift 1 2 2 00001Z00005\n";
    there_and_back(&rt, &net_of(&rt, &RING), &[2, 1, 0, 3], text);
}

#[test]
fn a_ring_stays_as_it_is(rt: HostRuntime) {
    let net = net_of(&rt, &RING);
    let run = played(&rt, &net);
    let twinned = done(
        &rt,
        twin(rt.alloc(), &net, &run, &images(&rt, &[0, 1, 2, 3])),
    );
    prints(&rt, &twinned, "");
    are_same(&rt, &twinned.keys, &net.net().keys);
}

#[test]
fn demands_and_pads_of_a_ring(rt: HostRuntime) {
    let net = net_of(&rt, &RING);
    let run = played(&rt, &net);
    let perm = images(&rt, &[2, 1, 0, 3]);
    let twinned = done(&rt, twin(rt.alloc(), &net, &run, &perm));
    let changes = [(31, 65533), (32, 1), (47, 5)];
    has_pads(&rt, &twinned.keys, 0, &changes);
    has_pads(&rt, &twinned.keys, 1, &[]);
    has_pads(&rt, &twinned.keys, 2, &changes);
    has_pads(&rt, &twinned.keys, 3, &[]);
    let demands = done(&rt, demands(rt.alloc(), &net, &run, &perm));
    assert_eq!(rt; demands.as_slice().len(), 16);
    for (k, word) in demands.as_slice().iter().enumerate() {
        let due = match k {
            4 => ends(&rt, 0, 65533),
            6 => ends(&rt, 0, 4),
            8 => ends(&rt, 1, 5),
            10 => ends(&rt, 65536, 65532),
            _ => Word::zero(),
        };
        assert_eq!(rt; *word.numbers(), *due.numbers());
    }
}

/// Two honest stations, and a member that takes a symbol of an honest word off the sum.
const TAKEN_OFF: Parts = Parts {
    stations: 3,
    edges: &[(0, 1)],
    members: &[2],
    words: 2,
    pad: (15, 7),
    streams: &[
        Some("short 000000000000000000000000000005\n"),
        Some(""),
        None,
    ],
    script: Some(
        "dcscript 2\nround 0\nsay 2 00000Z00000\nadd 15 10000 0 0 15\nall\n\
round 1\nsay 2 00000Z00000\nall\n",
    ),
};

#[test]
fn a_member_speaks_by_a_rule(rt: HostRuntime) {
    let net = net_of(&rt, &TAKEN_OFF);
    there_and_back(&rt, &net, &[1, 0, 2], "shift 0 1 1 00001Z00005\n");
    let run = played(&rt, &net);
    let due = [(0, 7), (0, 65530), (0, 65530)];
    for (word, due) in run.words.as_slice().iter().zip(due.iter()) {
        assert_eq!(rt; *word.numbers(), *ends(&rt, due.0, due.1).numbers());
    }
    for (sum, due) in run.sums.as_slice().iter().zip([(0, 65530), (1, 5)].iter()) {
        assert_eq!(rt; *sum.numbers(), *ends(&rt, due.0, due.1).numbers());
    }
}
