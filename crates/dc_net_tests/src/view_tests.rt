//! Printed texts, over sinks in memory.

use crate::answers::done;
use crate::check_tests::{Parts, agreed, checked, net_of, spelled};
use crate::run_tests::sending;
use dc_edge::{MemorySink, OpenGate};
use dc_field::{Word, Words};
use dc_net::{CheckedNet, run};
use dc_station::Station;
use dc_stream::Stream;
use dc_view::{put_logs, put_station, put_view, put_words};
use std::process::Abort;
use std::test::*;
use std::thread::Threads;

/// So many words of zeros.
fn zeros<R: AllocGlobal + Abort>(rt: &R, count: usize) -> Words {
    let mut words = Vec::new(rt.alloc());
    for _ in 0..count {
        done(rt, words.push(Word::zero()));
    }
    Words::from_vec(words)
}

#[test]
fn room_that_ends_within_the_second_piece(rt: HostRuntime) {
    let words = zeros(&rt, 300);
    let mut out = done(&rt, MemorySink::new(rt.alloc(), 81 * 260 + 40, &[]));
    assert!(rt; put_words(&words, &mut out).is_err());
    assert_eq!(rt; out.bytes().len(), 81 * 260 + 40);
    for (i, byte) in out.bytes().iter().enumerate() {
        assert_eq!(rt; *byte, if i % 81 == 80 { b'\n' } else { b'0' });
    }
}

/// A sink of 65536 bytes.
fn sink<R: AllocGlobal + Abort>(rt: &R) -> MemorySink {
    done(rt, MemorySink::new(rt.alloc(), 65536, &[]))
}

/// The sink with the view of the run of a net.
fn viewed<R: Threads + Sync + AllocGlobal + Abort>(rt: &R, net: &CheckedNet) -> MemorySink {
    let played = done(rt, run(rt, rt.alloc(), net, 1, &OpenGate));
    let mut out = sink(rt);
    assert!(rt; put_view(net, &played, &mut out).is_ok());
    out
}

#[test]
fn the_view_of_one_station_and_one_word(rt: HostRuntime) {
    let parts = Parts {
        stations: 1,
        edges: &[],
        members: &[],
        key_stations: 1,
        key_edges: &[],
        key_words: 1,
        streams: &[true],
        script: "dcscript 1\nround 0\nall\n",
        words: 1,
    };
    let net = done(&rt, checked(&rt, net_of(&rt, &parts)));
    let out = viewed(&rt, &net);
    let due = spelled(
        &rt,
        "view 1\nnet 1 1\nround 0\nword 0 W\nsum W\nall\ngot 0 W\n",
    );
    assert!(rt; out.bytes() == due.as_slice());
}

/// How each line of the view of `agreed` begins.
const BEGINNINGS: [&str; 25] = [
    "view 1",
    "net 3 2",
    "edge 0 1",
    "edge 1 2",
    "member 2",
    "first 1 2 0 ",
    "first 1 2 1 ",
    "second 1 2 0 ",
    "second 1 2 1 ",
    "round 0",
    "word 0 ",
    "word 1 ",
    "word 2 ",
    "sum ",
    "all",
    "got 0 ",
    "got 1 ",
    "round 1",
    "word 0 ",
    "word 1 ",
    "word 2 ",
    "sum ",
    "each",
    "got 0 ",
    "got 1 0000000000",
];

#[test]
fn the_view_of_a_coalition(rt: HostRuntime) {
    let net = done(&rt, checked(&rt, net_of(&rt, &agreed())));
    let out = viewed(&rt, &net);
    let lines = out.bytes().split(|byte| *byte == b'\n');
    for (line, due) in lines.zip(BEGINNINGS.iter()) {
        assert!(rt; line.starts_with(due.as_bytes()));
    }
    let ends = out.bytes().iter().filter(|byte| **byte == b'\n');
    assert_eq!(rt; ends.count(), 25);
}

#[test]
fn the_logs_of_an_ordinary_session(rt: HostRuntime) {
    let parts = Parts {
        members: &[],
        script: "dcscript 1\nround 0\nall\nround 1\nall\nround 2\nall\nround 3\nall\nround 4\nall\n",
        key_words: 5,
        words: 5,
        ..agreed()
    };
    let net = sending(&rt, &parts, &[1, 3, 3]);
    let played = done(&rt, run(&rt, rt.alloc(), &net, 1, &OpenGate));
    let mut out = sink(&rt);
    assert!(rt; put_logs(&net, &played, &mut out).is_ok());
    let due = "station 0\n\
log short 1 000000000000000000000000000001\nlog short 2 000000000000000000000000000003\n\
sent short 000000000000000000000000000001\npending 0 0\n\
station 1\n\
log short 1 000000000000000000000000000001\nlog short 2 000000000000000000000000000003\n\
sent short 000000000000000000000000000003\npending 0 0\n\
station 2\n\
log short 1 000000000000000000000000000001\nlog short 2 000000000000000000000000000003\n\
sent short 000000000000000000000000000003\npending 0 0\n";
    assert!(rt; out.bytes() == due.as_bytes());
}

#[test]
fn the_log_of_a_station_that_has_nothing(rt: HostRuntime) {
    let station = done(
        &rt,
        Station::start(rt.alloc(), Stream::empty(rt.alloc()), 1),
    );
    let mut out = sink(&rt);
    assert!(rt; put_station(7, &station, &mut out).is_ok());
    assert!(rt; out.bytes() == b"station 7\npending 0 0\n".as_slice());
}
