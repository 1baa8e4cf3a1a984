//! Steerings of nets of three stations, the last of which is the coalition.

use crate::answers::done;
use crate::change_tests::{are, words};
use dc_edge::{MemorySink, OpenGate};
use dc_field::{Refusal, Syms, Words};
use dc_graph::{Coalition, Graph};
use dc_keys::{KeyFile, PairKey, Pairs};
use dc_net::{CheckedNet, Net, Played, Streams, run};
use dc_script::{Script, read_script};
use dc_steer::{SteerFault, Steered, put_steered, steer};
use dc_stream::Stream;
use std::process::Abort;
use std::test::*;
use std::thread::Threads;

/// In round 0 the stations 0 and 1 receive words of which the last symbols are 2 and 3.
const DIFFERING: &str = "dcscript 1\nround 0\nsay 2 #0\nto 0 #2\nto 1 #3\n\
round 1\nsay 2 #0\nto 0 #0\nto 1 #0\n";

/// As `DIFFERING`, with the same word for both.
const ALIKE: &str = "dcscript 1\nround 0\nsay 2 #0\nto 0 #2\nto 1 #2\n\
round 1\nsay 2 #0\nto 0 #0\nto 1 #0\n";

/// As `DIFFERING`, with the sum delivered in round 1.
const SUM: &str = "dcscript 1\nround 0\nsay 2 #0\nto 0 #2\nto 1 #3\nround 1\nsay 2 #0\nall\n";

/// As `DIFFERING`, with a term in a word of round 1.
const RULED: &str = "dcscript 2\nround 0\nsay 2 #0\nto 0 #2\nto 1 #3\n\
round 1\nsay 2 #0\nto 0 #0\nadd 0 00001 2 0 0\nto 1 #0\n";

/// The bytes of a text in which `#` stands for 79 zeros.
fn spelled<R: AllocGlobal + Abort>(rt: &R, text: &str) -> Vec<u8> {
    let mut bytes = Vec::new(rt.alloc());
    for c in text.as_bytes() {
        if *c == b'#' {
            done(rt, bytes.extend_from_slice([b'0'; 79].as_slice()));
        } else {
            done(rt, bytes.push(*c));
        }
    }
    bytes
}

/// The script of a text in which `#` stands for 79 zeros.
fn script<R: AllocGlobal + Abort>(rt: &R, text: &str) -> Script {
    done(rt, read_script(rt.alloc(), spelled(rt, text).as_slice()))
}

/// Pads of zeros for two words.
fn zeros<R: AllocGlobal + Abort>(rt: &R) -> Syms {
    Syms::from_vec(done(rt, vec![in rt.alloc(); 0u32; 32]))
}

/// The key file of these edges for two words, with pads of zeros.
fn zero_keys<R: AllocGlobal + Abort>(rt: &R, edges: &[(u16, u16)]) -> KeyFile {
    let mut pairs = Vec::new(rt.alloc());
    for (u, v) in edges {
        match PairKey::new(*u, *v, zeros(rt), zeros(rt)) {
            Some(pair) => done(rt, pairs.push(pair)),
            None => panic!(rt; "a pair"),
        }
    }
    match KeyFile::new(3, 2, Pairs::from_vec(pairs)) {
        Some(keys) => keys,
        None => panic!(rt; "a key file"),
    }
}

/// Empty streams of the stations 0 and 1.
fn streams<R: AllocGlobal + Abort>(rt: &R) -> Streams {
    let mut streams = Vec::new(rt.alloc());
    done(rt, streams.push(Some(Stream::empty(rt.alloc()))));
    done(rt, streams.push(Some(Stream::empty(rt.alloc()))));
    done(rt, streams.push(None));
    Streams::from_vec(streams)
}

/// The net of these edges, this script and these keys.
fn net<R: AllocGlobal + Abort>(
    rt: &R,
    edges: &[(u16, u16)],
    text: &str,
    keys: KeyFile,
) -> CheckedNet {
    let graph = done(rt, Graph::new(rt.alloc(), 3, edges));
    let coalition = done(rt, Coalition::new(rt.alloc(), &graph, &[2]));
    let net = Net {
        graph,
        coalition,
        keys,
        streams: streams(rt),
        script: script(rt, text),
        words: 2,
    };
    checked(rt, net)
}

/// The checked net of parts that agree.
fn checked<R: Abort>(rt: &R, net: Net) -> CheckedNet {
    let stations = net.graph.stations();
    let members = net.coalition.members();
    if net.streams.as_slice().len() != usize::from(stations)
        || members.iter().any(|m| stations <= *m)
    {
        panic!(rt; "a place for each station, and members that are stations");
    }
    done(rt, net.check())
}

/// The answer of a steering of two stations of the net of these edges and this script.
fn steered<R: Threads + Sync + AllocGlobal + Abort>(
    rt: &R,
    edges: &[(u16, u16)],
    text: &str,
    u: u16,
    v: u16,
    wanted: &Words,
) -> Result<Steered, Refusal<SteerFault>> {
    let net = net(rt, edges, text, zero_keys(rt, edges));
    let played = done(rt, run(rt, rt.alloc(), &net, 1, &OpenGate));
    steer(rt.alloc(), &net, &played, u, v, wanted)
}

/// Asserts that a steering of two stations has this fault.
fn refused<R: Threads + Sync + AllocGlobal + Abort>(
    rt: &R,
    edges: &[(u16, u16)],
    text: &str,
    u: u16,
    v: u16,
    due: SteerFault,
) {
    let wanted = words(rt, &[&[(0, 7), (15, 9)]]);
    match steered(rt, edges, text, u, v, &wanted) {
        Err(Refusal::Bad(fault)) => assert_eq!(rt; fault, due),
        _ => panic!(rt; "a fault"),
    }
}

#[test]
fn no_honest_neighbours(rt: HostRuntime) {
    let edges = [(0, 1), (0, 2)];
    for (u, v) in [(1, 0), (1, 1), (1, 2), (0, 3), (0, 65535)] {
        let due = SteerFault::NotNeighbours { u, v };
        refused(&rt, &edges, DIFFERING, u, v, due);
    }
    let due = SteerFault::NotHonest { station: 2 };
    refused(&rt, &edges, DIFFERING, 0, 2, due);
}

#[test]
fn scripts_that_allow_no_steering(rt: HostRuntime) {
    let edges = [(0, 1)];
    refused(&rt, &edges, ALIKE, 0, 1, SteerFault::NeverDiffered);
    let due = SteerFault::SumDelivery { round: 1 };
    refused(&rt, &edges, SUM, 0, 1, due);
    let due = SteerFault::RuledRound { round: 1 };
    refused(&rt, &edges, RULED, 0, 1, due);
}

#[test]
fn no_wanted_word(rt: HostRuntime) {
    match steered(&rt, &[(0, 1)], DIFFERING, 0, 1, &words(&rt, &[])) {
        Err(Refusal::Bad(fault)) => {
            assert_eq!(rt; fault, SteerFault::WantedWords { have: 0, need: 1 });
        }
        _ => panic!(rt; "a fault"),
    }
}

/// The steering of the stations 0 and 1 towards a word with symbols 7 and 9 in round 1.
fn done_steering<R: Threads + Sync + AllocGlobal + Abort>(rt: &R) -> Steered {
    let wanted = words(rt, &[&[(0, 7), (15, 9)]]);
    done(rt, steered(rt, &[(0, 1)], DIFFERING, 0, 1, &wanted))
}

#[test]
fn the_printed_steering(rt: HostRuntime) {
    let s = done_steering(&rt);
    assert_eq!(rt; s.round, 0);
    assert_eq!(rt; s.symbol, 15);
    are(&rt, s.first.as_slice(), 32, &[(16, 14), (31, 18)]);
    are(&rt, s.second.as_slice(), 32, &[(1, 65530), (16, 65528)]);
    let mut out = done(&rt, MemorySink::new(rt.alloc(), 1024, &[]));
    assert!(rt; put_steered(&s, &mut out).is_ok());
    let due = b"differ 0 15\nfirst 16 0000e\nfirst 31 00012\nsecond 1 0fffa\nsecond 16 0fff8\n";
    assert!(rt; out.bytes() == due.as_slice());
}

/// Asserts that the words of a run of two rounds are zeros, but for some.
fn have_words<R: Abort>(rt: &R, found: &Words, count: usize, due: &[(usize, [u32; 16])]) {
    assert_eq!(rt; found.as_slice().len(), count);
    for (place, word) in found.as_slice().iter().enumerate() {
        let expected = match due.iter().find(|one| one.0 == place) {
            Some(one) => one.1,
            None => [0; 16],
        };
        assert_eq!(rt; *word.numbers(), expected);
    }
}

#[test]
fn the_steered_keys_give_the_wanted_words(rt: HostRuntime) {
    let edges = [(0, 1)];
    let before = net(&rt, &edges, DIFFERING, zero_keys(&rt, &edges));
    let first: Played = done(&rt, run(&rt, rt.alloc(), &before, 1, &OpenGate));
    have_words(&rt, &first.words, 6, &[]);
    let after = net(&rt, &edges, DIFFERING, done_steering(&rt).keys);
    let second: Played = done(&rt, run(&rt, rt.alloc(), &after, 1, &OpenGate));
    let wanted = [7, 0, 0, 0, 0, 0, 0, 0, 0, 0, 0, 0, 0, 0, 0, 9];
    have_words(&rt, &second.words, 6, &[(4, wanted)]);
    have_words(&rt, &second.sums, 2, &[(1, wanted)]);
}
