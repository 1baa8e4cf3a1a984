use crate::answers::done;
use dc_graph::{Coalition, Graph};
use dc_keyfile::generate;
use dc_keys::KeyFile;
use dc_net::{CheckedNet, Net, NetFault, Streams};
use dc_script::{Script, read_script};
use dc_stream::Stream;
use std::process::Abort;
use std::test::*;

/// What a net is made of. The keys are generated for a key graph of their own; a station has an
/// empty stream or none; in the script W stands for the zero word.
#[derive(Clone, Copy)]
pub(crate) struct Parts<'a> {
    pub(crate) stations: u16,
    pub(crate) edges: &'a [(u16, u16)],
    pub(crate) members: &'a [u16],
    pub(crate) key_stations: u16,
    pub(crate) key_edges: &'a [(u16, u16)],
    pub(crate) key_words: u16,
    pub(crate) streams: &'a [bool],
    pub(crate) script: &'a str,
    pub(crate) words: u16,
}

/// Three stations in a row, the last of which is the coalition. It sees the honest words of each
/// round, and in the last one it deals a word to each honest station.
pub(crate) fn agreed() -> Parts<'static> {
    Parts {
        stations: 3,
        edges: &[(0, 1), (1, 2)],
        members: &[2],
        key_stations: 3,
        key_edges: &[(0, 1), (1, 2)],
        key_words: 2,
        streams: &[true, true, false],
        script: "dcscript 2\nround 0\nsay 2 W\nadd 0 00001 1 0 0\nall\n\
round 1\nsay 2 W\nadd 3 00001 2 0 0\n\
to 0 W\nadd 0 00001 2 1 0\nto 1 W\n",
        words: 2,
    }
}

/// The keys that zeros give these edges.
fn keys<R: AllocGlobal + Abort>(rt: &R, parts: &Parts) -> KeyFile {
    let graph = done(
        rt,
        Graph::new(rt.alloc(), parts.key_stations, parts.key_edges),
    );
    let words = parts.key_words;
    if words == 0 || 4096 < words || 100 < graph.edge_count() {
        panic!(rt; "some words and few edges");
    }
    done(rt, generate(rt.alloc(), &[0; 32], &graph, words))
}

/// An empty stream for each station that has one.
fn streams<R: AllocGlobal + Abort>(rt: &R, there: &[bool]) -> Streams {
    let mut streams = Vec::new(rt.alloc());
    for is_there in there {
        let stream = if *is_there {
            Some(Stream::empty(rt.alloc()))
        } else {
            None
        };
        done(rt, streams.push(stream));
    }
    Streams::from_vec(streams)
}

/// The bytes of a text in which W stands for eighty zeros.
pub(crate) fn spelled<R: AllocGlobal + Abort>(rt: &R, text: &str) -> Vec<u8> {
    let mut bytes = Vec::new(rt.alloc());
    for c in text.as_bytes() {
        if *c == b'W' {
            done(rt, bytes.extend_from_slice([b'0'; 80].as_slice()));
        } else {
            done(rt, bytes.push(*c));
        }
    }
    bytes
}

/// The script of a text in which W stands for the zero word.
fn script<R: AllocGlobal + Abort>(rt: &R, text: &str) -> Script {
    done(rt, read_script(rt.alloc(), spelled(rt, text).as_slice()))
}

/// The net of these parts.
pub(crate) fn net_of<R: AllocGlobal + Abort>(rt: &R, parts: &Parts) -> Net {
    let graph = done(rt, Graph::new(rt.alloc(), parts.stations, parts.edges));
    let coalition = done(rt, Coalition::new(rt.alloc(), &graph, parts.members));
    Net {
        graph,
        coalition,
        keys: keys(rt, parts),
        streams: streams(rt, parts.streams),
        script: script(rt, parts.script),
        words: parts.words,
    }
}

/// The fault of the net of these parts; None where they agree, and then the net is as it was.
fn fault_of<R: AllocGlobal + Abort>(rt: &R, parts: &Parts) -> Option<NetFault> {
    match checked(rt, net_of(rt, parts)) {
        Ok(checked) => {
            assert_eq!(rt; checked.net().words, parts.words);
            None
        }
        Err(fault) => Some(fault),
    }
}

/// The answer of the check of a net.
pub(crate) fn checked<R: Abort>(rt: &R, net: Net) -> Result<CheckedNet, NetFault> {
    let stations = net.graph.stations();
    let members = net.coalition.members();
    if net.streams.as_slice().len() != usize::from(stations)
        || members.iter().any(|m| stations <= *m)
    {
        panic!(rt; "a place for each station, and members that are stations");
    }
    net.check()
}

fn refused<R: AllocGlobal + Abort>(rt: &R, parts: Parts, due: NetFault) {
    assert_eq!(rt; fault_of(rt, &parts), Some(due));
}

#[test]
fn parts_that_agree(rt: HostRuntime) {
    assert_eq!(rt; fault_of(&rt, &agreed()), None);
    let nobody = Parts {
        members: &[],
        streams: &[true, true, true],
        script: "dcscript 1\nround 0\nall\nround 1\nall\n",
        ..agreed()
    };
    assert_eq!(rt; fault_of(&rt, &nobody), None);
}

#[test]
fn faults_of_keys(rt: HostRuntime) {
    let due = NetFault::KeyStations { told: 4, net: 3 };
    refused(
        &rt,
        Parts {
            key_stations: 4,
            key_words: 3,
            ..agreed()
        },
        due,
    );
    let due = NetFault::KeyWords { told: 3, net: 2 };
    refused(
        &rt,
        Parts {
            key_words: 3,
            key_edges: &[],
            ..agreed()
        },
        due,
    );
    let due = NetFault::KeyMissing { u: 1, v: 2 };
    refused(
        &rt,
        Parts {
            key_edges: &[(0, 1), (0, 2)],
            ..agreed()
        },
        due,
    );
    let due = NetFault::KeyStray { u: 0, v: 2 };
    refused(
        &rt,
        Parts {
            key_edges: &[(0, 1), (0, 2), (1, 2)],
            ..agreed()
        },
        due,
    );
}

#[test]
fn faults_of_streams(rt: HostRuntime) {
    let due = NetFault::StreamMissing { station: 1 };
    refused(
        &rt,
        Parts {
            streams: &[true, false, true],
            ..agreed()
        },
        due,
    );
    let due = NetFault::StreamStray { station: 2 };
    refused(
        &rt,
        Parts {
            streams: &[true, true, true],
            ..agreed()
        },
        due,
    );
}

#[test]
fn faults_of_the_script(rt: HostRuntime) {
    let due = NetFault::ScriptRounds { told: 1, net: 2 };
    scripted(&rt, &[2], "dcscript 1\nround 0\nall\n", due);
    let due = NetFault::ScriptStation {
        round: 1,
        station: 1,
    };
    scripted(
        &rt,
        &[2],
        "dcscript 1\nround 0\nsay 2 W\nall\nround 1\nsay 2 W\nto 0 W\n",
        due,
    );
    let due = NetFault::ScriptStation {
        round: 0,
        station: 7,
    };
    scripted(
        &rt,
        &[2],
        "dcscript 1\nround 0\nsay 2 W\nsay 7 W\nto 1 W\nround 1\nall\n",
        due,
    );
    let due = NetFault::ScriptDelivery { round: 1 };
    scripted(
        &rt,
        &[],
        "dcscript 1\nround 0\nall\nround 1\nto 0 W\nto 1 W\nto 2 W\n",
        due,
    );
}

#[test]
fn faults_of_rules(rt: HostRuntime) {
    let due = NetFault::ScriptRule {
        round: 0,
        station: 2,
    };
    scripted(
        &rt,
        &[2],
        "dcscript 2\nround 0\nsay 2 W\nadd 0 00001 2 0 0\nall\nround 1\nsay 2 W\nall\n",
        due,
    );
    let due = NetFault::ScriptRule {
        round: 1,
        station: 1,
    };
    scripted(
        &rt,
        &[2],
        "dcscript 2\nround 0\nsay 2 W\nall\nround 1\nsay 2 W\nto 0 W\nto 1 W\nadd 0 00001 3 0 0\n",
        due,
    );
}

/// The net with this coalition and script is refused.
fn scripted<R: AllocGlobal + Abort>(rt: &R, members: &[u16], script: &str, due: NetFault) {
    let streams = [true, true, members.is_empty()];
    refused(
        rt,
        Parts {
            members,
            streams: &streams,
            script,
            ..agreed()
        },
        due,
    );
}
