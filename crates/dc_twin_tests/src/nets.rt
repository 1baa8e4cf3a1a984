//! Small nets.

ghost use Rattle.std.specs.Prelude.{◌≡◌};
ghost use Rattle.dc_net_rules.specs.Runs.{run_of};

use crate::answers::done;
use dc_edge::OpenGate;
use dc_field::Syms;
use dc_graph::{Coalition, Graph, Perm};
use dc_keys::{KeyFile, PairKey, Pairs};
use dc_net::{CheckedNet, Net, Played, Streams, run};
use dc_script::{Script, quiet, read_script};
use dc_stream::{Stream, read_stream};
use std::process::Abort;
use std::test::*;
use std::thread::Threads;

/// What a net is made of. Its keys are for its edges; all pads are zeros but for one first pad of
/// each edge. A station has the stream of a text, or none. Without a script the members are quiet.
/// In texts Z stands for seventy zeros, fourteen symbols of a word.
#[derive(Clone, Copy)]
pub(crate) struct Parts<'a> {
    pub(crate) stations: u16,
    pub(crate) edges: &'a [(u16, u16)],
    pub(crate) members: &'a [u16],
    pub(crate) words: u16,
    pub(crate) pad: (usize, u32),
    pub(crate) streams: &'a [Option<&'a str>],
    pub(crate) script: Option<&'a str>,
}

/// The bytes of a text in which Z stands for seventy zeros.
pub(crate) fn spelled<R: AllocGlobal + Abort>(rt: &R, text: &str) -> Vec<u8> {
    let mut bytes = Vec::new(rt.alloc());
    for c in text.as_bytes() {
        if *c == b'Z' {
            done(rt, bytes.extend_from_slice([b'0'; 70].as_slice()));
        } else {
            done(rt, bytes.push(*c));
        }
    }
    bytes
}

/// So many pads, zeros but for one.
fn pads<R: AllocGlobal + Abort>(rt: &R, count: usize, pad: (usize, u32)) -> Syms {
    let mut items = Vec::new(rt.alloc());
    for n in 0..count {
        let symbol = if n == pad.0 && pad.1 < 65537 {
            pad.1
        } else {
            0
        };
        done(rt, items.push(symbol));
    }
    if items.iter().any(|symbol| 65536 < *symbol) {
        panic!(rt; "symbols");
    }
    Syms::from_vec(items)
}

/// The keys of a net.
fn keys<R: AllocGlobal + Abort>(rt: &R, parts: &Parts) -> KeyFile {
    let count = 16 * usize::from(parts.words);
    let mut pairs = Vec::new(rt.alloc());
    for (u, v) in parts.edges {
        let first = pads(rt, count, parts.pad);
        match PairKey::new(*u, *v, first, pads(rt, count, (0, 0))) {
            Some(pair) => done(rt, pairs.push(pair)),
            None => panic!(rt; "a pair"),
        }
    }
    match KeyFile::new(parts.stations, parts.words, Pairs::from_vec(pairs)) {
        Some(keys) => keys,
        None => panic!(rt; "keys"),
    }
}

/// The streams of a net.
fn streams<R: AllocGlobal + Abort>(rt: &R, texts: &[Option<&str>]) -> Streams {
    let mut streams = Vec::new(rt.alloc());
    for text in texts {
        let stream: Option<Stream> = match text {
            Some(text) => Some(done(rt, read_stream(rt.alloc(), text.as_bytes()))),
            None => None,
        };
        done(rt, streams.push(stream));
    }
    Streams::from_vec(streams)
}

/// The script of a net.
fn script<R: AllocGlobal + Abort>(rt: &R, coalition: &Coalition, parts: &Parts) -> Script {
    match parts.script {
        Some(text) => done(rt, read_script(rt.alloc(), spelled(rt, text).as_slice())),
        None => {
            if parts.words == 0
                || 4096 < parts.words
                || coalition.members().iter().any(|m| parts.stations <= *m)
            {
                panic!(rt; "some words, and members that are stations");
            }
            done(
                rt,
                quiet(rt.alloc(), coalition, parts.stations, parts.words),
            )
        }
    }
}

/// The net of these parts, which agree.
pub(crate) fn net_of<R: AllocGlobal + Abort>(rt: &R, parts: &Parts) -> CheckedNet {
    let graph = done(rt, Graph::new(rt.alloc(), parts.stations, parts.edges));
    let coalition = done(rt, Coalition::new(rt.alloc(), &graph, parts.members));
    let net = Net {
        keys: keys(rt, parts),
        streams: streams(rt, parts.streams),
        script: script(rt, &coalition, parts),
        graph,
        coalition,
        words: parts.words,
    };
    let stations = net.graph.stations();
    if net.streams.as_slice().len() != usize::from(stations)
        || net.coalition.members().iter().any(|m| stations <= *m)
    {
        panic!(rt; "a place for each station, and members that are stations");
    }
    done(rt, net.check())
}

/// The run of a net.
pub(crate) fn played<R: Threads + Sync + AllocGlobal + Abort>(rt: &R, net: &CheckedNet) -> Played
    ensures { result ≡ run_of net.now }
{
    done(rt, run(rt, rt.alloc(), net, 1, &OpenGate))
}

/// A list of images.
pub(crate) fn images<R: AllocGlobal + Abort>(rt: &R, images: &[u16]) -> Perm {
    Perm::from_vec(done(rt, Vec::from_slice(rt.alloc(), images)))
}
