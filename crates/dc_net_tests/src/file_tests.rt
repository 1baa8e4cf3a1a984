//! The files of a net, read from a shelf in memory.

use crate::answers::done;
use dc_edge::MemoryShelf;
use dc_graph::Graph;
use dc_keyfile::{KeyFault, generate, key_bytes};
use dc_net_files::{NetFileFault, NotRead, read_net};
use std::process::Abort;
use std::test::*;
use std::thread::Threads;

/// Three stations in a row, for one word. The stations at the ends have one stream file.
const ROW: &str = "stations = 3
words = 1
edges = [[0, 1], [1, 2]]
keys = \"k.bin\"
streams = [\"a.txt\", \"b.txt\", \"a.txt\"]
";

/// A shelf with a manifest, with the keys that zeros give the row, and with the stream `a.txt`.
fn shelf_of<R: AllocGlobal + Abort>(rt: &R, manifest: &str) -> MemoryShelf {
    let alloc = rt.alloc();
    let mut shelf = done(rt, MemoryShelf::new(alloc, &[]));
    let graph = done(rt, Graph::new(alloc, 3, &[(0, 1), (1, 2)]));
    if 100 < graph.edge_count() {
        panic!(rt; "few edges");
    }
    let keys = done(rt, generate(alloc, &[0; 32], &graph, 1));
    let bytes = done(rt, key_bytes(alloc, &keys));
    done(rt, shelf.hold(alloc, "net.toml", manifest.as_bytes()));
    done(rt, shelf.hold(alloc, "k.bin", bytes.as_slice()));
    done(rt, shelf.hold(alloc, "a.txt", b"coin 3\n"));
    shelf
}

/// Why no net is read.
fn refusal<R: Threads + Sync + AllocGlobal + Abort>(rt: &R, mut shelf: MemoryShelf) -> NotRead {
    match read_net(rt, rt.alloc(), &mut shelf, "net.toml") {
        Ok(_) => panic!(rt; "a net"),
        Err(refused) => refused,
    }
}

#[test]
fn a_row_of_three(rt: HostRuntime) {
    let mut shelf = shelf_of(&rt, ROW);
    done(&rt, shelf.hold(rt.alloc(), "b.txt", b""));
    let checked = done(&rt, read_net(&rt, rt.alloc(), &mut shelf, "net.toml"));
    let net = checked.net();
    assert_eq!(rt; net.graph.edges(), [(0, 1), (1, 2)].as_slice());
    assert_eq!(rt; net.words, 1);
    assert_eq!(rt; net.keys.pairs.as_slice().len(), 2);
    assert_eq!(rt; net.streams.as_slice().len(), 3);
    for (stream, coins) in net.streams.as_slice().iter().zip([1usize, 0, 1].iter()) {
        match stream {
            Some(stream) => assert_eq!(rt; stream.coins.as_slice().len(), *coins),
            None => panic!(rt; "no stream"),
        }
    }
}

#[test]
fn a_stream_that_is_missing(rt: HostRuntime) {
    match refusal(&rt, shelf_of(&rt, ROW)) {
        NotRead::Missing { name } => assert_eq!(rt; name.as_str(), "b.txt"),
        _ => panic!(rt; "another refusal"),
    }
}

#[test]
fn the_manifest_as_key_file(rt: HostRuntime) {
    let manifest = "stations = 1\nwords = 1\nedges = []\nkeys = \"net.toml\"\nstreams = [\"\"]\n";
    match refusal(&rt, shelf_of(&rt, manifest)) {
        NotRead::Malformed { name, fault } => {
            assert_eq!(rt; name.as_str(), "net.toml");
            assert!(rt; matches!(fault, NetFileFault::Keys(KeyFault::Magic)));
        }
        _ => panic!(rt; "another refusal"),
    }
}
