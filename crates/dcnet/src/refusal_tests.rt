use crate::in_memory::{files_fail, key_file, refuses};
use dc_field::{Bytes, NoMemory};
use dc_graph::Graph;
use dc_keyfile::{generate, key_bytes};
use std::process::Abort;
use std::test::Fail;
use std::thread::Threads;

/// A manifest of three stations that all share keys, for five rounds.
const TRIANGLE: &[u8] = b"stations = 3
words = 5
edges = [[0, 1], [0, 2], [1, 2]]
keys = \"k.bin\"
streams = [\"a.txt\", \"b.txt\", \"c.txt\"]
";

/// The same with a script.
const SCRIPTED: &[u8] = b"stations = 3
words = 5
edges = [[0, 1], [0, 2], [1, 2]]
keys = \"k.bin\"
streams = [\"a.txt\", \"b.txt\", \"c.txt\"]
script = \"s.txt\"
";

const ONE: &[u8] = b"short 000000000000000000000000000001\n";

const THREE: &[u8] = b"short 000000000000000000000000000003\n";

const LOGS: &[&str] = &["logs", "net.toml"];

/// The key file that the seed of zeros generates for the triangle.
fn generated<R: AllocGlobal + Abort>(rt: &R) -> Result<Bytes, NoMemory> {
    let graph = Graph::new(rt.alloc(), 3, &[(0, 1), (0, 2), (1, 2)]);
    let graph = graph.ok().expect(rt, "a graph");
    key_bytes(rt.alloc(), &generate(rt.alloc(), &[0; 32], &graph, 5)?)
}

/// Asserts how `logs` of the triangle is refused with other files.
fn refused<'a, R: Threads + Sync + AllocGlobal + Abort>(
    rt: &R,
    net: &'a [u8],
    keys: &'a [u8],
    stream: &'a [u8],
    script: &'a [u8],
    status: u8,
    err: &[u8],
) -> Result<(), NoMemory> {
    let files = [
        ("net.toml", net),
        ("k.bin", keys),
        ("a.txt", stream),
        ("b.txt", THREE),
        ("c.txt", THREE),
        ("s.txt", script),
    ];
    refuses(rt, LOGS, &files, status, err)
}

#[test]
fn altered_manifests(rt: HostRuntime) -> Result<(), Fail> {
    let keys = generated(&rt)?;
    let cases: &[(&[u8], &[u8])] = &[
        (
            b"stations = 0\nwords = 5\nedges = []\nkeys = \"k.bin\"\nstreams = []\n",
            b"dcnet: net.toml: malformed: graph stations seen=0\n",
        ),
        (
            b"stations = 3\nwords = 0\nedges = [[0, 1], [0, 2], [1, 2]]\nkeys = \"k.bin\"\nstreams = [\"a.txt\", \"b.txt\", \"c.txt\"]\n",
            b"dcnet: net.toml: malformed: range name=words seen=0\n",
        ),
        (
            b"stations = 3\nwords = 5\nedges = [[0, 1], [0, 2], [1, 2]]\nkeys = \"k.bin\"\nstreams = [\"a.txt\", \"b.txt\", \"c.txt\"]\nseed = 1\n",
            b"dcnet: net.toml: malformed: unknown name=seed\n",
        ),
        (
            b"stations = 3\nwords = 5\nedges = [[0, 1], [0, 2], [1, 2]]\nstreams = [\"a.txt\", \"b.txt\", \"c.txt\"]\n",
            b"dcnet: net.toml: malformed: field name=keys\n",
        ),
        (
            b"stations = 3\nwords = 5\nedges = [[0, 1], [0, 2], [1, 2]]\nkeys = 3\nstreams = [\"a.txt\", \"b.txt\", \"c.txt\"]\n",
            b"dcnet: net.toml: malformed: kind name=keys\n",
        ),
        (
            b"stations = 3\nwords = 5\nedges = [[0, 1], [0, 2], [0, 1]]\nkeys = \"k.bin\"\nstreams = [\"a.txt\", \"b.txt\", \"c.txt\"]\n",
            b"dcnet: net.toml: malformed: graph repeated place=2\n",
        ),
        (
            b"stations = 3\nwords = 5\nedges = [[1, 0], [0, 2], [1, 2]]\nkeys = \"k.bin\"\nstreams = [\"a.txt\", \"b.txt\", \"c.txt\"]\n",
            b"dcnet: net.toml: malformed: graph ends place=0\n",
        ),
        (
            b"stations = 3\nwords = 5\nedges = [[0, 1], [0, 2], [1, 2]]\ncoalition = [3]\nkeys = \"k.bin\"\nstreams = [\"a.txt\", \"b.txt\", \"c.txt\"]\n",
            b"dcnet: net.toml: malformed: member place=0\n",
        ),
    ];
    for (net, line) in cases {
        refused(&rt, net, keys.as_slice(), ONE, b"", 5, line)?;
    }
    Ok(())
}

/// Bytes with others in their place from some place on, as far as they reach.
fn replaced<R: AllocGlobal>(
    rt: &R,
    bytes: &[u8],
    at: usize,
    others: &[u8],
) -> Result<Vec<u8>, NoMemory> {
    let mut copy = Vec::new(rt.alloc());
    for (k, byte) in bytes.iter().enumerate() {
        let other = if at <= k { others.get(k - at) } else { None };
        copy.push(other.copied().unwrap_or(*byte))?;
    }
    Ok(copy)
}

#[test]
fn altered_keys(rt: HostRuntime) -> Result<(), Fail> {
    let keys = generated(&rt)?;
    let cases: &[(usize, &[u8], &[u8])] = &[
        (
            336,
            b"\0\0\0\x01",
            b"dcnet: k.bin: malformed: first-second-pad pair=0\n",
        ),
        (
            16,
            b"\0\x01\0\x01",
            b"dcnet: k.bin: malformed: symbol pair=0 index=0 seen=65537\n",
        ),
        (3, b"\x03", b"dcnet: k.bin: malformed: version seen=3\n"),
        (
            8,
            b"\xff\xff\xff\xff",
            b"dcnet: k.bin: malformed: too-large symbols=687194767200\n",
        ),
    ];
    for (at, others, line) in cases {
        let altered = replaced(&rt, keys.as_slice(), *at, others)?;
        refused(&rt, TRIANGLE, altered.as_slice(), ONE, b"", 5, line)?;
    }
    let cut = keys.as_slice().get(..1943).expect(&rt, "a key file");
    let line = b"dcnet: k.bin: malformed: truncated at=1943 need=1944\n";
    refused(&rt, TRIANGLE, cut, ONE, b"", 5, line)?;
    let four = key_file(&rt, 3, 4, &[(0, 1), (0, 2), (1, 2)], &[])?;
    let line = b"dcnet: files disagree: key-words told=4 net=5\n";
    refused(&rt, TRIANGLE, four.as_slice(), ONE, b"", 6, line)?;
    Ok(())
}

#[test]
fn altered_streams(rt: HostRuntime) -> Result<(), Fail> {
    let keys = generated(&rt)?;
    let cases: &[(&[u8], &[u8])] = &[
        (b"coin 16\n", b"dcnet: a.txt: malformed: line=1 number\n"),
        (
            b"coin 1\nshort 000000000000000000000000000001\n",
            b"dcnet: a.txt: malformed: line=2 order\n",
        ),
        (
            b"short 00\n",
            b"dcnet: a.txt: malformed: line=1 length seen=1\n",
        ),
        (b"long 0\n", b"dcnet: a.txt: malformed: line=1 hex\n"),
        (b"coin 1", b"dcnet: a.txt: malformed: line=1 not-text\n"),
    ];
    for (stream, line) in cases {
        refused(&rt, TRIANGLE, keys.as_slice(), stream, b"", 5, line)?;
    }
    Ok(())
}

#[test]
fn altered_scripts(rt: HostRuntime) -> Result<(), Fail> {
    let keys = generated(&rt)?;
    let header = b"dcnet: s.txt: malformed: line=1 header\n";
    refused(
        &rt,
        SCRIPTED,
        keys.as_slice(),
        ONE,
        b"dcscript 3\n",
        5,
        header,
    )?;
    let rounds = b"dcnet: files disagree: script-rounds told=0 net=5\n";
    refused(
        &rt,
        SCRIPTED,
        keys.as_slice(),
        ONE,
        b"dcscript 1\n",
        6,
        rounds,
    )?;
    Ok(())
}

#[test]
fn logs_whose_files_fail(rt: HostRuntime) -> Result<(), Fail> {
    let keys = generated(&rt)?;
    let files = [
        ("net.toml", TRIANGLE),
        ("k.bin", keys.as_slice()),
        ("a.txt", ONE),
        ("b.txt", THREE),
        ("c.txt", THREE),
    ];
    files_fail(&rt, LOGS, &files, 5)?;
    Ok(())
}
