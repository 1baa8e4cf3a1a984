use crate::in_memory::{FORMER, done, key_file, refuses};
use dc_field::NoMemory;
use std::process::Abort;
use std::test::Fail;
use std::thread::Threads;

/// A triangle for five rounds, whose stations have the values 1, 3 and 3.
const TRIANGLE: &[u8] = b"stations = 3
words = 5
edges = [[0, 1], [0, 2], [1, 2]]
keys = \"k.bin\"
streams = [\"a.txt\", \"b.txt\", \"c.txt\"]
";

const ONE: &[u8] = b"short 000000000000000000000000000001\n";

const THREE: &[u8] = b"short 000000000000000000000000000003\n";

/// What the stations received and sent.
const TRIANGLE_LOGS: &[u8] = b"station 0
log short 1 000000000000000000000000000001
log short 2 000000000000000000000000000003
sent short 000000000000000000000000000001
pending 0 0
station 1
log short 1 000000000000000000000000000001
log short 2 000000000000000000000000000003
sent short 000000000000000000000000000003
pending 0 0
station 2
log short 1 000000000000000000000000000001
log short 2 000000000000000000000000000003
sent short 000000000000000000000000000003
pending 0 0
";

/// The files of a net: its manifest, its keys, and up to three streams.
type Files<'a> = [(&'a str, &'a [u8]); 5];

/// The files of the triangle with these keys.
fn triangle(keys: &[u8]) -> Files<'_> {
    [
        ("net.toml", TRIANGLE),
        ("k.bin", keys),
        ("a.txt", ONE),
        ("b.txt", THREE),
        ("c.txt", THREE),
    ]
}

/// Asserts what `logs` prints.
fn logs<R: Threads + Sync + AllocGlobal + Abort>(
    rt: &R,
    files: &[(&str, &[u8])],
    out: &[u8],
) -> Result<(), NoMemory> {
    done(rt, &["logs", "net.toml"], files, out, FORMER)
}

#[test]
fn an_ordinary_session(rt: HostRuntime) -> Result<(), Fail> {
    let keys = key_file(&rt, 3, 5, &[(0, 1), (0, 2), (1, 2)], &[])?;
    logs(&rt, &triangle(&keys), TRIANGLE_LOGS)?;
    Ok(())
}

/// A key file in which each pair of the triangle has the zero seed.
const SEEDS: &[u8] = b"DCK\x02\0\x03\0\x05\0\0\0\x03\
\0\0\0\x01\0\0\0\0\0\0\0\0\0\0\0\0\0\0\0\0\0\0\0\0\0\0\0\0\0\0\0\0\0\0\0\0\
\0\0\0\x02\0\0\0\0\0\0\0\0\0\0\0\0\0\0\0\0\0\0\0\0\0\0\0\0\0\0\0\0\0\0\0\0\
\0\x01\0\x02\0\0\0\0\0\0\0\0\0\0\0\0\0\0\0\0\0\0\0\0\0\0\0\0\0\0\0\0\0\0\0\0";

#[test]
fn a_session_with_seeds(rt: HostRuntime) -> Result<(), Fail> {
    logs(&rt, &triangle(SEEDS), TRIANGLE_LOGS)?;
    Ok(())
}

#[test]
fn a_pair_without_keys(rt: HostRuntime) -> Result<(), Fail> {
    let keys = key_file(&rt, 3, 5, &[(0, 1), (1, 2)], &[])?;
    refuses(
        &rt,
        &["logs", "net.toml"],
        &triangle(&keys),
        6,
        b"dcnet: files disagree: key-missing u=0 v=2\n",
    )?;
    Ok(())
}

#[test]
fn two_equal_values(rt: HostRuntime) -> Result<(), Fail> {
    let manifest = b"stations = 2
words = 3
edges = [[0, 1]]
keys = \"k.bin\"
streams = [\"a.txt\", \"a.txt\"]
";
    let keys = key_file(&rt, 2, 3, &[(0, 1)], &[])?;
    let files = [
        ("net.toml", manifest.as_slice()),
        ("k.bin", keys.as_slice()),
        (
            "a.txt",
            b"short 000000000000000000000000000000\n".as_slice(),
        ),
    ];
    let out = b"station 0
log short 2 000000000000000000000000000000
sent short 000000000000000000000000000000
pending 0 0
station 1
log short 2 000000000000000000000000000000
sent short 000000000000000000000000000000
pending 0 0
";
    logs(&rt, &files, out)?;
    Ok(())
}

#[test]
fn messages_after_a_collision(rt: HostRuntime) -> Result<(), Fail> {
    let manifest = b"stations = 3
words = 6
edges = [[0, 1], [0, 2], [1, 2]]
keys = \"k.bin\"
streams = [\"a.txt\", \"b.txt\", \"c.txt\"]
";
    let keys = key_file(&rt, 3, 6, &[(0, 1), (0, 2), (1, 2)], &[])?;
    let files = [
        ("net.toml", manifest.as_slice()),
        ("k.bin", keys.as_slice()),
        ("a.txt", b"long aa\ncoin 5\ncoin 5\n".as_slice()),
        ("b.txt", b"long bb\ncoin 5\ncoin 9\n".as_slice()),
        ("c.txt", b"".as_slice()),
    ];
    let out = b"station 0
log long aa
log long bb
sent long aa
pending 0 0
station 1
log long aa
log long bb
sent long bb
pending 0 0
station 2
log long aa
log long bb
pending 0 0
";
    logs(&rt, &files, out)?;
    Ok(())
}

/// The manifest of 256 stations that have one stream.
fn many_stations<R: AllocGlobal>(rt: &R) -> Result<String, NoMemory> {
    let mut text = String::from_str(
        rt.alloc(),
        "stations = 256\nwords = 3\nedges = []\nkeys = \"k.bin\"\nstreams = [",
    )?;
    for _ in 0..256u16 {
        text.push_str("\"a.txt\", ")?;
    }
    text.push_str("]\n")?;
    Ok(text)
}

/// The digit of a number below 10; another character else.
fn digit(n: u16) -> u8 {
    b'0'.saturating_add(u8::try_from(n).unwrap_or(0))
}

/// The logs of 256 stations that sent the greatest value.
fn many_logs<R: AllocGlobal>(rt: &R) -> Result<Vec<u8>, NoMemory> {
    let mut text = Vec::new(rt.alloc());
    for station in 0..256u16 {
        text.extend_from_slice(b"station ")?;
        if station >= 100 {
            text.push(digit(station / 100))?;
        }
        if station >= 10 {
            text.push(digit(station / 10 % 10))?;
        }
        text.push(digit(station % 10))?;
        text.extend_from_slice(
            b"\nlog short 256 ffffffffffffffffffffffffffffff
sent short ffffffffffffffffffffffffffffff
pending 0 0
",
        )?;
    }
    Ok(text)
}

#[test]
fn the_greatest_value_of_all(rt: HostRuntime) -> Result<(), Fail> {
    let manifest = many_stations(&rt)?;
    let files = [
        ("net.toml", manifest.as_bytes()),
        ("k.bin", b"DCK\x01\x01\0\0\x03\0\0\0\0".as_slice()),
        (
            "a.txt",
            b"short ffffffffffffffffffffffffffffff\n".as_slice(),
        ),
    ];
    let out = many_logs(&rt)?;
    logs(&rt, &files, &out)?;
    Ok(())
}
