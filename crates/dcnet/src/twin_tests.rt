use crate::in_memory::{done, files_fail, key_file, output_fails, refuses};
use std::test::Fail;

/// Four stations in a ring; the last one is a member.
const RING: &[u8] = b"stations = 4
words = 4
edges = [[0, 1], [1, 2], [2, 3], [0, 3]]
coalition = [3]
keys = \"k.bin\"
streams = [\"a.txt\", \"b.txt\", \"c.txt\", \"\"]
";

/// The pairs of the ring, rising.
const PAIRS: &[(u8, u8)] = &[(0, 1), (0, 3), (1, 2), (2, 3)];

const FIVE: &[u8] = b"short 000000000000000000000000000005\n";

const NINE: &[u8] = b"short 000000000000000000000000000009\n";

/// The first and the third station exchange their streams.
const EXCHANGED: &[u8] = b"2\n1\n0\n3\n";

const TWIN: &[&str] = &["twin", "net.toml", "p.txt", "o.bin"];

/// What is added where the first and the third station of the ring exchange their streams.
const SHIFTS: &[u8] =
    b"shift 0 1 1 0000000000000000000000000000000000000000000000000000000000000000000000000000fffd
shift 0 1 2 00001000000000000000000000000000000000000000000000000000000000000000000000000005
shift 1 2 1 0000000000000000000000000000000000000000000000000000000000000000000000000000fffd
shift 1 2 2 00001000000000000000000000000000000000000000000000000000000000000000000000000005
";

/// The pads of the twin, where those of the ring are 0.
const SHIFTED: &[(usize, usize, u32)] = &[
    (0, 31, 65533),
    (0, 32, 1),
    (0, 47, 5),
    (2, 31, 65533),
    (2, 32, 1),
    (2, 47, 5),
];

#[test]
fn twins(rt: HostRuntime) -> Result<(), Fail> {
    let keys = key_file(&rt, 4, 4, PAIRS, &[])?;
    let shifted = key_file(&rt, 4, 4, PAIRS, SHIFTED)?;
    let files = [
        ("net.toml", RING),
        ("k.bin", keys.as_slice()),
        ("a.txt", FIVE),
        ("b.txt", b""),
        ("c.txt", NINE),
        ("p.txt", EXCHANGED),
    ];
    done(&rt, TWIN, &files, SHIFTS, shifted.as_slice())?;
    Ok(())
}

#[test]
fn a_twin_by_no_exchange(rt: HostRuntime) -> Result<(), Fail> {
    let keys = key_file(&rt, 4, 4, PAIRS, &[])?;
    let files = [
        ("net.toml", RING),
        ("k.bin", keys.as_slice()),
        ("a.txt", FIVE),
        ("b.txt", b""),
        ("c.txt", NINE),
        ("p.txt", b"0\n1\n2\n3\n"),
    ];
    done(&rt, TWIN, &files, b"", keys.as_slice())?;
    Ok(())
}

#[test]
fn the_twin_of_the_twin_is_the_net(rt: HostRuntime) -> Result<(), Fail> {
    let keys = key_file(&rt, 4, 4, PAIRS, &[])?;
    let shifted = key_file(&rt, 4, 4, PAIRS, SHIFTED)?;
    let files = [
        ("net.toml", RING),
        ("k.bin", shifted.as_slice()),
        ("a.txt", NINE),
        ("b.txt", b""),
        ("c.txt", FIVE),
        ("p.txt", EXCHANGED),
    ];
    let back: &[u8] =
        b"shift 0 1 1 00000000000000000000000000000000000000000000000000000000000000000000000000000004
shift 0 1 2 1000000000000000000000000000000000000000000000000000000000000000000000000000fffc
shift 1 2 1 00000000000000000000000000000000000000000000000000000000000000000000000000000004
shift 1 2 2 1000000000000000000000000000000000000000000000000000000000000000000000000000fffc
";
    done(&rt, TWIN, &files, back, keys.as_slice())?;
    Ok(())
}

/// Two stations and a member that adds to its word what the first one says.
const RULED: &[u8] = b"stations = 3
words = 2
edges = [[0, 1]]
coalition = [2]
keys = \"k.bin\"
streams = [\"a.txt\", \"b.txt\", \"\"]
script = \"s.txt\"
";

const RULE: &[u8] = b"dcscript 2
round 0
say 2 00000000000000000000000000000000000000000000000000000000000000000000000000000000
add 15 10000 0 0 15
all
round 1
say 2 00000000000000000000000000000000000000000000000000000000000000000000000000000000
all
";

#[test]
fn a_twin_under_rules(rt: HostRuntime) -> Result<(), Fail> {
    let pairs = [(0, 1)];
    let keys = key_file(&rt, 3, 2, &pairs, &[(0, 15, 7)])?;
    let shifted = key_file(&rt, 3, 2, &pairs, &[(0, 15, 7), (0, 16, 1), (0, 31, 5)])?;
    let files = [
        ("net.toml", RULED),
        ("k.bin", keys.as_slice()),
        ("a.txt", FIVE),
        ("b.txt", b""),
        ("s.txt", RULE),
        ("p.txt", b"1\n0\n2\n"),
    ];
    let shift: &[u8] =
        b"shift 0 1 1 00001000000000000000000000000000000000000000000000000000000000000000000000000005
";
    done(&rt, TWIN, &files, shift, shifted.as_slice())?;
    Ok(())
}

/// A path of three stations; the one between the other two is the member.
const PATH: &[u8] = b"stations = 3
words = 1
edges = [[0, 1], [1, 2]]
coalition = [1]
keys = \"k.bin\"
streams = [\"a.txt\", \"\", \"a.txt\"]
";

#[test]
fn refused_twins(rt: HostRuntime) -> Result<(), Fail> {
    let keys = key_file(&rt, 3, 1, &[(0, 1), (1, 2)], &[])?;
    let lists: &[(&[u8], u8, &[u8])] = &[
        (
            b"2\n1\n0\n",
            7,
            b"dcnet: refused: not-joined station=0 image=2\n",
        ),
        (b"0\n1\n", 7, b"dcnet: refused: perm-count have=2 need=3\n"),
        (b"0\n1\n1\n", 7, b"dcnet: refused: perm place=2\n"),
        (
            b"0\n1\n256\n",
            5,
            b"dcnet: p.txt: malformed: line=3 number\n",
        ),
        (b"0\n1\n2", 5, b"dcnet: p.txt: malformed: line=3 not-text\n"),
    ];
    for (list, due, line) in lists {
        let files = [
            ("net.toml", PATH),
            ("k.bin", keys.as_slice()),
            ("a.txt", b""),
            ("p.txt", *list),
        ];
        refuses(&rt, TWIN, &files, *due, line)?;
    }
    Ok(())
}

#[test]
fn refused_images_of_a_ring(rt: HostRuntime) -> Result<(), Fail> {
    let keys = key_file(&rt, 4, 4, PAIRS, &[])?;
    let lists: &[(&[u8], &[u8])] = &[
        (b"2\n1\n0\n", b"dcnet: refused: perm-count have=3 need=4\n"),
        (b"0\n0\n2\n3\n", b"dcnet: refused: perm place=1\n"),
    ];
    for (list, line) in lists {
        let files = [
            ("net.toml", RING),
            ("k.bin", keys.as_slice()),
            ("a.txt", FIVE),
            ("b.txt", b""),
            ("c.txt", NINE),
            ("p.txt", *list),
        ];
        refuses(&rt, TWIN, &files, 7, line)?;
    }
    Ok(())
}

#[test]
fn twins_without_a_file(rt: HostRuntime) -> Result<(), Fail> {
    let keys = key_file(&rt, 3, 1, &[(0, 1), (1, 2)], &[])?;
    let files = [
        ("net.toml", PATH),
        ("k.bin", keys.as_slice()),
        ("a.txt", b"".as_slice()),
    ];
    refuses(&rt, TWIN, &files, 3, b"dcnet: p.txt: missing\n")?;
    refuses(
        &rt,
        &["twin", "net.toml"],
        &files,
        2,
        b"dcnet: usage: word 2\n",
    )?;
    let six = ["twin", "net.toml", "p.txt", "o.bin", "more"];
    refuses(&rt, &six, &files, 2, b"dcnet: usage: word 4\n")?;
    Ok(())
}

#[test]
fn twins_whose_files_or_output_fail(rt: HostRuntime) -> Result<(), Fail> {
    let keys = key_file(&rt, 4, 4, PAIRS, &[])?;
    let shifted = key_file(&rt, 4, 4, PAIRS, SHIFTED)?;
    let files = [
        ("net.toml", RING),
        ("k.bin", keys.as_slice()),
        ("a.txt", FIVE),
        ("b.txt", b""),
        ("c.txt", NINE),
        ("p.txt", EXCHANGED),
    ];
    files_fail(&rt, TWIN, &files, 7)?;
    output_fails(&rt, TWIN, &files, shifted.as_slice())?;
    Ok(())
}
