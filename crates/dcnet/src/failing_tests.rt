use crate::in_memory::{FORMER, files_fail, key_file, output_fails};
use std::test::Fail;

/// A manifest of two stations that share pads, for one round.
const PAIR: &[u8] = b"stations = 2
words = 1
edges = [[0, 1]]
keys = \"k.bin\"
streams = [\"a.txt\", \"a.txt\"]
";

/// A transcript of one station and one word.
const TRANSCRIPT: &[u8] = b"DCT1\0\x01\0\x01\
\0\0\0\0\0\0\0\0\0\0\0\0\0\0\0\0\0\0\0\0\0\0\0\0\0\0\0\0\0\0\0\0\
\0\0\0\0\0\0\0\0\0\0\0\0\0\0\0\0\0\0\0\0\0\0\0\0\0\0\0\0\0\0\0\0";

/// A seed of 32 bytes that are 0.
const ZEROS: &str = "0000000000000000000000000000000000000000000000000000000000000000";

#[test]
fn each_call_of_the_shelf_fails(rt: HostRuntime) -> Result<(), Fail> {
    let keys = key_file(&rt, 2, 1, &[(0, 1)], &[])?;
    let files = [
        ("net.toml", PAIR),
        ("k.bin", keys.as_slice()),
        ("a.txt", b"".as_slice()),
        ("t.bin", TRANSCRIPT),
    ];
    files_fail(&rt, &["sum", "t.bin"], &files, 1)?;
    files_fail(&rt, &["replay", "net.toml"], &files, 4)?;
    files_fail(&rt, &["logs", "net.toml"], &files, 4)?;
    let keygen = ["keygen", ZEROS, "net.toml", "o.bin", "--seeds"];
    files_fail(&rt, &keygen[..4], &files, 2)?;
    files_fail(&rt, &keygen, &files, 2)?;
    files_fail(&rt, &["migrate", "k.bin", "o.bin"], &files, 2)?;
    Ok(())
}

#[test]
fn the_first_put_fails(rt: HostRuntime) -> Result<(), Fail> {
    let keys = key_file(&rt, 2, 1, &[(0, 1)], &[])?;
    let files = [
        ("net.toml", PAIR),
        ("k.bin", keys.as_slice()),
        ("a.txt", b"".as_slice()),
        ("t.bin", TRANSCRIPT),
    ];
    output_fails(&rt, &["sum", "t.bin"], &files, FORMER)?;
    output_fails(&rt, &["replay", "net.toml"], &files, FORMER)?;
    output_fails(&rt, &["logs", "net.toml"], &files, FORMER)?;
    output_fails(&rt, &["trial", "7", "2", "1"], &files, FORMER)?;
    Ok(())
}
