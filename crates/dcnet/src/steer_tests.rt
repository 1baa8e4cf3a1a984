use crate::in_memory::{FORMER, done, files_fail, key_file, output_fails, refuses};
use dc_field::NoMemory;
use std::process::Abort;
use std::test::Fail;
use std::thread::Threads;

/// Two neighbours, and a member without pads.
const NET: &[u8] = b"stations = 3
words = 2
edges = [[0, 1]]
coalition = [2]
keys = \"k.bin\"
streams = [\"a.txt\", \"a.txt\", \"\"]
script = \"s.txt\"
";

/// The member deals different words in the first round.
const DEALT: &[u8] = b"dcscript 1
round 0
say 2 00000000000000000000000000000000000000000000000000000000000000000000000000000000
to 0 00000000000000000000000000000000000000000000000000000000000000000000000000000002
to 1 00000000000000000000000000000000000000000000000000000000000000000000000000000003
round 1
say 2 00000000000000000000000000000000000000000000000000000000000000000000000000000000
to 0 00000000000000000000000000000000000000000000000000000000000000000000000000000000
to 1 00000000000000000000000000000000000000000000000000000000000000000000000000000000
";

/// The same words to both in all rounds.
const ALIKE: &[u8] = b"dcscript 1
round 0
say 2 00000000000000000000000000000000000000000000000000000000000000000000000000000000
to 0 00000000000000000000000000000000000000000000000000000000000000000000000000000002
to 1 00000000000000000000000000000000000000000000000000000000000000000000000000000002
round 1
say 2 00000000000000000000000000000000000000000000000000000000000000000000000000000000
to 0 00000000000000000000000000000000000000000000000000000000000000000000000000000000
to 1 00000000000000000000000000000000000000000000000000000000000000000000000000000000
";

/// Both receive the sum in the second round.
const SUM_LATER: &[u8] = b"dcscript 1
round 0
say 2 00000000000000000000000000000000000000000000000000000000000000000000000000000000
to 0 00000000000000000000000000000000000000000000000000000000000000000000000000000002
to 1 00000000000000000000000000000000000000000000000000000000000000000000000000000003
round 1
say 2 00000000000000000000000000000000000000000000000000000000000000000000000000000000
all
";

/// A word of the second round has a term.
const RULED: &[u8] = b"dcscript 2
round 0
say 2 00000000000000000000000000000000000000000000000000000000000000000000000000000000
to 0 00000000000000000000000000000000000000000000000000000000000000000000000000000002
to 1 00000000000000000000000000000000000000000000000000000000000000000000000000000003
round 1
say 2 00000000000000000000000000000000000000000000000000000000000000000000000000000000
to 0 00000000000000000000000000000000000000000000000000000000000000000000000000000000
add 0 00001 2 0 0
to 1 00000000000000000000000000000000000000000000000000000000000000000000000000000000
";

/// The wanted word of the second round.
const WANTED: &[u8] =
    b"00007000000000000000000000000000000000000000000000000000000000000000000000000009
";

const STEER: &[&str] = &["steer", "net.toml", "0", "1", "w.txt", "o.bin"];

const CHANGES: &[u8] = b"differ 0 15
first 16 0000e
first 31 00012
second 1 0fffa
second 16 0fff8
";

/// The changed pads, where all are 0 before. A second pad has the number of the pad after 32 first ones.
const STEERED: &[(usize, usize, u32)] = &[(0, 16, 14), (0, 31, 18), (0, 33, 65530), (0, 48, 65528)];

#[test]
fn steers(rt: HostRuntime) -> Result<(), Fail> {
    let keys = key_file(&rt, 3, 2, &[(0, 1)], &[])?;
    let steered = key_file(&rt, 3, 2, &[(0, 1)], STEERED)?;
    let files = [
        ("net.toml", NET),
        ("k.bin", keys.as_slice()),
        ("a.txt", b""),
        ("s.txt", DEALT),
        ("w.txt", WANTED),
    ];
    done(&rt, STEER, &files, CHANGES, steered.as_slice())?;
    Ok(())
}

/// The view of the net with the steered keys: the second sum is the wanted word.
const VIEW: &[u8] = b"view 1
net 3 2
edge 0 1
member 2
round 0
word 0 00000000000000000000000000000000000000000000000000000000000000000000000000000000
word 1 00000000000000000000000000000000000000000000000000000000000000000000000000000000
word 2 00000000000000000000000000000000000000000000000000000000000000000000000000000000
sum 00000000000000000000000000000000000000000000000000000000000000000000000000000000
each
got 0 00000000000000000000000000000000000000000000000000000000000000000000000000000002
got 1 00000000000000000000000000000000000000000000000000000000000000000000000000000003
round 1
word 0 00000000000000000000000000000000000000000000000000000000000000000000000000000000
word 1 00007000000000000000000000000000000000000000000000000000000000000000000000000009
word 2 00000000000000000000000000000000000000000000000000000000000000000000000000000000
sum 00007000000000000000000000000000000000000000000000000000000000000000000000000009
each
got 0 00000000000000000000000000000000000000000000000000000000000000000000000000000000
got 1 00000000000000000000000000000000000000000000000000000000000000000000000000000000
";

#[test]
fn a_steered_net_has_the_wanted_sum(rt: HostRuntime) -> Result<(), Fail> {
    let steered = key_file(&rt, 3, 2, &[(0, 1)], STEERED)?;
    let files = [
        ("net.toml", NET),
        ("k.bin", steered.as_slice()),
        ("a.txt", b""),
        ("s.txt", DEALT),
    ];
    done(&rt, &["replay", "net.toml"], &files, VIEW, FORMER)?;
    Ok(())
}

/// Asserts how `steer` with these words is refused, for a key file, a script and wanted words.
fn refused<'a, R: Threads + Sync + AllocGlobal + Abort>(
    rt: &R,
    words: &[&str],
    keys: &'a [u8],
    script: &'a [u8],
    wanted: &'a [u8],
    status: u8,
    err: &[u8],
) -> Result<(), NoMemory> {
    let files = [
        ("net.toml", NET),
        ("k.bin", keys),
        ("a.txt", b""),
        ("s.txt", script),
        ("w.txt", wanted),
    ];
    refuses(rt, words, &files, status, err)
}

#[test]
fn refused_steerings(rt: HostRuntime) -> Result<(), Fail> {
    let keys = key_file(&rt, 3, 2, &[(0, 1)], &[])?;
    let keys = keys.as_slice();
    refused(
        &rt,
        STEER,
        keys,
        ALIKE,
        WANTED,
        7,
        b"dcnet: refused: never-differed\n",
    )?;
    refused(
        &rt,
        STEER,
        keys,
        SUM_LATER,
        WANTED,
        7,
        b"dcnet: refused: sum-delivery round=1\n",
    )?;
    refused(
        &rt,
        STEER,
        keys,
        RULED,
        WANTED,
        7,
        b"dcnet: refused: ruled-round round=1\n",
    )?;
    refused(
        &rt,
        STEER,
        keys,
        DEALT,
        b"",
        7,
        b"dcnet: refused: wanted-words have=0 need=1\n",
    )?;
    refused(
        &rt,
        STEER,
        keys,
        DEALT,
        b"7\n",
        5,
        b"dcnet: w.txt: malformed: line=1 word\n",
    )?;
    Ok(())
}

#[test]
fn steerings_of_other_pairs(rt: HostRuntime) -> Result<(), Fail> {
    let keys = key_file(&rt, 3, 2, &[(0, 1)], &[])?;
    let keys = keys.as_slice();
    let turned = ["steer", "net.toml", "1", "0", "w.txt", "o.bin"];
    refused(
        &rt,
        &turned,
        keys,
        DEALT,
        WANTED,
        7,
        b"dcnet: refused: not-neighbours u=1 v=0\n",
    )?;
    let strange = ["steer", "net.toml", "0", "255", "w.txt", "o.bin"];
    refused(
        &rt,
        &strange,
        keys,
        DEALT,
        WANTED,
        7,
        b"dcnet: refused: not-neighbours u=0 v=255\n",
    )?;
    let large = ["steer", "net.toml", "0", "256", "w.txt", "o.bin"];
    refused(
        &rt,
        &large,
        keys,
        DEALT,
        WANTED,
        2,
        b"dcnet: usage: word 3\n",
    )?;
    let more = ["steer", "net.toml", "0", "1", "w.txt", "o.bin", "more"];
    refused(
        &rt,
        &more,
        keys,
        DEALT,
        WANTED,
        2,
        b"dcnet: usage: word 6\n",
    )?;
    Ok(())
}

/// Two neighbours, the larger of which is a member.
const PAIRED: &[u8] = b"stations = 2
words = 1
edges = [[0, 1]]
coalition = [1]
keys = \"k.bin\"
streams = [\"a.txt\", \"\"]
";

#[test]
fn a_member_is_not_steered(rt: HostRuntime) -> Result<(), Fail> {
    let keys = key_file(&rt, 2, 1, &[(0, 1)], &[])?;
    let files = [
        ("net.toml", PAIRED),
        ("k.bin", keys.as_slice()),
        ("a.txt", b""),
        ("w.txt", b""),
    ];
    refuses(
        &rt,
        STEER,
        &files,
        7,
        b"dcnet: refused: not-honest station=1\n",
    )?;
    Ok(())
}

#[test]
fn steerings_whose_files_or_output_fail(rt: HostRuntime) -> Result<(), Fail> {
    let keys = key_file(&rt, 3, 2, &[(0, 1)], &[])?;
    let steered = key_file(&rt, 3, 2, &[(0, 1)], STEERED)?;
    let files = [
        ("net.toml", NET),
        ("k.bin", keys.as_slice()),
        ("a.txt", b""),
        ("s.txt", DEALT),
        ("w.txt", WANTED),
    ];
    files_fail(&rt, STEER, &files, 7)?;
    output_fails(&rt, STEER, &files, steered.as_slice())?;
    Ok(())
}
