use crate::printed::reading;
use std::fmt::Write;
use std::process::Abort;
use std::test::*;

/// These bytes are read so.
fn read_as<R: AllocGlobal + Abort>(rt: &R, text: &[u8], due: &str) -> Result<(), Fail> {
    let printed = reading(rt, text)?;
    assert_eq!(rt; printed.as_str(), due);
    Ok(())
}

/// A manifest of one station with these lines more is read so.
fn with_lines<R: AllocGlobal + Abort>(rt: &R, lines: &str, due: &str) -> Result<(), Fail> {
    let text = format!(in rt.alloc(); "{lines}\nkeys = 'k'\nstreams = ['']\n")?;
    read_as(rt, text.as_bytes(), due)
}

#[test]
fn ordinary_manifest(rt: HostRuntime) -> Result<(), Fail> {
    read_as(
        &rt,
        b"stations = 3\nwords = 5\nedges = [[0, 1], [0, 2], [1, 2]]\nkeys = \"k.bin\"\n\
streams = [\"a.txt\", \"b.txt\", \"c.txt\"]\n",
        "stations 3 words 5 edge 0 1 edge 0 2 edge 1 2 keys k.bin stream a.txt stream b.txt stream c.txt",
    )
}

#[test]
fn fields_in_any_order(rt: HostRuntime) -> Result<(), Fail> {
    read_as(
        &rt,
        b"# a net\nwords = 0x10 # rounds\nstreams = [\n  '', # none\n  \"s\\u0031\",\n  \"\",\n]\nscript = ''\n\
'keys' = \"\"\"\nk\"\"\"\nedges = [[1, 2], [0, 2], [0, 1]]\ncoalition = [2, 0]\n\"stations\" = 3",
        "stations 3 words 16 edge 0 1 edge 0 2 edge 1 2 member 0 member 2 keys k stream  stream s1 stream  script ",
    )
}

#[test]
fn documents_and_names(rt: HostRuntime) -> Result<(), Fail> {
    read_as(&rt, b"\xff", "toml")?;
    read_as(&rt, b"words = ", "toml")?;
    read_as(&rt, b"words = 9223372036854775808", "toml")?;
    read_as(&rt, b"words = 1\nwords = 1", "toml")?;
    read_as(&rt, b"zz = 1\nword = 1\n[x]", "unknown name=word")?;
    read_as(&rt, b"\"\" = 1", "unknown name=")?;
    read_as(&rt, b"words = ''\nstations = ''", "field name=edges")?;
    with_lines(&rt, "edges = 1\nstations = 1", "field name=words")
}

#[test]
fn kinds(rt: HostRuntime) -> Result<(), Fail> {
    with_lines(
        &rt,
        "coalition = 1\nedges = 1\nstations = 1\nwords = 1",
        "kind name=coalition",
    )?;
    with_lines(
        &rt,
        "edges = [[0, 1, 2]]\nstations = 1\nwords = ''",
        "kind name=edges",
    )?;
    with_lines(
        &rt,
        "edges = [[0, '1']]\nstations = 1\nwords = 1",
        "kind name=edges",
    )?;
    with_lines(
        &rt,
        "edges = []\nscript = 1\nstations = 1\nwords = 1",
        "kind name=script",
    )?;
    with_lines(
        &rt,
        "edges = []\nstations = 1.0\nwords = 1",
        "kind name=stations",
    )
}

#[test]
fn ranges(rt: HostRuntime) -> Result<(), Fail> {
    with_lines(
        &rt,
        "coalition = [1, -1, -2]\nedges = [[0, 70000]]\nstations = 2\nwords = 0",
        "range name=coalition seen=-1",
    )?;
    with_lines(
        &rt,
        "edges = [[0, 1], [0, 65536]]\nstations = 70000\nwords = 0",
        "range name=edges seen=65536",
    )?;
    with_lines(
        &rt,
        "edges = []\nstations = 70000\nwords = 1",
        "range name=stations seen=70000",
    )?;
    with_lines(
        &rt,
        "edges = []\nstations = 2\nwords = 0",
        "range name=streams seen=1",
    )?;
    with_lines(
        &rt,
        "edges = [[0, 0]]\nstations = 1\nwords = 0",
        "range name=words seen=0",
    )?;
    with_lines(
        &rt,
        "edges = []\nstations = 1\nwords = 4097",
        "range name=words seen=4097",
    )
}

#[test]
fn graphs_and_members(rt: HostRuntime) -> Result<(), Fail> {
    with_lines(
        &rt,
        "edges = [[0, 1]]\nstations = 1\nwords = 1\ncoalition = [1]",
        "graph ends place=0",
    )?;
    with_lines(
        &rt,
        "edges = []\nstations = 1\nwords = 1\ncoalition = [0, 0]",
        "member place=1",
    )?;
    with_lines(
        &rt,
        "edges = []\nstations = 1\nwords = 1\ncoalition = [1]",
        "member place=0",
    )?;
    read_as(
        &rt,
        b"edges = []\nstations = 0\nwords = 1\nkeys = ''\nstreams = []",
        "graph stations seen=0",
    )
}

/// A manifest of 4096 words for all edges of so many stations, and then more, is read so.
fn all_edges<R: AllocGlobal + Abort>(
    rt: &R,
    stations: u32,
    more: &str,
    due: &str,
) -> Result<(), Fail> {
    let mut text = format!(in rt.alloc();
        "words = 4096\nkeys = ''\nstations = {stations}\nedges = ["
    )?;
    for v in 0..stations {
        for u in 0..v {
            write!(text, "[{u}, {v}],")?;
        }
    }
    write!(text, "{more}]\nstreams = [")?;
    for _i in 0..stations {
        write!(text, "'',")?;
    }
    write!(text, "]\n")?;
    let printed = reading(rt, text.as_bytes())?;
    assert!(rt; printed.as_str().starts_with(due), "{}", printed.as_str());
    Ok(())
}

#[test]
fn sizes(rt: HostRuntime) -> Result<(), Fail> {
    all_edges(&rt, 32, "", "stations 32 words 4096 edge 0 1 edge 0 2")?;
    all_edges(&rt, 33, "", "too-large symbols=69206016")?;
    all_edges(&rt, 33, "[0, 1]", "graph repeated place=528")
}
