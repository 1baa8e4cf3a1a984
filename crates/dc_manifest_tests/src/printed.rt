//! Manifests and their faults as texts.

use dc_field::Refusal;
use dc_graph::GraphFault;
use dc_manifest::{Manifest, ManifestFault, read_manifest};
use std::alloc::{AllocError, Global};
use std::fmt::Write;
use std::process::Abort;
use std::test::*;

/// What is read of bytes: the content or the fault as one line.
pub(crate) fn reading<R: AllocGlobal + Abort>(rt: &R, b: &[u8]) -> Result<String, Fail> {
    let text = match read_manifest(rt.alloc(), b) {
        Ok(manifest) => content_text(rt.alloc(), &manifest)?,
        Err(Refusal::Bad(fault)) => fault_text(rt.alloc(), &fault)?,
        Err(Refusal::NoMemory) => String::from_str(rt.alloc(), "no memory")?,
    };
    Ok(text)
}

fn content_text(alloc: Global, m: &Manifest) -> Result<String, Fail> {
    let mut text = format!(in alloc; "stations {} words {}", m.graph.stations(), m.words)?;
    for i in 0..m.graph.edge_count() {
        let (u, v) = m.graph.edge(i);
        write!(text, " edge {u} {v}")?;
    }
    for i in 0..m.graph.stations() {
        if m.coalition.holds(i) {
            write!(text, " member {i}")?;
        }
    }
    write!(text, " keys {}", m.keys.as_str())?;
    for name in m.streams.as_slice() {
        write!(text, " stream {}", name.as_str())?;
    }
    if let Some(name) = &m.script {
        write!(text, " script {}", name.as_str())?;
    }
    Ok(text)
}

fn fault_text(alloc: Global, fault: &ManifestFault) -> Result<String, AllocError> {
    match fault {
        ManifestFault::Toml => String::from_str(alloc, "toml"),
        ManifestFault::Unknown { name } => format!(in alloc; "unknown name={}", name.as_str()),
        ManifestFault::Field { name } => format!(in alloc; "field name={}", name.as_str()),
        ManifestFault::Kind { name } => format!(in alloc; "kind name={}", name.as_str()),
        ManifestFault::Range { name, seen } => {
            format!(in alloc; "range name={} seen={seen}", name.as_str())
        }
        ManifestFault::Graph(fault) => graph_fault_text(alloc, fault),
        ManifestFault::Member { place } => format!(in alloc; "member place={place}"),
        ManifestFault::TooLarge { symbols } => format!(in alloc; "too-large symbols={symbols}"),
    }
}

fn graph_fault_text(alloc: Global, fault: &GraphFault) -> Result<String, AllocError> {
    match fault {
        GraphFault::Stations { seen } => format!(in alloc; "graph stations seen={seen}"),
        GraphFault::Ends { place } => format!(in alloc; "graph ends place={place}"),
        GraphFault::Repeated { place } => format!(in alloc; "graph repeated place={place}"),
    }
}
