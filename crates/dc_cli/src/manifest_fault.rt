//! The text of a manifest's fault.

ghost use Rattle.dc_edge.specs.Sink.{Puts};
ghost use Rattle.dc_cli.specs.ManifestFaultText.{graph_fault_text, manifest_fault_text, range_text};

use crate::pieces::{put_before_name, put_number, put_signed};
use dc_edge::{Failed, Sink};
use dc_field::Text;
use dc_graph::GraphFault;
use dc_manifest::ManifestFault;

/// Puts the name of a fault and its fields. A name of a field is put as it is.
pub fn put_manifest_fault<E: Sink>(fault: &ManifestFault, err: &mut E) -> Result<(), Failed>
    ensures { Puts (manifest_fault_text fault.now) (E.state err.old) (E.state err.new) result }
{
    match fault {
        ManifestFault::Toml => err.put(b"toml"),
        ManifestFault::Unknown { name } => put_before_name(err, b"unknown name=", name),
        ManifestFault::Field { name } => put_before_name(err, b"field name=", name),
        ManifestFault::Kind { name } => put_before_name(err, b"kind name=", name),
        ManifestFault::Range { name, seen } => put_range(name, *seen, err),
        ManifestFault::Graph(fault) => {
            err.put(b"graph ")?;
            put_graph_fault(*fault, err)
        }
        ManifestFault::Member { place } => put_number(err, b"member place=", u64::from(*place)),
        ManifestFault::TooLarge { symbols } => put_number(err, b"too-large symbols=", *symbols),
    }
}

fn put_range<E: Sink>(name: &Text, seen: i64, err: &mut E) -> Result<(), Failed>
    ensures { Puts (range_text name.now seen) (E.state err.old) (E.state err.new) result }
{
    put_before_name(err, b"range name=", name)?;
    put_signed(err, b" seen=", seen)
}

fn put_graph_fault<E: Sink>(fault: GraphFault, err: &mut E) -> Result<(), Failed>
    ensures { Puts (graph_fault_text fault) (E.state err.old) (E.state err.new) result }
{
    match fault {
        GraphFault::Stations { seen } => put_number(err, b"stations seen=", u64::from(seen)),
        GraphFault::Ends { place } => put_number(err, b"ends place=", u64::from(place)),
        GraphFault::Repeated { place } => put_number(err, b"repeated place=", u64::from(place)),
    }
}
