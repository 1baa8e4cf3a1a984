//! The content of a manifest, made of the values of its fields.

ghost use Rattle.std.specs.Prelude.{◌≡◌, ◌<◌, ◌^◌};
ghost use Rattle.dc_field.specs.Answers.{Answers};
ghost use Rattle.dc_graph.specs.Faults.{graph_fault, member_fault};
ghost use Rattle.dc_manifest.specs.Reading.{graph_of, coalition_of, sized, content_of};

use crate::fault::ManifestFault;
use crate::manifest::Manifest;
use crate::numbers::read_numbers;
use crate::values::Values;
use dc_field::Refusal;
use dc_graph::{Coalition, Graph};
use std::alloc::Global;

/// The content of values: their numbers are tested, then the key graph, the coalition and the
/// number of pads.
#[tactic(auto, unfolding(crate::specs::Reading::content_of))]
pub(crate) fn read_content(
    alloc: Global,
    values: Values,
) -> Result<Manifest, Refusal<ManifestFault>>
    ensures { Answers result (content_of values) }
{
    let numbers = read_numbers(alloc, &values)?;
    let graph = read_graph(alloc, numbers.stations, numbers.edges.as_slice())?;
    let coalition = read_coalition(alloc, &graph, numbers.coalition.as_slice())?;
    let words = sized(graph.edge_count(), numbers.words)?;
    Ok(Manifest {
        graph,
        coalition,
        words,
        keys: values.keys,
        streams: values.streams,
        script: values.script,
    })
}

/// The key graph of these edges.
fn read_graph(alloc: Global, n: u16, edges: &[(u16, u16)]) -> Result<Graph, Refusal<ManifestFault>>
    ensures { Answers result (graph_of n edges.now (graph_fault n edges.now)) }
{
    match Graph::new(alloc, n, edges) {
        Ok(graph) => Ok(graph),
        Err(Refusal::Bad(fault)) => Err(Refusal::Bad(ManifestFault::Graph(fault))),
        Err(Refusal::NoMemory) => Err(Refusal::NoMemory),
    }
}

/// The coalition of these members.
fn read_coalition(
    alloc: Global,
    graph: &Graph,
    members: &[u16],
) -> Result<Coalition, Refusal<ManifestFault>>
    ensures { Answers result (coalition_of graph.now.stations members.now (member_fault graph.now.stations members.now)) }
{
    match Coalition::new(alloc, graph, members) {
        Ok(coalition) => Ok(coalition),
        Err(Refusal::Bad(fault)) => Err(Refusal::Bad(ManifestFault::Member { place: fault.place })),
        Err(Refusal::NoMemory) => Err(Refusal::NoMemory),
    }
}

/// The number of words, where the pads of so many edges are not too many.
fn sized(edges: u32, words: u16) -> Result<u16, Refusal<ManifestFault>>
    ensures { Answers result (sized edges words) }
{
    let symbols = u64::from(edges) * 32 * u64::from(words);
    if 67108864 < symbols {
        return Err(Refusal::Bad(ManifestFault::TooLarge { symbols }));
    }
    Ok(words)
}
