//! The key graph (Chaum 1988).

ghost use Rattle.std.specs.Prelude.{◌≡◌, ◌<◌, Some, length, slice_get, IfOk};
ghost use Rattle.dc_graph_rules.specs.Graphs.{has_edge};
ghost use Rattle.dc_graph.specs.Graph.{IsGraph};
ghost use Rattle.dc_graph.specs.Faults.{MakesGraph};

use crate::fault::GraphFault;
use crate::judging::graph_fault;
use dc_field::{NoMemory, Refusal};
use std::alloc::Global;
use std::marker::Model;

/// Which stations share pads: 1 to 256 stations, and the edges between them, each with its
/// smaller end first, in rising order.
#[derive(Debug, Drop)]
pub struct Graph {
    stations: u16,
    edges: Vec<(u16, u16)>,
}

impl Model for Graph {
    ghost use Rattle.dc_graph.specs.Graph.{PlainGraph, IsGraph};

    ghost Value = { PlainGraph };

    ghost view = { λ g. record { stations = g.stations; edges = g.edges.items } };

    ghost invariant = { λ g. IsGraph (record { stations = g.stations; edges = g.edges.items }) };
}

impl Graph {
    /// The graph of `n` stations with these edges, in any order, or the first fault.
    pub fn new(alloc: Global, n: u16, edges: &[(u16, u16)]) -> Result<Graph, Refusal<GraphFault>>
        ensures { MakesGraph n edges.now result }
    {
        match graph_fault(alloc, n, edges)? {
            Some(fault) => Err(Refusal::Bad(fault)),
            None => {
                let mut kept = Vec::from_slice(alloc, edges)?;
                kept.sort_unstable();
                Ok(Graph {
                    stations: n,
                    edges: kept,
                })
            }
        }
    }

    /// The graph of `n` stations with these edges, which are in order. It takes no memory.
    pub fn of_rising(n: u16, edges: Vec<(u16, u16)>) -> Graph
        requires { IsGraph (record { stations = n; edges = edges.items }) }
        ensures { result ≡ record { stations = n; edges = edges.items } }
    {
        Graph { stations: n, edges }
    }

    /// The number of stations.
    pub fn stations(&self) -> u16
        ensures value { result ≡ self.now.stations }
        ensures graph { IsGraph self.now }
    {
        self.stations
    }

    /// The number of edges, at most 32640.
    pub fn edge_count(&self) -> u32
        ensures { result ≡ length self.now.edges }
    {
        self.edges.len() as u32
    }

    /// Edge number `i` in rising order.
    pub fn edge(&self, i: u32) -> (u16, u16)
        requires { i < length self.now.edges }
        ensures { slice_get self.now.edges i ≡ Some result }
    {
        self.edges[i as usize]
    }

    /// The edges, in rising order.
    pub fn edges(&self) -> &[(u16, u16)]
        ensures value { result.now ≡ self.now.edges }
        ensures graph { IsGraph self.now }
    {
        self.edges.as_slice()
    }

    /// Whether an edge joins two stations, whichever of them is named first.
    pub fn has(&self, u: u16, v: u16) -> bool
        ensures { result ≡ has_edge self.now.edges u v }
    {
        self.edges
            .iter()
            .any(|e| (e.0 == u && e.1 == v) || (e.0 == v && e.1 == u))
    }

    /// A copy of the graph.
    pub fn copy(&self, alloc: Global) -> Result<Graph, NoMemory>
        ensures { IfOk result (λ g. g ≡ self.now) }
    {
        let edges = Vec::from_slice(alloc, self.edges.as_slice())?;
        Ok(Graph {
            stations: self.stations,
            edges,
        })
    }
}
