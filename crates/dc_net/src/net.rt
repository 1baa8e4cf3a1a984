//! A net: all that a session depends on.

use dc_field::Items;
use dc_graph::{Coalition, Graph};
use dc_keys::KeyFile;
use dc_script::Script;
use dc_stream::Stream;
use std::marker::Model;

/// The stream of each station that has one, by station.
pub type Streams = Items<Option<Stream>>;

/// A net. Nothing is said yet on whether its parts agree. Contracts see the protocol's record of
/// it.
#[derive(Drop)]
pub struct Net {
    /// The stations and edges.
    pub graph: Graph,
    /// Stations of the graph that work together.
    pub coalition: Coalition,
    /// The pads.
    pub keys: KeyFile,
    /// By station.
    pub streams: Streams,
    /// What the coalition says, and what it delivers.
    pub script: Script,
    /// The number of words, one a round, of the session.
    pub words: u16,
}

impl Model for Net {
    ghost use Rattle.dc_spec.specs.Net.{Net as NetValue};

    ghost Value = { NetValue };

    ghost view = { λ n. record {
      stations = n.graph.stations;
      edges = n.graph.edges;
      coalition = n.coalition;
      keys = n.keys;
      streams = n.streams;
      script = n.script;
      words = n.words;
    } };
}
