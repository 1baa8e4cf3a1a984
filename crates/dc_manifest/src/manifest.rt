//! A manifest.

use dc_field::{Items, Text};
use dc_graph::{Coalition, Graph};
use std::marker::Model;

/// Names of files.
pub type Names = Items<Text>;

/// What a manifest names: the key graph of a net, its coalition, the length of its session and
/// its files. Its pads are at most 2^26: 32 for each edge and word.
#[derive(Debug, Drop)]
pub struct Manifest {
    /// The stations and edges.
    pub graph: Graph,
    /// Stations of the graph.
    pub coalition: Coalition,
    /// 1 to 4096: the number of words, which is the number of rounds of a session.
    pub words: u16,
    /// The name of the key file.
    pub keys: Text,
    /// A name for each station, by its number; empty where the station has no stream.
    pub streams: Names,
    /// The name of the script, if there is one.
    pub script: Option<Text>,
}

impl Model for Manifest {
    ghost use Rattle.dc_manifest.specs.Content.{Content, IsContent};

    ghost Value = { Content };

    ghost view = { λ m. record { graph = m.graph; coalition = m.coalition; words = m.words; keys = m.keys; streams = m.streams; script = m.script } };

    ghost invariant = { λ m. IsContent (record { graph = m.graph; coalition = m.coalition; words = m.words; keys = m.keys; streams = m.streams; script = m.script }) };
}
