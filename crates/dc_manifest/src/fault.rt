//! Why bytes are no manifest.

use dc_field::Text;
use dc_graph::GraphFault;

/// The first fault of a manifest, by the order of these variants.
#[derive(Debug, Drop)]
pub enum ManifestFault {
    /// The bytes are not UTF-8, or not a TOML document.
    Toml,
    /// A field that no manifest has, the first in byte order.
    Unknown {
        /// The name of the field.
        name: Text,
    },
    /// A required field is absent, the first in byte order.
    Field {
        /// The name of the field.
        name: Text,
    },
    /// The value of a field is of another kind, the first in byte order.
    Kind {
        /// The name of the field.
        name: Text,
    },
    /// A number is out of its range, or there are not as many streams as stations.
    Range {
        /// The name of the field.
        name: Text,
        /// The first number that is out of range, or the number of streams.
        seen: i64,
    },
    /// The stations and edges are no key graph.
    Graph(GraphFault),
    /// A member of the coalition is no station, or stands in the list twice.
    Member {
        /// The place of the member in the list, from 0.
        place: u32,
    },
    /// The key file of this net would hold more than 67108864 pads.
    TooLarge {
        /// The number of pads: edges times 32 times words.
        symbols: u64,
    },
}
