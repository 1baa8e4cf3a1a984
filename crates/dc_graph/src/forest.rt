//! The forest of the honest parts, along which a twin shifts pads (this project's own).

ghost use Rattle.std.specs.Prelude.{◌≡◌, ◌<◌, ℕ, length, IfOk};
ghost use Rattle.dc_graph_rules.specs.Graphs.{KeyGraph, is_joined};
ghost use Rattle.dc_graph_rules.specs.Forests.{parent as parent_of, below_sums as below_sums_of};
ghost use Rattle.dc_graph.specs.Graph.{with_coalition};
ghost use Rattle.dc_graph.specs.Forest.{IsForestOf};

use crate::coalition::Coalition;
use crate::graph::Graph;
use crate::honest::{honest_edges, member_flags};
use crate::place::{Place, places};
use crate::upwards::{add_upwards, put_own_words};
use crate::walk::Walk;
use dc_field::{NoMemory, Words};
use std::alloc::Global;
use std::marker::Model;

/// The trees of a key graph without the coalition's keys, one for each part of joined stations. Its
/// root is the least station, and the parent of another station is its least neighbour one step
/// nearer to the root. In contracts it is the list of the stations' places.
#[derive(Debug, Drop)]
pub struct Forest {
    places: Vec<Place>,
    /// Each station once, none before its parent.
    order: Vec<u16>,
}

impl Model for Forest {
    ghost use Rattle.std.specs.Prelude.{List};
    ghost use Rattle.dc_graph.specs.declared.place.Place.{Place};
    ghost use Rattle.dc_graph.specs.Forest.{IsOrder};

    ghost Value = { List Place };

    ghost view = { λ f. f.places.items };

    ghost invariant = { λ f. IsOrder f.places.items f.order.items };
}

impl Forest {
    /// The forest of a key graph and a coalition.
    pub fn of(alloc: Global, g: &Graph, c: &Coalition) -> Result<Forest, NoMemory>
        ensures forest { IfOk result (IsForestOf (with_coalition g.now c.now)) }
        ensures stations { IfOk result (λ f. length f ≡ g.now.stations) }
    {
        let n = g.stations();
        let members = member_flags(alloc, n, c)?;
        let table = honest_edges(alloc, g, &members)?;
        let walk = Walk::of(alloc, n, &table)?;
        let places = places(alloc, n, &members, &table, &walk.found)?;
        Ok(Forest {
            places,
            order: walk.order,
        })
    }

    /// The number of stations, at most 256.
    pub fn stations(&self) -> u16
        ensures { result ≡ length self.now }
    {
        self.places.len() as u16
    }

    /// The parent of a station. Roots and members have none.
    pub fn parent(&self, v: u16) -> Option<u16>
        requires { v < length self.now }
        ensures { (g : KeyGraph) → IsForestOf g self.now → result ≡ parent_of g v }
    {
        self.places[usize::from(v)].parent
    }

    /// Whether a walk along honest edges leads from one station to the other. A station is joined
    /// with itself.
    pub fn joined(&self, u: u16, v: u16) -> bool
        requires { (u < length self.now) × (v < length self.now) }
        ensures { (g : KeyGraph) → IsForestOf g self.now → result ≡ is_joined g u v }
    {
        self.places[usize::from(u)].root == self.places[usize::from(v)].root
    }

    /// Puts the sum of the demands of the stations below station `v` in place `v` of `out`, and the
    /// zero word at members. Both lists have a word for each station. Takes no memory.
    pub fn below_sums(&self, demands: &Words, out: &mut Words)
        requires demands { length demands.now ≡ length self.now }
        requires out { length out.old ≡ length self.now }
        ensures { (g : KeyGraph) → IsForestOf g self.now →
            out.new ≡ below_sums_of g demands.now }
    {
        put_own_words(&self.places, demands.as_slice(), out);
        add_upwards(&self.places, &self.order, out);
    }
}
