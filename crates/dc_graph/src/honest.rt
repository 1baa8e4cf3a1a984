//! The honest edges of a key graph: those with no end in the coalition.

ghost use Rattle.std.specs.Prelude.{◌≡◌, ◌*◌, ◌<◌, ◌||◌, ◌&&◌, not, nat_eq, ◌∷◌, [], ℕ, List, length, map, false, slice_index_or, replicate, All, IfOk};
ghost use Rattle.std.specs.List.{range_with_len};
ghost use Rattle.dc_spec.specs.Lists.{is_among};
ghost use Rattle.dc_graph_rules.specs.Graphs.{has_edge};
ghost use Rattle.dc_graph.specs.Graph.{IsEdge, with_coalition};
ghost use Rattle.dc_graph.specs.Walk.{edge_at, IsTableOf};

use crate::coalition::Coalition;
use crate::graph::Graph;
use dc_field::NoMemory;
use std::alloc::Global;

/// For each station whether it is a member.
pub(crate) fn member_flags(alloc: Global, n: u16, c: &Coalition) -> Result<Vec<bool>, NoMemory>
    ensures { IfOk result (λ m. m.items ≡ map (is_among c.now) (range_with_len 0 n)) }
{
    let mut flags = Vec::with_capacity(alloc, usize::from(n))?;
    for v in 0..n {
        flags.push(c.holds(v))?;
    }
    Ok(flags)
}

/// A table with a flag for each two stations, set where they have an honest edge.
pub(crate) fn honest_edges(
    alloc: Global,
    g: &Graph,
    members: &[bool],
) -> Result<Vec<bool>, NoMemory>
    requires { length members.now ≡ g.now.stations }
    ensures { (c : List ℕ) → members.now ≡ map (is_among c) (range_with_len 0 g.now.stations) →
        IfOk result (λ t. IsTableOf (with_coalition g.now c) t.items) }
{
    let n = g.stations();
    let mut table = vec![in alloc; false; usize::from(n) * usize::from(n)]?;
    mark_edges(n, g.edges(), members, &mut table);
    Ok(table)
}

/// Sets the flags of the honest edges in a table in which no flag is set yet.
fn mark_edges(n: u16, edges: &[(u16, u16)], members: &[bool], table: &mut [bool])
    requires edges { All (IsEdge n) edges.now }
    requires members { length members.now ≡ n }
    requires table { table.old ≡ replicate (n * n) false }
    ensures wide { length table.new ≡ n * n }
    ensures flags { (u v : ℕ) → u < n → v < n → edge_at n table.new u v
        ≡ (has_edge edges.now u v
        && not (slice_index_or members.now u false || slice_index_or members.now v false)) }
{
    for e in edges {
        mark_edge(n, e, members, table);
    }
}

/// Sets the two flags of an edge where it is honest.
fn mark_edge(n: u16, e: &(u16, u16), members: &[bool], table: &mut [bool])
    requires edge { IsEdge n e.now }
    requires members { length members.now ≡ n }
    requires wide { length table.old ≡ n * n }
    ensures wide { length table.new ≡ n * n }
    ensures flags { (u v : ℕ) → u < n → v < n → edge_at n table.new u v
        ≡ (edge_at n table.old u v || (has_edge (e.now ∷ []) u v
        && not (slice_index_or members.now u false || slice_index_or members.now v false))) }
{
    let (u, v) = *e;
    if members[usize::from(u)] || members[usize::from(v)] {
        return;
    }
    mark(n, u, v, table);
    mark(n, v, u, table);
}

/// Sets the flag of one station and another.
fn mark(n: u16, u: u16, v: u16, table: &mut [bool])
    requires stations { (u < n) × (v < n) }
    requires wide { length table.old ≡ n * n }
    ensures wide { length table.new ≡ n * n }
    ensures flags { (x y : ℕ) → x < n → y < n → edge_at n table.new x y
        ≡ (edge_at n table.old x y || (nat_eq u x && nat_eq v y)) }
{
    table[usize::from(u) * usize::from(n) + usize::from(v)] = true;
}
