//! What a forest keeps of each station.

ghost use Rattle.std.specs.Prelude.{◌≡◌, ◌*◌, ◌<◌, length, map, find, IfOk};
ghost use Rattle.std.specs.List.{range_with_len};
ghost use Rattle.dc_graph.specs.Walk.{root_of, distance_of};
ghost use Rattle.dc_graph.specs.Forest.{is_step_nearer, place_found};

use crate::walk::Found;
use dc_field::NoMemory;
use std::alloc::Global;

/// A station of a forest: whether it is a member of the coalition, the root of its part, and its
/// parent, which roots and members do not have.
#[derive(Clone, Copy, Debug)]
pub(crate) struct Place {
    pub(crate) is_member: bool,
    pub(crate) root: u16,
    pub(crate) parent: Option<u16>,
}

/// The places of `n` stations, after a walk over a table with a flag for each two of them.
pub(crate) fn places(
    alloc: Global,
    n: u16,
    members: &[bool],
    table: &[bool],
    found: &[Option<Found>],
) -> Result<Vec<Place>, NoMemory>
    requires members { length members.now ≡ n }
    requires table { length table.now ≡ n * n }
    requires found { length found.now ≡ n }
    ensures { IfOk result (λ p.
        p.items ≡ map (place_found n members.now table.now found.now) (range_with_len 0 n)) }
{
    let mut places = Vec::with_capacity(alloc, usize::from(n))?;
    for v in 0..n {
        places.push(Place {
            is_member: members[usize::from(v)],
            root: root(found, v),
            parent: parent(n, table, found, v),
        })?;
    }
    Ok(places)
}

/// The least neighbour of station `v` that is one step nearer to the root.
fn parent(n: u16, table: &[bool], found: &[Option<Found>], v: u16) -> Option<u16>
    requires station { v < n }
    requires table { length table.now ≡ n * n }
    requires found { length found.now ≡ n }
    ensures { result ≡ find (is_step_nearer n table.now found.now v) (range_with_len 0 n) }
{
    (0..n).find(|u| is_nearer(n, table, found, v, *u))
}

/// Whether station `u` has an edge with station `v` and is one step nearer to the root.
fn is_nearer(n: u16, table: &[bool], found: &[Option<Found>], v: u16, u: u16) -> bool
    requires stations { (u < n) × (v < n) }
    requires table { length table.now ≡ n * n }
    requires found { length found.now ≡ n }
    ensures { result ≡ is_step_nearer n table.now found.now v u }
{
    table[usize::from(u) * usize::from(n) + usize::from(v)]
        && u32::from(distance(found, u)) + 1 == u32::from(distance(found, v))
}

/// The root that a station was found from.
fn root(found: &[Option<Found>], v: u16) -> u16
    requires { v < length found.now }
    ensures { result ≡ root_of found.now v }
{
    match found[usize::from(v)] {
        Some(at) => at.root,
        None => 0,
    }
}

/// The distance of a station from there.
fn distance(found: &[Option<Found>], v: u16) -> u16
    requires { v < length found.now }
    ensures { result ≡ distance_of found.now v }
{
    match found[usize::from(v)] {
        Some(at) => at.distance,
        None => 0,
    }
}
