//! The first fault of a list.

ghost use Rattle.std.specs.Prelude.{◌≡◌, ◌-◌, ◌*◌, ◌^◌, ◌≤◌, ◌<◌, min, ℕ, List, length, take, false, slice_index_or, replicate, IfOk};
ghost use Rattle.dc_spec.specs.Limits.{most_stations};
ghost use Rattle.dc_spec.specs.Lists.{is_among};
ghost use Rattle.dc_graph.specs.Faults.{reported_place, joins, is_faulty_member, first_pair_fault, graph_fault as graph_fault_of, member_fault as member_fault_of};

use crate::fault::{GraphFault, MemberFault};
use dc_field::{MOST_STATIONS, NoMemory};
use std::alloc::Global;

/// The first fault of a number of stations and a list of pairs. A table with a flag for each two
/// stations shows which pairs came before, so each pair is looked at once.
pub(crate) fn graph_fault(
    alloc: Global,
    n: u16,
    edges: &[(u16, u16)],
) -> Result<Option<GraphFault>, NoMemory>
    ensures { IfOk result (λ o. o ≡ graph_fault_of n edges.now) }
{
    if n < 1 || MOST_STATIONS < n {
        return Ok(Some(GraphFault::Stations { seen: n }));
    }
    let count = usize::from(n) * usize::from(n);
    let mut seen = vec![in alloc; false; count]?;
    Ok(pair_fault(n, edges, &mut seen))
}

/// The first pair that is not an edge or came before, with a table in which no flag is set yet.
fn pair_fault(n: u16, edges: &[(u16, u16)], seen: &mut [bool]) -> Option<GraphFault>
    requires stations { n ≤ most_stations }
    requires table { seen.old ≡ replicate (n * n) false }
    ensures { result ≡ first_pair_fault n edges.now }
{
    for i in 0..edges.len() {
        let (u, v) = edges[i];
        if !is_edge(n, u, v) {
            return Some(GraphFault::Ends { place: reported(i) });
        }
        let at = usize::from(u) * usize::from(n) + usize::from(v);
        if seen[at] {
            return Some(GraphFault::Repeated { place: reported(i) });
        }
        seen[at] = true;
    }
    None
}

/// The first number that is not a station or came before. At most as many numbers as there are
/// stations come before it.
pub(crate) fn member_fault(n: u16, members: &[u16]) -> Option<MemberFault>
    ensures { result ≡ member_fault_of n members.now }
{
    for i in 0..members.len() {
        if is_faulty(n, members, i) {
            return Some(MemberFault { place: reported(i) });
        }
    }
    None
}

/// Whether a pair joins two of `n` stations, the smaller one first.
fn is_edge(n: u16, u: u16, v: u16) -> bool
    ensures { result ≡ joins n (u, v) }
{
    u < v && v < n
}

/// Whether the number at a place is not a station, or is at an earlier place too.
fn is_faulty(n: u16, members: &[u16], i: usize) -> bool
    requires { i < length members.now }
    ensures { result ≡ is_faulty_member n members.now i }
{
    n <= members[i] || is_in(&members[..i], members[i])
}

/// Whether a number is in a list.
pub(crate) fn is_in(members: &[u16], m: u16) -> bool
    ensures { result ≡ is_among members.now m }
{
    members.iter().any(|x| *x == m)
}

/// A place as a fault reports it: at most the greatest `u32`.
fn reported(place: usize) -> u32
    ensures { result ≡ reported_place place }
{
    u32::try_from(place).unwrap_or(u32::MAX)
}
