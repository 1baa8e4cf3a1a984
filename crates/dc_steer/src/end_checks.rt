//! Whether two stations are honest neighbours.

ghost use Rattle.std.specs.Prelude.{◌≡◌};
ghost use Rattle.dc_steer.specs.Faults.{edge_fault, member_fault};
ghost use Rattle.dc_steer.specs.Tests.{ends_fault};

use crate::fault::SteerFault;
use dc_net::Net;

/// The fault of the two stations.
pub(crate) fn ends_fault(net: &Net, u: u16, v: u16) -> Option<SteerFault>
    ensures { result ≡ ends_fault net.now u v }
{
    match edge_fault(net, u, v) {
        Some(fault) => Some(fault),
        None => member_fault(net, u, v),
    }
}

/// Whether the two are not the smaller and the larger end of an edge.
fn edge_fault(net: &Net, u: u16, v: u16) -> Option<SteerFault>
    ensures { result ≡ edge_fault net.now u v }
{
    if u < v && net.graph.has(u, v) {
        None
    } else {
        Some(SteerFault::NotNeighbours { u, v })
    }
}

/// The first of the two that is a member.
fn member_fault(net: &Net, u: u16, v: u16) -> Option<SteerFault>
    ensures { result ≡ member_fault net.now u v }
{
    if net.coalition.holds(u) {
        Some(SteerFault::NotHonest { station: u })
    } else if net.coalition.holds(v) {
        Some(SteerFault::NotHonest { station: v })
    } else {
        None
    }
}
