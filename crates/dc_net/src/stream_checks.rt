//! Whether each honest station has a stream, and no member has one.

ghost use Rattle.std.specs.Prelude.{◌≡◌, ◌<◌, length};
ghost use Rattle.dc_net_rules.specs.Agreement.{stream_fault};
ghost use Rattle.dc_net.specs.Stations.{AreFlags};
ghost use Rattle.dc_net.specs.Tests.{as_fault, streams_test};

use crate::fault::NetFault;
use crate::net::Net;
use crate::stations::{STATIONS, is_member};

/// The first fault of the streams, station by station.
pub(crate) fn streams_fault(net: &Net, flags: &[bool; STATIONS]) -> Option<NetFault>
    requires streams { length net.now.streams ≡ net.now.stations }
    requires flags { AreFlags net.now.coalition flags.now }
    ensures { result ≡ as_fault (streams_test net.now) }
{
    let stations = net.graph.stations();
    for station in 0..stations {
        match stream_fault(net, flags, station) {
            Some(fault) => return Some(fault),
            None => {}
        }
    }
    None
}

/// The fault of the stream of one station.
fn stream_fault(net: &Net, flags: &[bool; STATIONS], station: u16) -> Option<NetFault>
    requires station { station < length net.now.streams }
    requires flags { AreFlags net.now.coalition flags.now }
    ensures { result ≡ as_fault (stream_fault net.now station) }
{
    let streams = net.streams.as_slice();
    let is_there = streams[usize::from(station)].is_some();
    match (is_member(flags, station), is_there) {
        (true, true) => Some(NetFault::StreamStray { station }),
        (false, false) => Some(NetFault::StreamMissing { station }),
        _ => None,
    }
}
