//! Whether a key file is for the stations, words and edges of a net.

ghost use Rattle.std.specs.Prelude.{◌≡◌};
ghost use Rattle.dc_net_rules.specs.Agreement.{missing_key, stray_key};
ghost use Rattle.dc_net.specs.Tests.{as_fault, sizes_test, keys_test};

use crate::ends::first_absent;
use crate::fault::NetFault;
use crate::net::Net;

/// The first fault of the keys.
pub(crate) fn keys_fault(net: &Net) -> Option<NetFault>
    ensures { result ≡ as_fault (keys_test net.now) }
{
    if let Some(fault) = sizes_fault(net) {
        return Some(fault);
    }
    match missing_key(net) {
        Some(fault) => Some(fault),
        None => stray_key(net),
    }
}

/// Whether the key file is for another number of stations, and then of words.
fn sizes_fault(net: &Net) -> Option<NetFault>
    ensures { result ≡ as_fault (sizes_test net.now) }
{
    let keys = &net.keys;
    let stations = net.graph.stations();
    if keys.stations != stations {
        return Some(NetFault::KeyStations {
            told: keys.stations,
            net: stations,
        });
    }
    if keys.words != net.words {
        return Some(NetFault::KeyWords {
            told: keys.words,
            net: net.words,
        });
    }
    None
}

/// The first edge without a pair. Edges and pairs are in rising order.
fn missing_key(net: &Net) -> Option<NetFault>
    ensures { result ≡ as_fault (missing_key net.now) }
{
    let keys = &net.keys;
    let absent = first_absent(net.graph.edges(), keys.pairs.as_slice());
    match absent {
        Some(e) => Some(NetFault::KeyMissing { u: e.0, v: e.1 }),
        None => None,
    }
}

/// The first pair that is no edge.
fn stray_key(net: &Net) -> Option<NetFault>
    ensures { result ≡ as_fault (stray_key net.now) }
{
    let keys = &net.keys;
    let absent = first_absent(keys.pairs.as_slice(), net.graph.edges());
    match absent {
        Some(e) => Some(NetFault::KeyStray { u: e.0, v: e.1 }),
        None => None,
    }
}
