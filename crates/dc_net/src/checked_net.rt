//! A net whose parts agree.

ghost use Rattle.std.specs.Prelude.{◌≡◌, ◌<◌, length, All};
ghost use Rattle.dc_net_rules.specs.Agreement.{disagreement};
ghost use Rattle.dc_net_rules.specs.Nets.{IsNet};
ghost use Rattle.dc_net.specs.Checked.{IsChecked, Checks};
ghost use Rattle.dc_net.specs.Tests.{as_fault};

use crate::fault::NetFault;
use crate::key_checks::keys_fault;
use crate::net::Net;
use crate::net_rules::note_net;
use crate::script_checks::script_fault;
use crate::stations::{honest_of, member_flags};
use crate::stream_checks::streams_fault;
use std::marker::Model;

/// A net whose parts agree: the keys are for its edges, each honest station has a stream, and the
/// script has the words that a run needs. Contracts see the net.
#[derive(Drop)]
pub struct CheckedNet {
    net: Net,
}

impl Model for CheckedNet {
    ghost use Rattle.dc_spec.specs.Net.{Net as NetValue};
    ghost use Rattle.dc_net_rules.specs.Nets.{IsNet};

    ghost Value = { NetValue };

    ghost view = { λ c. c.net };

    ghost invariant = { λ c. IsNet c.net };
}

impl CheckedNet {
    /// A net whose parts are known to agree, as a checked one.
    pub(crate) fn of_agreeing(net: Net) -> CheckedNet
        requires { IsChecked net }
        ensures { result ≡ net }
    {
        note_net(&net);
        CheckedNet { net }
    }

    /// The net that was checked.
    pub fn net(&self) -> &Net
        ensures value { result.now ≡ self.now }
        ensures checked { IsChecked self.now }
        ensures is_net { IsNet self.now }
    {
        &self.net
    }
}

impl Net {
    /// The net as a checked one, or the fault of the first test that fails, by the order of the
    /// faults. The condition is that the streams have a place for each station and that the members
    /// of the coalition are stations.
    pub fn check(self) -> Result<CheckedNet, NetFault>
        requires streams { length self.streams ≡ self.stations }
        requires members { All (λ m. m < self.stations) self.coalition }
        ensures { Checks self result }
    {
        match net_fault(&self) {
            Some(fault) => Err(fault),
            None => Ok(CheckedNet::of_agreeing(self)),
        }
    }
}

/// The fault of the first test that fails.
fn net_fault(net: &Net) -> Option<NetFault>
    requires streams { length net.now.streams ≡ net.now.stations }
    requires members { All (λ m. m < net.now.stations) net.now.coalition }
    ensures { result ≡ as_fault (disagreement net.now) }
{
    if let Some(fault) = keys_fault(net) {
        return Some(fault);
    }
    let flags = member_flags(net.coalition.members());
    match streams_fault(net, &flags) {
        Some(fault) => Some(fault),
        None => {
            let honest = honest_of(net.graph.stations(), &flags);
            script_fault(net, &flags, honest.as_slice())
        }
    }
}
