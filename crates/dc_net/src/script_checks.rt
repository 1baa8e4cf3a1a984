//! Whether a script has the words that a run needs.

ghost use Rattle.std.specs.Prelude.{◌≡◌};
ghost use Rattle.dc_formats.specs.ScriptFile.{IsTurn};
ghost use Rattle.dc_net_rules.specs.Runs.{honest_stations};
ghost use Rattle.dc_net_rules.specs.Agreement.{station_fault, delivery_fault};
ghost use Rattle.dc_net.specs.Stations.{AreFlags};
ghost use Rattle.dc_net.specs.Tests.{as_fault, rounds_test, stations_tests, deliveries_test, rules_test, script_test};

use crate::fault::NetFault;
use crate::net::Net;
use crate::script_rules::rule_fault;
use crate::script_stations::wrong_station;
use crate::stations::STATIONS;
use dc_script::{Delivery, Round};

/// The first fault of the script.
pub(crate) fn script_fault(net: &Net, flags: &[bool; STATIONS], honest: &[u16]) -> Option<NetFault>
    requires flags { AreFlags net.now.coalition flags.now }
    requires honest { honest.now ≡ honest_stations net.now }
    ensures { result ≡ as_fault (script_test net.now) }
{
    if let Some(fault) = rounds_fault(net) {
        return Some(fault);
    }
    if let Some(fault) = stations_fault(net, honest) {
        return Some(fault);
    }
    match deliveries_fault(net) {
        Some(fault) => Some(fault),
        None => rules_fault(net, flags),
    }
}

/// Whether the script has another number of rounds than the session has words.
fn rounds_fault(net: &Net) -> Option<NetFault>
    ensures { result ≡ as_fault (rounds_test net.now) }
{
    let script = &net.script;
    let rounds = script.rounds.as_slice().len() as u32;
    if rounds == u32::from(net.words) {
        return None;
    }
    Some(NetFault::ScriptRounds {
        told: rounds,
        net: net.words,
    })
}

/// The first round whose words are not those of the members, or of the honest stations.
fn stations_fault(net: &Net, honest: &[u16]) -> Option<NetFault>
    requires { honest.now ≡ honest_stations net.now }
    ensures { result ≡ as_fault (stations_tests net.now) }
{
    let script = &net.script;
    let rounds = script.rounds.as_slice();
    for i in 0..rounds.len() {
        match station_fault(net, honest, i as u16, &rounds[i]) {
            Some(fault) => return Some(fault),
            None => {}
        }
    }
    None
}

/// The fault of the stations of one round.
fn station_fault(net: &Net, honest: &[u16], round: u16, turn: &Round) -> Option<NetFault>
    requires honest { honest.now ≡ honest_stations net.now }
    requires turn { IsTurn round turn.now }
    ensures { result ≡ as_fault (station_fault net.now (round, turn.now)) }
{
    match wrong_station(net, honest, turn) {
        Some(station) => Some(NetFault::ScriptStation { round, station }),
        None => None,
    }
}

/// The first round that delivers something else than the sum where there is no coalition.
fn deliveries_fault(net: &Net) -> Option<NetFault>
    ensures { result ≡ as_fault (deliveries_test net.now) }
{
    let script = &net.script;
    let rounds = script.rounds.as_slice();
    for i in 0..rounds.len() {
        match delivery_fault(net, i as u16, &rounds[i]) {
            Some(fault) => return Some(fault),
            None => {}
        }
    }
    None
}

/// The fault of the delivery of one round.
fn delivery_fault(net: &Net, round: u16, turn: &Round) -> Option<NetFault>
    ensures { result ≡ as_fault (delivery_fault net.now (round, turn.now)) }
{
    match turn.delivery {
        Delivery::Sum => None,
        Delivery::Each { .. } => {
            if net.coalition.len() == 0 {
                Some(NetFault::ScriptDelivery { round })
            } else {
                None
            }
        }
    }
}

/// The first round with a faulty term.
fn rules_fault(net: &Net, flags: &[bool; STATIONS]) -> Option<NetFault>
    requires { AreFlags net.now.coalition flags.now }
    ensures { result ≡ as_fault (rules_test net.now) }
{
    let script = &net.script;
    let rounds = script.rounds.as_slice();
    for i in 0..rounds.len() {
        match rule_fault(net, flags, i as u16, &rounds[i]) {
            Some(fault) => return Some(fault),
            None => {}
        }
    }
    None
}
