//! Whether the stations of words are those that should have one.

ghost use Rattle.std.specs.Prelude.{◌≡◌, ◌∷◌, []};
ghost use Rattle.std.specs.List.Sorted.{IsStrictlyIncreasing};
ghost use Rattle.dc_spec.specs.Net.{Net as NetValue};
ghost use Rattle.dc_spec.specs.Scripts.{stations_of, delivered_words};
ghost use Rattle.dc_net_rules.specs.Runs.{honest_stations};
ghost use Rattle.dc_net_rules.specs.Agreement.{first_of, least_in_one, station_dealt};
ghost use Rattle.dc_script.specs.Delivered.{delivered};

use crate::net::Net;
use dc_script::{Delivery, Round, Said};

/// The least station that has a word in a round and should have none, or the other way round: the
/// words said are compared with the members, and then the words dealt with the honest stations.
pub(crate) fn wrong_station(net: &Net, honest: &[u16], turn: &Round) -> Option<u16>
    requires honest { honest.now ≡ honest_stations net.now }
    requires said { IsStrictlyIncreasing (stations_of turn.now.says) }
    requires dealt { IsStrictlyIncreasing (stations_of (delivered_words turn.now.delivery)) }
    ensures { result ≡ first_of
        (least_in_one (stations_of turn.now.says) net.now.coalition
        ∷ station_dealt net.now turn.now.delivery ∷ []) }
{
    match least_in_one(turn.says.as_slice(), net.coalition.members()) {
        Some(station) => Some(station),
        None => wrong_dealt(honest, &turn.delivery),
    }
}

/// The least station to which a word is dealt that is not honest, or the other way round.
fn wrong_dealt(honest: &[u16], delivery: &Delivery) -> Option<u16>
    requires honest { IsStrictlyIncreasing honest.now }
    requires dealt { IsStrictlyIncreasing (stations_of (delivered_words (delivered delivery.now))) }
    ensures { (net : NetValue) → honest.now ≡ honest_stations net
        → result ≡ station_dealt net (delivered delivery.now) }
{
    match delivery {
        Delivery::Sum => None,
        Delivery::Each { words } => least_in_one(words.as_slice(), honest),
    }
}

/// The least station that is in one of two lists only: the stations of some words, and others. Both
/// lists rise, so it is one of the two numbers at the first place where they differ.
pub(crate) fn least_in_one(listed: &[Said], stations: &[u16]) -> Option<u16>
    requires listed { IsStrictlyIncreasing (stations_of listed.now) }
    requires stations { IsStrictlyIncreasing stations.now }
    ensures { result ≡ least_in_one (stations_of listed.now) stations.now }
{
    for i in 0..listed.len() {
        let said = &listed[i];
        let station = said.station;
        if i == stations.len() {
            return Some(station);
        }
        if station != stations[i] {
            return Some(station.min(stations[i]));
        }
    }
    if listed.len() < stations.len() {
        return Some(stations[listed.len()]);
    }
    None
}
