//! Whether the rules of a script name words that are there.

ghost use Rattle.std.specs.Prelude.{◌≡◌, ◌||◌, ◌∷◌, []};
ghost use Rattle.dc_net_rules.specs.Agreement.{first_of, names_no_station, names_member_now, say_by_faulty_rule, dealt_by_faulty_rule, rule_fault};
ghost use Rattle.dc_spec.specs.Scripts.{each};
ghost use Rattle.dc_script.specs.Delivered.{delivered};
ghost use Rattle.dc_net.specs.Stations.{AreFlags};
ghost use Rattle.dc_net.specs.Tests.{as_fault, is_said_by_faulty_rule, is_dealt_by_faulty_rule};

use crate::fault::NetFault;
use crate::net::Net;
use crate::stations::{STATIONS, is_member};
use dc_script::{Delivery, Round, Said, Term};

/// The fault of the rules of one round.
pub(crate) fn rule_fault(
    net: &Net,
    flags: &[bool; STATIONS],
    round: u16,
    turn: &Round,
) -> Option<NetFault>
    requires { AreFlags net.now.coalition flags.now }
    ensures { result ≡ as_fault (rule_fault net.now (round, turn.now)) }
{
    match faulty_word(net, flags, round, turn) {
        Some(station) => Some(NetFault::ScriptRule { round, station }),
        None => None,
    }
}

/// The station of the first word of a round with a faulty term, words said before words dealt.
fn faulty_word(net: &Net, flags: &[bool; STATIONS], round: u16, turn: &Round) -> Option<u16>
    requires { AreFlags net.now.coalition flags.now }
    ensures { result ≡ first_of
        (say_by_faulty_rule net.now round turn.now.says
        ∷ dealt_by_faulty_rule net.now turn.now.delivery ∷ []) }
{
    match faulty_say(net, flags, round, turn.says.as_slice()) {
        Some(station) => Some(station),
        None => faulty_dealt(net, &turn.delivery),
    }
}

/// The station of the first word said that has a faulty term.
fn faulty_say(net: &Net, flags: &[bool; STATIONS], round: u16, says: &[Said]) -> Option<u16>
    requires { AreFlags net.now.coalition flags.now }
    ensures { result ≡ say_by_faulty_rule net.now round says.now }
{
    for said in says {
        if is_faulty_say(net, flags, round, said) {
            return Some(said.station);
        }
    }
    None
}

/// The station of the first word dealt that has a faulty term.
fn faulty_dealt(net: &Net, delivery: &Delivery) -> Option<u16>
    ensures { result ≡ dealt_by_faulty_rule net.now (delivered delivery.now) }
{
    match delivery {
        Delivery::Sum => None,
        Delivery::Each { words } => faulty_among(net, words.as_slice()),
    }
}

/// The station of the first of some words that names a station that there is not.
fn faulty_among(net: &Net, dealt: &[Said]) -> Option<u16>
    ensures { result ≡ dealt_by_faulty_rule net.now (each dealt.now) }
{
    for said in dealt {
        if is_faulty_dealt(net, said) {
            return Some(said.station);
        }
    }
    None
}

/// Whether a word said has a faulty term.
fn is_faulty_say(net: &Net, flags: &[bool; STATIONS], round: u16, said: &Said) -> bool
    requires { AreFlags net.now.coalition flags.now }
    ensures { result ≡ is_said_by_faulty_rule net.now round said.now }
{
    let terms = said.terms.as_slice();
    terms
        .iter()
        .any(|term| is_faulty_in_say(net, flags, round, term))
}

/// Whether a word dealt has a faulty term.
fn is_faulty_dealt(net: &Net, said: &Said) -> bool
    ensures { result ≡ is_dealt_by_faulty_rule net.now said.now }
{
    let terms = said.terms.as_slice();
    terms.iter().any(|term| is_no_station(net, term))
}

/// Whether a term of a word said names a station that there is not, or a member's word of the same
/// round.
fn is_faulty_in_say(net: &Net, flags: &[bool; STATIONS], round: u16, term: &Term) -> bool
    requires { AreFlags net.now.coalition flags.now }
    ensures { result ≡
        (names_no_station net.now term.now || names_member_now net.now round term.now) }
{
    is_no_station(net, term) || (term.round == round && is_member(flags, term.station))
}

/// Whether a term names a station that there is not.
fn is_no_station(net: &Net, term: &Term) -> bool
    ensures { result ≡ names_no_station net.now term.now }
{
    net.graph.stations() <= term.station
}
