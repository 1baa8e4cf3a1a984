//! Whether later sums of a net can be steered to wanted words.

ghost use Rattle.std.specs.Prelude.{◌≡◌, ◌*◌, ◌/◌, ◌<◌, ◌≤◌, ◌==◌, not, length};
ghost use Rattle.dc_spec.specs.Scripts.{delivered_words};
ghost use Rattle.dc_net_rules.specs.Nets.{IsNet};
ghost use Rattle.dc_net_rules.specs.Runs.{script_turn};
ghost use Rattle.dc_net_rules.specs.Agreement.{is_sum};
ghost use Rattle.dc_script.specs.Delivered.{delivered};
ghost use Rattle.dc_steer.specs.Faults.{difference_fault, sum_fault, have_terms, has_terms, term_fault, count_fault};
ghost use Rattle.dc_steer.specs.Tests.{later_fault, rounds_fault};

use crate::fault::SteerFault;
use dc_field::Words;
use dc_net::Net;
use dc_script::{Delivery, Round, Said};

/// The fault where the two stations first received different symbols at number `p`, the number of
/// all symbols where they never did.
pub(crate) fn rounds_fault(net: &Net, p: usize, wanted: &Words) -> Option<SteerFault>
    requires { IsNet net.now }
    ensures { result ≡ rounds_fault net.now p wanted.now }
{
    if p < 16 * usize::from(net.words) {
        later_fault(net, (p / 16) as u16, wanted)
    } else {
        Some(SteerFault::NeverDiffered)
    }
}

/// The fault of the rounds after round `s`.
fn later_fault(net: &Net, s: u16, wanted: &Words) -> Option<SteerFault>
    requires net { IsNet net.now }
    requires round { s < net.now.words }
    ensures { result ≡ later_fault net.now s wanted.now }
{
    if let Some(fault) = sum_fault(net, s) {
        return Some(fault);
    }
    match term_fault(net, s) {
        Some(fault) => Some(fault),
        None => count_fault(net, s, wanted),
    }
}

/// The first round after round `s` that delivers the sum.
fn sum_fault(net: &Net, s: u16) -> Option<SteerFault>
    requires net { IsNet net.now }
    requires round { s < net.now.words }
    ensures { result ≡ sum_fault net.now s }
{
    for t in s + 1..net.words {
        if delivers_sum(net, t) {
            return Some(SteerFault::SumDelivery { round: t });
        }
    }
    None
}

/// The first round after round `s` with a term.
fn term_fault(net: &Net, s: u16) -> Option<SteerFault>
    requires net { IsNet net.now }
    requires round { s < net.now.words }
    ensures { result ≡ term_fault net.now s }
{
    for t in s + 1..net.words {
        if has_terms(turn_of(net, t)) {
            return Some(SteerFault::RuledRound { round: t });
        }
    }
    None
}

/// Whether there is not one wanted word for each round after round `s`.
fn count_fault(net: &Net, s: u16, wanted: &Words) -> Option<SteerFault>
    requires { s < net.now.words }
    ensures { result ≡ count_fault net.now s wanted.now }
{
    let have = wanted.as_slice().len();
    let need = net.words - (s + 1);
    if have == usize::from(need) {
        return None;
    }
    Some(SteerFault::WantedWords {
        have: have.min(4294967295) as u32,
        need,
    })
}

/// The script's round of this number.
fn turn_of(net: &Net, t: u16) -> &Round
    requires net { IsNet net.now }
    requires round { t < net.now.words }
    ensures { result.now ≡ script_turn net.now t }
{
    let script = &net.script;
    &script.rounds.as_slice()[usize::from(t)]
}

/// Whether a round delivers the sum.
fn delivers_sum(net: &Net, t: u16) -> bool
    requires net { IsNet net.now }
    requires round { t < net.now.words }
    ensures { result ≡ is_sum (script_turn net.now t).delivery }
{
    match turn_of(net, t).delivery {
        Delivery::Sum => true,
        Delivery::Each { .. } => false,
    }
}

/// Whether a word that is said or dealt in a round has a term.
fn has_terms(turn: &Round) -> bool
    ensures { result ≡ has_terms turn.now }
{
    have_terms(turn.says.as_slice()) || deals_terms(&turn.delivery)
}

/// Whether a word that is dealt has a term.
fn deals_terms(delivery: &Delivery) -> bool
    ensures { result ≡ have_terms (delivered_words (delivered delivery.now)) }
{
    match delivery {
        Delivery::Sum => false,
        Delivery::Each { words } => have_terms(words.as_slice()),
    }
}

/// Whether one of these words has a term.
fn have_terms(listed: &[Said]) -> bool
    ensures { result ≡ have_terms listed.now }
{
    listed.iter().any(|said| has_term(said))
}

/// Whether a word has a term.
fn has_term(said: &Said) -> bool
    ensures { result ≡ not (length said.now.terms == 0) }
{
    !said.terms.as_slice().is_empty()
}
