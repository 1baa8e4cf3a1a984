//! The steering of two neighbours of a net.

ghost use Rattle.std.specs.Prelude.{◌≡◌, None, IfOk};
ghost use Rattle.dc_spec.specs.Net.{Net as NetValue};
ghost use Rattle.dc_net_rules.specs.Nets.{IsNet};
ghost use Rattle.dc_net_rules.specs.Runs.{run_of};
ghost use Rattle.dc_steering_rules.specs.Counting.{IsSteeredTo};
ghost use Rattle.dc_steer.specs.Tests.{ends_fault as ends_fault_of};
ghost use Rattle.dc_steer.specs.Steered.{SteerAnswer, with_new_keys};

use crate::changes::{first_differing, pad_changes};
use crate::end_checks::ends_fault;
use crate::fault::SteerFault;
use crate::gains::gains;
use crate::received::received_words;
use crate::round_checks::rounds_fault;
use crate::steered_keys::steered_keys;
use dc_field::{Refusal, Syms, Words};
use dc_keys::KeyFile;
use dc_net::{CheckedNet, Net, Played};
use std::alloc::Global;
use std::marker::Model;

/// Where two neighbours of a net first received different symbols, how the pads of their pair
/// change, and the key file of the net with these changes.
#[derive(Drop)]
pub struct Steered {
    /// The round of the first difference.
    pub round: u16,
    /// The place of the first difference in the word of that round, 0 to 15.
    pub symbol: u8,
    /// What is added to each first pad, modulo 65537: `16 * T` symbols in a session of T words.
    pub first: Syms,
    /// What is added to each second pad; `16 * T` symbols.
    pub second: Syms,
    /// The key file of the net, in which the pair of the two has the changed pads.
    pub keys: KeyFile,
}

impl Model for Steered {
    ghost use Rattle.dc_steer.specs.Steered.{KeySteering, IsKeySteering};

    ghost Value = { KeySteering };

    ghost view = { λ s. record {
      round = s.round;
      symbol = s.symbol;
      first = s.first;
      second = s.second;
      keys = s.keys;
    } };

    ghost invariant = { λ s. IsKeySteering (record {
      round = s.round;
      symbol = s.symbol;
      first = s.first;
      second = s.second;
      keys = s.keys;
    }) };
}

/// The steering of stations `u < v`, honest neighbours, towards a wanted word for each round after
/// that of their first difference: with the changed keys the sums of these rounds are the wanted
/// words. The condition is that the run is the net's run.
///
/// A refusal is the first test that fails, in the order of `SteerFault`. A number that is no station
/// has no edge. The rule is this project's own; it rests on history-bound keys (Waidner 1989).
pub fn steer(
    alloc: Global,
    net: &CheckedNet,
    run: &Played,
    u: u16,
    v: u16,
    wanted: &Words,
) -> Result<Steered, Refusal<SteerFault>>
    requires run { run.now ≡ run_of net.now }
    // The steering, or the fault of the first test that fails.
    ensures exact { SteerAnswer net.now u v wanted.now result }
    // With the new keys the later sums are the wanted words, all words up to the round of the first
    // difference stay, and so does each word of each station but v.
    ensures wanted { IfOk result (λ s. IsSteeredTo net.now v s.round wanted.now (with_new_keys net.now s.keys)) }
{
    let parts = net.net();
    match ends_fault(parts, u, v) {
        Some(fault) => Err(Refusal::Bad(fault)),
        None => steer_neighbours(alloc, parts, run, u, v, wanted),
    }
}

/// As `steer`, for honest neighbours.
fn steer_neighbours(
    alloc: Global,
    net: &Net,
    run: &Played,
    u: u16,
    v: u16,
    wanted: &Words,
) -> Result<Steered, Refusal<SteerFault>>
    requires net { IsNet net.now }
    requires run { run.now ≡ run_of net.now }
    requires ends { ends_fault_of net.now u v ≡ None }
    ensures exact { SteerAnswer net.now u v wanted.now result }
    ensures wanted { IfOk result (λ s. IsSteeredTo net.now v s.round wanted.now (with_new_keys net.now s.keys)) }
{
    let cu = received_words(alloc, net, run, u)?;
    let cv = received_words(alloc, net, run, v)?;
    let p = first_differing(alloc, &cu, &cv)?;
    match rounds_fault(net, p, wanted) {
        Some(fault) => return Err(Refusal::Bad(fault)),
        None => {}
    }
    let gains = gains(alloc, run.sums.as_slice(), p / 16 + 1, wanted.as_slice())?;
    let changes = pad_changes(alloc, &cu, &cv, &gains)?;
    let keys = steered_keys(alloc, &net.keys, u, v, &changes)?;
    Ok(Steered {
        round: changes.round,
        symbol: changes.symbol,
        first: changes.first,
        second: changes.second,
        keys,
    })
}
