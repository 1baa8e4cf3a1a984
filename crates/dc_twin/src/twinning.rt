//! The twin of a net.

ghost use Rattle.std.specs.Prelude.{◌≡◌, IfOk};
ghost use Rattle.dc_spec.specs.Net.{Net as NetValue};
ghost use Rattle.dc_graph_rules.specs.Graphs.{key_graph};
ghost use Rattle.dc_graph.specs.Forest.{IsForestOf};
ghost use Rattle.dc_net.specs.Changed.{AreForSamePairs, PermutesHonest, IsMoved};
ghost use Rattle.dc_net_rules.specs.Runs.{all_rounds, run_of, IsAlike};
ghost use Rattle.dc_run_texts.specs.View.{view_text};
ghost use Rattle.dc_twin_rules.specs.Twins.{Admits, inverse, twin as twin_of};
ghost use Rattle.dc_twin.specs.Twinned.{twinned as twinned_of, TwinAnswer};

use crate::demanding::demands;
use crate::fault::TwinFault;
use crate::judging::twin_fault;
use crate::shifting::shifted_pairs;
use crate::summing::sums_below;
use crate::twinned::Twinned;
use dc_field::{Items, NoMemory, Refusal};
use dc_graph::{Forest, Perm};
use dc_keys::KeyFile;
use dc_net::{CheckedNet, Played};
use std::alloc::Global;

/// The twin of a net by a permutation, or the first reason why there is none. In the twin the image
/// of each station has the stream of that station, and the first pads of the edges of the forest are
/// shifted so that each station still publishes the same words. The condition is that the run is the
/// net's run. The choice of the edges is this project's own.
pub fn twin(
    alloc: Global,
    net: &CheckedNet,
    run: &Played,
    perm: &Perm,
) -> Result<Twinned, Refusal<TwinFault>>
    requires run { run.now ≡ run_of net.now }
    // The twin where no test fails, and else the first fault by the order of the tests.
    ensures exact { TwinAnswer net.now perm.now result }
    // There is a twin only where the net admits the permutation and its honest stations received alike.
    ensures admitted { IfOk result (λ _. Admits net.now perm.now × IsAlike net.now) }
    // The keys are for the same pairs and members stay in place, so the net can be changed by them.
    ensures same_pairs { IfOk result (λ t. AreForSamePairs t.keys net.now.keys) }
    ensures in_place { IfOk result (λ _. PermutesHonest net.now perm.now) }
    // The changed net is the twin.
    ensures changed { IfOk result (λ t. (changed : NetValue) →
        IsMoved net.now perm.now t.keys changed → changed ≡ twin_of net.now perm.now) }
    // Each round of the twin is that round of the net, and the twin has the view of the net.
    ensures rounds { IfOk result (λ _. all_rounds (twin_of net.now perm.now) ≡ all_rounds net.now) }
    ensures view { IfOk result (λ _.
        view_text (twin_of net.now perm.now) (run_of (twin_of net.now perm.now))
        ≡ view_text net.now (run_of net.now)) }
    // The twin of the twin by the inverse permutation is the net.
    ensures back { IfOk result (λ _.
        twin_of (twin_of net.now perm.now) (inverse perm.now) ≡ net.now) }
{
    let plain = net.net();
    let forest = Forest::of(alloc, &plain.graph, &plain.coalition)?;
    if let Some(fault) = twin_fault(alloc, plain, run, &forest, perm.as_slice())? {
        return Err(Refusal::Bad(fault));
    }
    Ok(twinned(alloc, net, run, &forest, perm)?)
}

/// The twin of a net by a permutation that it admits.
fn twinned(
    alloc: Global,
    net: &CheckedNet,
    run: &Played,
    forest: &Forest,
    perm: &Perm,
) -> Result<Twinned, NoMemory>
    requires run { run.now ≡ run_of net.now }
    requires forest { IsForestOf (key_graph net.now) forest.now }
    requires admitted { Admits net.now perm.now }
    ensures { IfOk result (λ t. t ≡ twinned_of net.now perm.now) }
{
    let plain = net.net();
    let demands = demands(alloc, net, run, perm)?;
    let sums = sums_below(alloc, plain, forest, &demands)?;
    let (shifts, pairs) = shifted_pairs(alloc, plain, forest, &sums)?;
    let keys = &plain.keys;
    Ok(Twinned {
        shifts: Items::from_vec(shifts),
        keys: KeyFile {
            stations: keys.stations,
            words: keys.words,
            pairs: Items::from_vec(pairs),
        },
    })
}
