//! The command `trial`.

ghost use Rattle.std.specs.Prelude.{◌*◌, ◌≤◌};
ghost use Rattle.dc_spec.specs.Limits.{most_stations, most_words};
ghost use Rattle.dc_cli.specs.Trials.{SummaryRan, TrialRan};

use crate::outcome::Outcome;
use dc_edge::{Gate, Sink};
use dc_net::{CheckedNet, run, trial_net_shared};
use dc_view::put_trial;
use std::alloc::Global;
use std::thread::Threads;

/// Makes the net of a seed and of so many stations and words, runs it and prints the summary of the
/// run.
pub fn run_trial<R: Threads + Sync, K: Sink, G: Gate + Sync>(
    rt: &R,
    alloc: Global,
    seed: u32,
    stations: u16,
    words: u16,
    workers: u32,
    out: &mut K,
    gate: &G,
) -> Outcome
    requires some_stations { 1 ≤ stations }
    requires most_stations { stations ≤ most_stations }
    requires some_words { 1 ≤ words }
    requires most_words { words ≤ most_words }
    requires size { stations * words ≤ 524288 }
    requires some_workers { 1 ≤ workers }
    requires most_workers { workers ≤ 64 }
    ensures { TrialRan seed stations words (K.state out.old) (K.state out.new) result }
{
    match trial_net_shared(rt, alloc, seed, stations, words, workers) {
        Ok(net) => summed_run(rt, alloc, seed, stations, words, &net, workers, out, gate),
        Err(_) => Outcome::NoMemory,
    }
}

/// Runs a net, and prints the summary of the run.
fn summed_run<R: Threads + Sync, K: Sink, G: Gate + Sync>(
    rt: &R,
    alloc: Global,
    seed: u32,
    stations: u16,
    words: u16,
    net: &CheckedNet,
    workers: u32,
    out: &mut K,
    gate: &G,
) -> Outcome
    requires some_workers { 1 ≤ workers }
    requires most_workers { workers ≤ 64 }
    ensures { SummaryRan seed stations words net.now (K.state out.old) (K.state out.new) result }
{
    let _checked = net.net();
    match run(rt, alloc, net, workers, gate) {
        Err(_) => Outcome::NoMemory,
        Ok(played) => match put_trial(seed, stations, words, &played, out) {
            Ok(()) => Outcome::Done,
            Err(_) => Outcome::SinkFault,
        },
    }
}
