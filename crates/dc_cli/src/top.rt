//! The top call.

ghost use Rattle.std.specs.Prelude.{◌≡◌};
ghost use Rattle.dc_cli.specs.Forms.{texts};
ghost use Rattle.dc_cli.specs.Commands.{IsRunnable, task_of};
ghost use Rattle.dc_cli.specs.Promises.{call, RefusesOtherWords, PrintsSums, Completes, AsksInOrder, TellsTheLast, KeepsFiles, PrintsOnlyWhenDone, MissesTheAbsent, RefusesTheLong, RefusesTheMalformed, TellsTheFault, HasCauses, WritesKeys, WritesSeeds, WritesPads, MakesFiles, PrintsView, PrintsLogs, RunsNets, RunsLogs, PrintsSummary, RunsTrials};
ghost use Rattle.dc_cli.specs.Alterations.{AltersNets};
ghost use Rattle.dc_cli.specs.LivePromises.{AsksWire, PlaysStations, CompletesStations, HostsSessions, CompletesHubs, SessionsAreRuns};
ghost use Rattle.dc_cli.specs.Theorems.{IsUntraceable, IsSteerable, DeliversMessages, WritesTwin, WritesSteering};
ghost use Rattle.dc_cli.specs.Ran.{Ran, CommandRan, LeavesWire, PutsLine};

use crate::command::{Command, command_of};
use crate::fault_line::put_fault;
use crate::hosting::run_hub;
use crate::keygen::{KeyMaterial, run_keygen};
use crate::migrate::run_migrate;
use crate::outcome::Outcome;
use crate::playing::run_station;
use crate::replaying::{Printed, run_net};
use crate::steering::run_steer;
use crate::summing::run_sum;
use crate::trial::run_trial;
use crate::twinning::run_twin;
use dc_edge::{Gate, Shelf, Sink, Wire};
use std::alloc::Global;
use std::thread::Threads;

/// Runs the command that the words spell, over a shelf of files and a wire to peers. It puts the command's text on `out` and its fault line on
/// `err`. The words are the command line without the program's name. The wire has no peers yet.
pub fn dcnet<R: Threads + Sync, F: Shelf, K: Sink, E: Sink, W: Wire, G: Gate + Sync>(
    rt: &R,
    alloc: Global,
    words: &[String],
    shelf: &mut F,
    out: &mut K,
    err: &mut E,
    wire: &mut W,
    gate: &G,
) -> Outcome
    requires alone { (W.state wire.old).peers ≡ 0 }
    ensures ran { Ran (texts words.now) (F.state shelf.old) (F.state shelf.new)
        (K.state out.old) (K.state out.new) (W.state wire.old) (W.state wire.new) result }
    ensures err { PutsLine result (E.state err.old) (E.state err.new) }
    ensures words { RefusesOtherWords
        (call F.state K.state W.state words.now shelf.old shelf.new out.old out.new wire.old wire.new result) }
    ensures sums { PrintsSums
        (call F.state K.state W.state words.now shelf.old shelf.new out.old out.new wire.old wire.new result) }
    ensures complete { Completes
        (call F.state K.state W.state words.now shelf.old shelf.new out.old out.new wire.old wire.new result) }
    ensures asked { AsksInOrder
        (call F.state K.state W.state words.now shelf.old shelf.new out.old out.new wire.old wire.new result) }
    ensures last { TellsTheLast
        (call F.state K.state W.state words.now shelf.old shelf.new out.old out.new wire.old wire.new result) }
    ensures kept { KeepsFiles
        (call F.state K.state W.state words.now shelf.old shelf.new out.old out.new wire.old wire.new result) }
    ensures silent { PrintsOnlyWhenDone
        (call F.state K.state W.state words.now shelf.old shelf.new out.old out.new wire.old wire.new result) }
    ensures missing { MissesTheAbsent
        (call F.state K.state W.state words.now shelf.old shelf.new out.old out.new wire.old wire.new result) }
    ensures too_long { RefusesTheLong
        (call F.state K.state W.state words.now shelf.old shelf.new out.old out.new wire.old wire.new result) }
    ensures malformed { RefusesTheMalformed
        (call F.state K.state W.state words.now shelf.old shelf.new out.old out.new wire.old wire.new result) }
    ensures fault { TellsTheFault
        (call F.state K.state W.state words.now shelf.old shelf.new out.old out.new wire.old wire.new result) }
    ensures causes { HasCauses
        (call F.state K.state W.state words.now shelf.old shelf.new out.old out.new wire.old wire.new result) }
    ensures keys { WritesKeys
        (call F.state K.state W.state words.now shelf.old shelf.new out.old out.new wire.old wire.new result) }
    ensures seeds { WritesSeeds
        (call F.state K.state W.state words.now shelf.old shelf.new out.old out.new wire.old wire.new result) }
    ensures pads { WritesPads
        (call F.state K.state W.state words.now shelf.old shelf.new out.old out.new wire.old wire.new result) }
    ensures makes { MakesFiles
        (call F.state K.state W.state words.now shelf.old shelf.new out.old out.new wire.old wire.new result) }
    ensures view { PrintsView
        (call F.state K.state W.state words.now shelf.old shelf.new out.old out.new wire.old wire.new result) }
    ensures logs { PrintsLogs
        (call F.state K.state W.state words.now shelf.old shelf.new out.old out.new wire.old wire.new result) }
    ensures nets { RunsNets
        (call F.state K.state W.state words.now shelf.old shelf.new out.old out.new wire.old wire.new result) }
    ensures log_nets { RunsLogs
        (call F.state K.state W.state words.now shelf.old shelf.new out.old out.new wire.old wire.new result) }
    ensures alters { AltersNets
        (call F.state K.state W.state words.now shelf.old shelf.new out.old out.new wire.old wire.new result) }
    ensures trial { PrintsSummary
        (call F.state K.state W.state words.now shelf.old shelf.new out.old out.new wire.old wire.new result) }
    ensures trials { RunsTrials
        (call F.state K.state W.state words.now shelf.old shelf.new out.old out.new wire.old wire.new result) }
    ensures untraceable { IsUntraceable
        (call F.state K.state W.state words.now shelf.old shelf.new out.old out.new wire.old wire.new result) }
    ensures steerable { IsSteerable
        (call F.state K.state W.state words.now shelf.old shelf.new out.old out.new wire.old wire.new result) }
    ensures twin { WritesTwin
        (call F.state K.state W.state words.now shelf.old shelf.new out.old out.new wire.old wire.new result) }
    ensures steering { WritesSteering
        (call F.state K.state W.state words.now shelf.old shelf.new out.old out.new wire.old wire.new result) }
    ensures delivers { DeliversMessages
        (call F.state K.state W.state words.now shelf.old shelf.new out.old out.new wire.old wire.new result) }
    ensures wires { AsksWire
        (call F.state K.state W.state words.now shelf.old shelf.new out.old out.new wire.old wire.new result) }
    ensures plays { PlaysStations
        (call F.state K.state W.state words.now shelf.old shelf.new out.old out.new wire.old wire.new result) }
    ensures stations { CompletesStations
        (call F.state K.state W.state words.now shelf.old shelf.new out.old out.new wire.old wire.new result) }
    ensures hosts { HostsSessions
        (call F.state K.state W.state words.now shelf.old shelf.new out.old out.new wire.old wire.new result) }
    ensures hubs { CompletesHubs
        (call F.state K.state W.state words.now shelf.old shelf.new out.old out.new wire.old wire.new result) }
    ensures live { SessionsAreRuns
        (call F.state K.state W.state words.now shelf.old shelf.new out.old out.new wire.old wire.new result) }
{
    let outcome = run(rt, alloc, words, shelf, out, wire, gate);
    let _ = put_fault(&outcome, err);
    outcome
}

/// Runs the command that the words spell.
fn run<R: Threads + Sync, F: Shelf, K: Sink, W: Wire, G: Gate + Sync>(
    rt: &R,
    alloc: Global,
    words: &[String],
    shelf: &mut F,
    out: &mut K,
    wire: &mut W,
    gate: &G,
) -> Outcome
    requires alone { (W.state wire.old).peers ≡ 0 }
    ensures { Ran (texts words.now) (F.state shelf.old) (F.state shelf.new)
        (K.state out.old) (K.state out.new) (W.state wire.old) (W.state wire.new) result }
{
    match command_of(words) {
        Err(place) => Outcome::Usage { place },
        Ok(command) => run_command(rt, alloc, command, shelf, out, wire, gate),
    }
}

fn run_command<R: Threads + Sync, F: Shelf, K: Sink, W: Wire, G: Gate + Sync>(
    rt: &R,
    alloc: Global,
    command: Command<'_>,
    shelf: &mut F,
    out: &mut K,
    wire: &mut W,
    gate: &G,
) -> Outcome
    requires runnable { IsRunnable (task_of command) }
    requires alone { (W.state wire.old).peers ≡ 0 }
    ensures wire { LeavesWire (task_of command.entry) (W.state wire.old) (W.state wire.new) }
    ensures ran { CommandRan (task_of command.entry) (F.state shelf.old) (F.state shelf.new)
        (K.state out.old) (K.state out.new) (W.state wire.old) (W.state wire.new) result }
{
    match command {
        Command::Sum { file } => run_sum(alloc, file, shelf, out),
        Command::Keygen { seed, net, target } => {
            run_keygen(alloc, KeyMaterial::Pads, &seed, net, target, shelf)
        }
        Command::KeygenSeeds { seed, net, target } => {
            run_keygen(alloc, KeyMaterial::Seeds, &seed, net, target, shelf)
        }
        Command::Migrate { keys, target } => run_migrate(rt, alloc, keys, target, shelf),
        Command::Replay { net, workers } => {
            run_net(rt, alloc, net, workers, Printed::View, shelf, out, gate)
        }
        Command::Logs { net } => run_net(rt, alloc, net, 1, Printed::Logs, shelf, out, gate),
        Command::Twin { net, perm, target } => {
            run_twin(rt, alloc, net, perm, target, shelf, out, gate)
        }
        Command::Steer {
            net,
            u,
            v,
            wanted,
            target,
        } => { run_steer(rt, alloc, net, u, v, wanted, target, shelf, out, gate) }
        Command::Station {
            addr,
            id,
            keys,
            stream,
        } => { run_station(rt, alloc, addr, id, keys, stream, shelf, out, wire) }
        Command::Hub {
            addr,
            stations,
            words,
            target,
        } => { run_hub(alloc, addr, stations, words, target, shelf, out, wire) }
        Command::Trial {
            seed,
            stations,
            words,
            workers,
        } => { run_trial(rt, alloc, seed, stations, words, workers, out, gate) }
    }
}
