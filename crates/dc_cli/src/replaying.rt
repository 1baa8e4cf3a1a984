//! The commands `replay` and `logs`.

ghost use Rattle.std.specs.Prelude.{◌≡◌, ◌≤◌, Ok};
ghost use Rattle.dc_edge.specs.Sink.{Puts};
ghost use Rattle.dc_net_rules.specs.Runs.{run_of};
ghost use Rattle.dc_cli.specs.Replaying.{NetRan, RunPut, text_of, outcome_of, file_fault_of};

use crate::outcome::{FileFault, Outcome};
use dc_edge::{Failed, Gate, Shelf, Sink};
use dc_net::{CheckedNet, Played, run};
use dc_net_files::{NetFileFault, NotRead, read_net};
use dc_view::{put_logs, put_view};
use std::alloc::Global;
use std::thread::Threads;

/// What is printed of a run.
#[derive(Clone, Copy)]
pub enum Printed {
    /// The view of the coalition.
    View,
    /// The logs of the honest stations.
    Logs,
}

/// Runs the net that a manifest and its files make, and prints what is asked for of the run.
pub fn run_net<R: Threads + Sync, F: Shelf, K: Sink, G: Gate + Sync>(
    rt: &R,
    alloc: Global,
    name: &str,
    workers: u32,
    printed: Printed,
    shelf: &mut F,
    out: &mut K,
    gate: &G,
) -> Outcome
    requires some { 1 ≤ workers }
    requires most { workers ≤ 64 }
    ensures { NetRan (text_of printed) name.now (F.state shelf.old) (F.state shelf.new)
        (K.state out.old) (K.state out.new) result }
{
    match read_net(rt, alloc, shelf, name) {
        Ok(net) => print_run(rt, alloc, &net, workers, printed, out, gate),
        Err(refused) => outcome_of(refused),
    }
}

/// Prints what is asked for of a net's run.
fn print_run<R: Threads + Sync, K: Sink, G: Gate + Sync>(
    rt: &R,
    alloc: Global,
    net: &CheckedNet,
    workers: u32,
    printed: Printed,
    out: &mut K,
    gate: &G,
) -> Outcome
    requires some { 1 ≤ workers }
    requires most { workers ≤ 64 }
    ensures { RunPut (text_of printed) net.now (K.state out.old) (K.state out.new) result }
{
    let _checked = net.net();
    match run(rt, alloc, net, workers, gate) {
        Err(_) => Outcome::NoMemory,
        Ok(played) => match put_run(net, &played, printed, out) {
            Ok(()) => Outcome::Done,
            Err(_) => Outcome::SinkFault,
        },
    }
}

/// Puts what is asked for of a net's run.
fn put_run<K: Sink>(
    net: &CheckedNet,
    played: &Played,
    printed: Printed,
    out: &mut K,
) -> Result<(), Failed>
    requires { played.now ≡ run_of net.now }
    ensures { Puts (text_of printed net.now (run_of net.now))
        (K.state out.old) (K.state out.new) result }
{
    match printed {
        Printed::View => put_view(net, played, out),
        Printed::Logs => put_logs(net, played, out),
    }
}

/// The outcome of a net that was not read.
pub fn outcome_of(refused: NotRead) -> Outcome
    ensures { result ≡ outcome_of refused }
{
    match refused {
        NotRead::Missing { name } => Outcome::Missing { name },
        NotRead::TooLong { name } => Outcome::TooLong { name },
        NotRead::Malformed { name, fault } => Outcome::Malformed {
            name,
            fault: file_fault_of(fault),
        },
        NotRead::Disagree { fault } => Outcome::Disagree { fault },
        NotRead::ShelfFault => Outcome::ShelfFault,
        NotRead::NoMemory => Outcome::NoMemory,
    }
}

/// The fault of a file of a net, as that of a file.
fn file_fault_of(fault: NetFileFault) -> FileFault
    ensures { result ≡ file_fault_of fault }
{
    match fault {
        NetFileFault::Manifest(fault) => FileFault::Manifest(fault),
        NetFileFault::Keys(fault) => FileFault::Keys(fault),
        NetFileFault::Stream(fault) => FileFault::Stream(fault),
        NetFileFault::Script(fault) => FileFault::Script(fault),
    }
}
