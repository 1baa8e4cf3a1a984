//! The command `twin`.

ghost use Rattle.dc_spec.specs.Limits.{permutation_limit};
ghost use Rattle.dc_formats.specs.KeyFile.{keys_bytes};
ghost use Rattle.dc_twin_rules.specs.Shifts.{shifts_text};
ghost use Rattle.dc_cli.specs.Altering.{altered, AltersOf, AltersNet, ListMade, MadeOfList, MadeOfNet, WritesThenPuts};
ghost use Rattle.dc_cli.specs.Twinning.{twinning, twin_from, twin_by_images};

use crate::outcome::{CommandFault, FileFault, Outcome};
use crate::reading::{malformed, read_file};
use crate::replaying::outcome_of;
use crate::writing::write_file;
use dc_edge::{Gate, Shelf, Sink};
use dc_field::{Bytes, NoMemory, PERMUTATION_LIMIT, Refusal};
use dc_graph::{Perm, read_perm};
use dc_keyfile::key_bytes;
use dc_net::{CheckedNet, run};
use dc_net_files::read_net;
use dc_twin::{Twinned, put_shifts, twin};
use std::alloc::Global;
use std::marker::Model;
use std::thread::Threads;

/// A twin, with the bytes of its key file. Contracts see these bytes and the text of the shifts.
#[derive(Drop)]
struct TwinFile {
    keys: Bytes,
    twinned: Twinned,
}

impl Model for TwinFile {
    ghost use Rattle.dc_twin_rules.specs.Shifts.{shifts_text};
    ghost use Rattle.dc_cli.specs.Altering.{AlteredKeys};

    ghost Value = { AlteredKeys };

    ghost view = { λ f. record { keys = f.keys; text = shifts_text f.twinned.shifts } };
}

/// Writes the key file of the twin of a net by the images in a file, and prints the shifts. All else is done before the key file is
/// written.
pub fn run_twin<R: Threads + Sync, F: Shelf, K: Sink, G: Gate + Sync>(
    rt: &R,
    alloc: Global,
    net: &str,
    perm: &str,
    target: &str,
    shelf: &mut F,
    out: &mut K,
    gate: &G,
) -> Outcome
    ensures { AltersOf net.now (twinning perm.now target.now) (F.state shelf.old) (F.state shelf.new)
        (K.state out.old) (K.state out.new) result }
{
    match read_net(rt, alloc, shelf, net) {
        Ok(made) => twin_net(rt, alloc, &made, perm, target, shelf, out, gate),
        Err(refused) => outcome_of(refused),
    }
}

/// Writes the key file of the twin of a net, and prints the shifts.
fn twin_net<R: Threads + Sync, F: Shelf, K: Sink, G: Gate + Sync>(
    rt: &R,
    alloc: Global,
    net: &CheckedNet,
    perm: &str,
    target: &str,
    shelf: &mut F,
    out: &mut K,
    gate: &G,
) -> Outcome
    ensures { AltersNet (twinning perm.now target.now) net.now (F.state shelf.old) (F.state shelf.new)
        (K.state out.old) (K.state out.new) result }
{
    match twin_by_file(rt, alloc, net, perm, shelf, gate) {
        Ok(file) => write_twin(alloc, &file, target, shelf, out),
        Err(outcome) => outcome,
    }
}

/// The twin of a net by the images in a file.
fn twin_by_file<R: Threads + Sync, F: Shelf, G: Gate + Sync>(
    rt: &R,
    alloc: Global,
    net: &CheckedNet,
    perm: &str,
    shelf: &mut F,
    gate: &G,
) -> Result<TwinFile, Outcome>
    ensures { ListMade (twin_from net.now) perm.now permutation_limit
        (F.state shelf.old) (F.state shelf.new) result }
{
    let bytes = read_file(alloc, shelf, perm, PERMUTATION_LIMIT)?;
    twin_of_bytes(rt, alloc, net, perm, bytes.as_slice(), gate)
}

/// The twin of a net by the images that the bytes of a file spell.
fn twin_of_bytes<R: Threads + Sync, G: Gate + Sync>(
    rt: &R,
    alloc: Global,
    net: &CheckedNet,
    perm: &str,
    bytes: &[u8],
    gate: &G,
) -> Result<TwinFile, Outcome>
    ensures { MadeOfList (twin_from net.now bytes.now) perm.now result }
{
    match read_perm(alloc, bytes) {
        Ok(images) => twin_by_images(rt, alloc, net, &images, gate),
        Err(Refusal::NoMemory) => Err(Outcome::NoMemory),
        Err(Refusal::Bad(fault)) => Err(malformed(alloc, perm, FileFault::List(fault))),
    }
}

/// The twin of a net by images.
fn twin_by_images<R: Threads + Sync, G: Gate + Sync>(
    rt: &R,
    alloc: Global,
    net: &CheckedNet,
    images: &Perm,
    gate: &G,
) -> Result<TwinFile, Outcome>
    ensures { MadeOfNet (twin_by_images net.now images.now) result }
{
    let Ok(played) = run(rt, alloc, net, 1, gate) else {
        return Err(Outcome::NoMemory);
    };
    match twin(alloc, net, &played, images) {
        Ok(twinned) => twin_file(alloc, twinned),
        Err(Refusal::NoMemory) => Err(Outcome::NoMemory),
        Err(Refusal::Bad(fault)) => Err(Outcome::Refused {
            fault: CommandFault::Twin(fault),
        }),
    }
}

/// A twin with the bytes of its key file.
fn twin_file(alloc: Global, twinned: Twinned) -> Result<TwinFile, Outcome>
    ensures { MadeOfNet (altered (keys_bytes twinned.keys) (shifts_text twinned.shifts)) result }
{
    match key_bytes(alloc, &twinned.keys) {
        Ok(keys) => Ok(TwinFile { keys, twinned }),
        Err(NoMemory) => Err(Outcome::NoMemory),
    }
}

/// Writes the key file of a twin, then prints the shifts.
fn write_twin<F: Shelf, K: Sink>(
    alloc: Global,
    file: &TwinFile,
    target: &str,
    shelf: &mut F,
    out: &mut K,
) -> Outcome
    ensures { WritesThenPuts target.now file.now.keys file.now.text
        (F.state shelf.old) (F.state shelf.new) (K.state out.old) (K.state out.new) result }
{
    match write_file(alloc, shelf, target, file.keys.as_slice()) {
        Outcome::Done => match put_shifts(&file.twinned, out) {
            Ok(()) => Outcome::Done,
            Err(_) => Outcome::SinkFault,
        },
        other => other,
    }
}
