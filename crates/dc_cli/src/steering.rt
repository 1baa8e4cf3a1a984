//! The command `steer`.

ghost use Rattle.dc_spec.specs.Limits.{wanted_words_limit};
ghost use Rattle.dc_formats.specs.KeyFile.{keys_bytes};
ghost use Rattle.dc_steering_rules.specs.SteeringText.{steering_text};
ghost use Rattle.dc_steer.specs.Steered.{steering as changes_of};
ghost use Rattle.dc_cli.specs.Altering.{altered, AltersOf, AltersNet, ListMade, MadeOfList, MadeOfNet, WritesThenPuts};
ghost use Rattle.dc_cli.specs.Steering.{steering, steer_from, steer_towards};

use crate::outcome::{CommandFault, FileFault, Outcome};
use crate::reading::{malformed, read_file};
use crate::replaying::outcome_of;
use crate::writing::write_file;
use dc_edge::{Gate, Shelf, Sink};
use dc_field::{Bytes, NoMemory, Refusal, WANTED_WORDS_LIMIT, Words};
use dc_keyfile::key_bytes;
use dc_net::{CheckedNet, run};
use dc_net_files::read_net;
use dc_steer::{Steered, put_steered, read_wanted, steer};
use std::alloc::Global;
use std::marker::Model;
use std::thread::Threads;

/// A steering, with the bytes of its key file. Contracts see these bytes and the text of the changes.
#[derive(Drop)]
struct SteeredFile {
    keys: Bytes,
    steered: Steered,
}

impl Model for SteeredFile {
    ghost use Rattle.dc_steering_rules.specs.SteeringText.{steering_text};
    ghost use Rattle.dc_steer.specs.Steered.{steering as changes_of};
    ghost use Rattle.dc_cli.specs.Altering.{AlteredKeys};

    ghost Value = { AlteredKeys };

    ghost view = { λ f. record { keys = f.keys; text = steering_text (changes_of f.steered) } };
}

/// Writes the key file in which the pads of a pair are steered towards the words in a file, and prints the changes. All else is done before the key file is
/// written.
pub fn run_steer<R: Threads + Sync, F: Shelf, K: Sink, G: Gate + Sync>(
    rt: &R,
    alloc: Global,
    net: &str,
    u: u16,
    v: u16,
    wanted: &str,
    target: &str,
    shelf: &mut F,
    out: &mut K,
    gate: &G,
) -> Outcome
    ensures { AltersOf net.now (steering u v wanted.now target.now) (F.state shelf.old) (F.state shelf.new)
        (K.state out.old) (K.state out.new) result }
{
    match read_net(rt, alloc, shelf, net) {
        Ok(made) => steer_net(rt, alloc, &made, u, v, wanted, target, shelf, out, gate),
        Err(refused) => outcome_of(refused),
    }
}

/// Writes the key file of a steering of a net, and prints the changes.
fn steer_net<R: Threads + Sync, F: Shelf, K: Sink, G: Gate + Sync>(
    rt: &R,
    alloc: Global,
    net: &CheckedNet,
    u: u16,
    v: u16,
    wanted: &str,
    target: &str,
    shelf: &mut F,
    out: &mut K,
    gate: &G,
) -> Outcome
    ensures { AltersNet (steering u v wanted.now target.now) net.now (F.state shelf.old) (F.state shelf.new)
        (K.state out.old) (K.state out.new) result }
{
    match steer_by_file(rt, alloc, net, u, v, wanted, shelf, gate) {
        Ok(file) => write_steered(alloc, &file, target, shelf, out),
        Err(outcome) => outcome,
    }
}

/// The steering of a pair towards the words in a file.
fn steer_by_file<R: Threads + Sync, F: Shelf, G: Gate + Sync>(
    rt: &R,
    alloc: Global,
    net: &CheckedNet,
    u: u16,
    v: u16,
    wanted: &str,
    shelf: &mut F,
    gate: &G,
) -> Result<SteeredFile, Outcome>
    ensures { ListMade (steer_from u v net.now) wanted.now wanted_words_limit
        (F.state shelf.old) (F.state shelf.new) result }
{
    let bytes = read_file(alloc, shelf, wanted, WANTED_WORDS_LIMIT)?;
    steer_of_bytes(rt, alloc, net, u, v, wanted, bytes.as_slice(), gate)
}

/// The steering of a pair towards the words that the bytes of a file spell.
fn steer_of_bytes<R: Threads + Sync, G: Gate + Sync>(
    rt: &R,
    alloc: Global,
    net: &CheckedNet,
    u: u16,
    v: u16,
    wanted: &str,
    bytes: &[u8],
    gate: &G,
) -> Result<SteeredFile, Outcome>
    ensures { MadeOfList (steer_from u v net.now bytes.now) wanted.now result }
{
    match read_wanted(alloc, bytes) {
        Ok(words) => steer_towards(rt, alloc, net, u, v, &words, gate),
        Err(Refusal::NoMemory) => Err(Outcome::NoMemory),
        Err(Refusal::Bad(fault)) => Err(malformed(alloc, wanted, FileFault::List(fault))),
    }
}

/// The steering of a pair towards words.
fn steer_towards<R: Threads + Sync, G: Gate + Sync>(
    rt: &R,
    alloc: Global,
    net: &CheckedNet,
    u: u16,
    v: u16,
    words: &Words,
    gate: &G,
) -> Result<SteeredFile, Outcome>
    ensures { MadeOfNet (steer_towards net.now u v words.now) result }
{
    let Ok(played) = run(rt, alloc, net, 1, gate) else {
        return Err(Outcome::NoMemory);
    };
    match steer(alloc, net, &played, u, v, words) {
        Ok(steered) => steered_file(alloc, steered),
        Err(Refusal::NoMemory) => Err(Outcome::NoMemory),
        Err(Refusal::Bad(fault)) => Err(Outcome::Refused {
            fault: CommandFault::Steer(fault),
        }),
    }
}

/// A steering with the bytes of its key file.
fn steered_file(alloc: Global, steered: Steered) -> Result<SteeredFile, Outcome>
    ensures { MadeOfNet (altered (keys_bytes steered.keys) (steering_text (changes_of steered))) result }
{
    match key_bytes(alloc, &steered.keys) {
        Ok(keys) => Ok(SteeredFile { keys, steered }),
        Err(NoMemory) => Err(Outcome::NoMemory),
    }
}

/// Writes the key file of a steering, then prints the changes.
fn write_steered<F: Shelf, K: Sink>(
    alloc: Global,
    file: &SteeredFile,
    target: &str,
    shelf: &mut F,
    out: &mut K,
) -> Outcome
    ensures { WritesThenPuts target.now file.now.keys file.now.text
        (F.state shelf.old) (F.state shelf.new) (K.state out.old) (K.state out.new) result }
{
    match write_file(alloc, shelf, target, file.keys.as_slice()) {
        Outcome::Done => match put_steered(&file.steered, out) {
            Ok(()) => Outcome::Done,
            Err(_) => Outcome::SinkFault,
        },
        other => other,
    }
}
