//! The command `hub`.

ghost use Rattle.std.specs.Prelude.{◌≡◌, ◌≤◌, IfOk};
ghost use Rattle.dc_spec.specs.Limits.{most_stations, most_words};
ghost use Rattle.dc_spec.specs.Text.{words_text};
ghost use Rattle.dc_cli.specs.Altering.{WritesThenPuts};
ghost use Rattle.dc_cli.specs.Hosting.{HubRan, IsOver, Keeps, Holds, outcome_of_refusal};

use crate::outcome::Outcome;
use crate::session::outcome_of_session;
use crate::writing::write_file;
use dc_edge::{Shelf, Sink, Wire};
use dc_field::{Bytes, NoMemory, Refusal, Words};
use dc_live::{LiveFault, serve};
use dc_superpose::{HubCore, Transcript, sums, transcript_bytes};
use dc_view::put_words;
use std::alloc::Global;

/// The bytes of a transcript, and its superposed words.
#[derive(Drop)]
struct Session {
    bytes: Bytes,
    sums: Words,
}

/// Runs the hub at an address to the end of its session, writes the transcript, and prints the superposed words. All else is done
/// before the transcript is written.
pub fn run_hub<F: Shelf, K: Sink, W: Wire>(
    alloc: Global,
    addr: &str,
    stations: u16,
    words: u16,
    target: &str,
    shelf: &mut F,
    out: &mut K,
    wire: &mut W,
) -> Outcome
    requires alone { (W.state wire.old).peers ≡ 0 }
    requires some_stations { 1 ≤ stations }
    requires most_stations { stations ≤ most_stations }
    requires some_words { 1 ≤ words }
    requires most_words { words ≤ most_words }
    ensures { HubRan addr.now stations words target.now (F.state shelf.old) (F.state shelf.new)
        (K.state out.old) (K.state out.new) (W.state wire.old) (W.state wire.new) result }
{
    match serve(wire, alloc, addr, stations, words) {
        Ok(core) => keep_session(alloc, core, target, shelf, out),
        Err(refusal) => outcome_of_refusal(refusal),
    }
}

/// The outcome of a hub that did not end its session.
fn outcome_of_refusal(refusal: Refusal<LiveFault>) -> Outcome
    ensures { result ≡ outcome_of_refusal refusal }
{
    match refusal {
        Refusal::NoMemory => Outcome::NoMemory,
        Refusal::Bad(fault) => outcome_of_session(fault),
    }
}

/// Writes the transcript of a hub whose rounds are all complete, then prints its superposed words.
fn keep_session<F: Shelf, K: Sink>(
    alloc: Global,
    core: HubCore,
    target: &str,
    shelf: &mut F,
    out: &mut K,
) -> Outcome
    requires { IsOver core }
    ensures { Keeps core target.now (F.state shelf.old) (F.state shelf.new)
        (K.state out.old) (K.state out.new) result }
{
    let transcript = core.finish();
    match session_of(alloc, &transcript) {
        Ok(session) => write_session(alloc, &session, target, shelf, out),
        Err(NoMemory) => Outcome::NoMemory,
    }
}

/// The bytes of a transcript, and its superposed words.
fn session_of(alloc: Global, transcript: &Transcript) -> Result<Session, NoMemory>
    ensures { IfOk result (λ s. Holds transcript.now s) }
{
    let sums = sums(alloc, transcript)?;
    let bytes = transcript_bytes(alloc, transcript)?;
    Ok(Session { bytes, sums })
}

/// Writes the bytes of a transcript, then prints its superposed words.
fn write_session<F: Shelf, K: Sink>(
    alloc: Global,
    session: &Session,
    target: &str,
    shelf: &mut F,
    out: &mut K,
) -> Outcome
    ensures { WritesThenPuts target.now session.now.bytes (words_text session.now.sums)
        (F.state shelf.old) (F.state shelf.new) (K.state out.old) (K.state out.new) result }
{
    match write_file(alloc, shelf, target, session.bytes.as_slice()) {
        Outcome::Done => match put_words(&session.sums, out) {
            Ok(()) => Outcome::Done,
            Err(_) => Outcome::SinkFault,
        },
        other => other,
    }
}
