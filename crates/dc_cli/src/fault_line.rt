//! The line that an outcome puts on the sink of faults.

ghost use Rattle.std.specs.Prelude.{◌≡◌};
ghost use Rattle.dc_edge.specs.Sink.{Puts};
ghost use Rattle.dc_cli.specs.Lines.{transcript_fault_text, file_fault_text, outcome_text, outcome_line, fault_line};

use crate::key_fault::put_key_fault;
use crate::manifest_fault::put_manifest_fault;
use crate::net_fault::{put_net_fault, put_script_fault, put_stream_fault};
use crate::outcome::{FileFault, Outcome};
use crate::peer_fault::put_peer;
use crate::pieces::{put_named, put_number};
use crate::refusal_line::{put_command_fault, put_list_fault};
use dc_edge::{Failed, Sink};
use dc_superpose::TranscriptFault;

/// Puts the line of an outcome, and nothing at `Done`.
pub fn put_fault<E: Sink>(o: &Outcome, err: &mut E) -> Result<(), Failed>
    ensures { Puts (fault_line o.now) (E.state err.old) (E.state err.new) result }
{
    match o {
        Outcome::Done => Ok(()),
        other => put_whole_line(other, err),
    }
}

fn put_whole_line<E: Sink>(o: &Outcome, err: &mut E) -> Result<(), Failed>
    ensures { Puts (outcome_line o.now) (E.state err.old) (E.state err.new) result }
{
    err.put(b"dcnet: ")?;
    put_outcome_text(o, err)?;
    err.put(b"\n")
}

fn put_outcome_text<E: Sink>(o: &Outcome, err: &mut E) -> Result<(), Failed>
    ensures { Puts (outcome_text o.now) (E.state err.old) (E.state err.new) result }
{
    match o {
        Outcome::Done => Ok(()),
        Outcome::Usage { place } => put_number(err, b"usage: word ", u64::from(*place)),
        Outcome::Missing { name } => put_named(err, name, b": missing"),
        Outcome::TooLong { name } => put_named(err, name, b": too long"),
        Outcome::Malformed { name, fault } => {
            put_named(err, name, b": malformed: ")?;
            put_file_fault(fault, err)
        }
        Outcome::Disagree { fault } => {
            err.put(b"files disagree: ")?;
            put_net_fault(*fault, err)
        }
        Outcome::Refused { fault } => {
            err.put(b"refused: ")?;
            put_command_fault(*fault, err)
        }
        Outcome::ShelfFault => err.put(b"file fault"),
        Outcome::SinkFault => err.put(b"output fault"),
        Outcome::WireFault => err.put(b"wire fault"),
        Outcome::Peer { peer, fault } => put_peer(*peer, *fault, err),
        Outcome::NoMemory => err.put(b"no memory"),
    }
}

fn put_file_fault<E: Sink>(fault: &FileFault, err: &mut E) -> Result<(), Failed>
    ensures { Puts (file_fault_text fault.now) (E.state err.old) (E.state err.new) result }
{
    match fault {
        FileFault::Transcript(fault) => put_transcript_fault(fault, err),
        FileFault::Keys(fault) => put_key_fault(fault, err),
        FileFault::Manifest(fault) => put_manifest_fault(fault, err),
        FileFault::Stream(fault) => put_stream_fault(*fault, err),
        FileFault::Script(fault) => put_script_fault(*fault, err),
        FileFault::List(fault) => put_list_fault(*fault, err),
    }
}

fn put_transcript_fault<E: Sink>(fault: &TranscriptFault, err: &mut E) -> Result<(), Failed>
    ensures { Puts (transcript_fault_text fault.now) (E.state err.old) (E.state err.new) result }
{
    match *fault {
        TranscriptFault::Truncated { at, need } => {
            put_number(err, b"truncated at=", at)?;
            put_number(err, b" need=", need)
        }
        TranscriptFault::Magic => err.put(b"magic"),
        TranscriptFault::Stations { seen } => put_number(err, b"stations seen=", u64::from(seen)),
        TranscriptFault::Words { seen } => put_number(err, b"words seen=", u64::from(seen)),
        TranscriptFault::Symbol { at, seen } => {
            put_number(err, b"symbol at=", at)?;
            put_number(err, b" seen=", u64::from(seen))
        }
        TranscriptFault::Rest { at } => put_number(err, b"rest at=", at),
    }
}
