//! The texts of the faults of streams and scripts, and of nets whose parts do not agree.

ghost use Rattle.std.specs.Prelude.{◌++◌, codes};
ghost use Rattle.dc_edge.specs.Sink.{Puts};
ghost use Rattle.dc_cli.specs.Pieces.{numbered};
ghost use Rattle.dc_cli.specs.NetFaultTexts.{stream_kind_text, stream_fault_text, script_kind_text, script_fault_text, net_fault_text};

use crate::pieces::{put_number, put_small, put_two_numbers, put_two_small};
use dc_edge::{Failed, Sink};
use dc_net::NetFault;
use dc_script::{ScriptFault, ScriptKind};
use dc_stream::{StreamFault, StreamKind};

/// Puts the line of a fault, and what is wrong with it.
pub fn put_stream_fault<E: Sink>(fault: StreamFault, err: &mut E) -> Result<(), Failed>
    ensures { Puts (stream_fault_text fault) (E.state err.old) (E.state err.new) result }
{
    put_number(err, b"line=", u64::from(fault.line))?;
    put_stream_kind(fault.kind, err)
}

fn put_stream_kind<E: Sink>(kind: StreamKind, err: &mut E) -> Result<(), Failed>
    ensures { Puts (stream_kind_text kind) (E.state err.old) (E.state err.new) result }
{
    match kind {
        StreamKind::NotText => err.put(b" not-text"),
        StreamKind::Word => err.put(b" word"),
        StreamKind::Order => err.put(b" order"),
        StreamKind::TooMany => err.put(b" too-many"),
        StreamKind::Number => err.put(b" number"),
        StreamKind::Hex => err.put(b" hex"),
        StreamKind::Length { seen } => put_number(err, b" length seen=", u64::from(seen)),
    }
}

/// Puts the line of a fault, and what is wrong with it.
pub fn put_script_fault<E: Sink>(fault: ScriptFault, err: &mut E) -> Result<(), Failed>
    ensures { Puts (script_fault_text fault) (E.state err.old) (E.state err.new) result }
{
    put_number(err, b"line=", u64::from(fault.line))?;
    put_script_kind(fault.kind, err)
}

fn put_script_kind<E: Sink>(kind: ScriptKind, err: &mut E) -> Result<(), Failed>
    ensures { Puts (script_kind_text kind) (E.state err.old) (E.state err.new) result }
{
    match kind {
        ScriptKind::NotText => err.put(b" not-text"),
        ScriptKind::Header => err.put(b" header"),
        ScriptKind::Form => err.put(b" form"),
        ScriptKind::Round { told, due } => {
            put_two_numbers(
                err,
                b" round told=",
                u64::from(told),
                b" due=",
                u64::from(due),
            )
        }
        ScriptKind::TooMany => err.put(b" too-many"),
        ScriptKind::Misplaced => err.put(b" misplaced"),
        ScriptKind::Order { station } => put_number(err, b" order station=", u64::from(station)),
        ScriptKind::Missing => err.put(b" missing"),
        ScriptKind::Late { told, round } => {
            put_two_numbers(
                err,
                b" late told=",
                u64::from(told),
                b" round=",
                u64::from(round),
            )
        }
        ScriptKind::Unordered => err.put(b" unordered"),
        ScriptKind::Terms => err.put(b" terms"),
    }
}

/// Puts the name of a fault and its fields.
pub fn put_net_fault<E: Sink>(fault: NetFault, err: &mut E) -> Result<(), Failed>
    ensures { Puts (net_fault_text fault) (E.state err.old) (E.state err.new) result }
{
    match fault {
        NetFault::KeyStations { told, net } => {
            put_two_small(err, b"key-stations told=", told, b" net=", net)
        }
        NetFault::KeyWords { told, net } => {
            put_two_small(err, b"key-words told=", told, b" net=", net)
        }
        NetFault::KeyMissing { u, v } => put_two_small(err, b"key-missing u=", u, b" v=", v),
        NetFault::KeyStray { u, v } => put_two_small(err, b"key-stray u=", u, b" v=", v),
        NetFault::StreamMissing { station } => put_small(err, b"stream-missing station=", station),
        NetFault::StreamStray { station } => put_small(err, b"stream-stray station=", station),
        NetFault::ScriptRounds { told, net } => put_rounds(told, net, err),
        NetFault::ScriptStation { round, station } => {
            put_two_small(err, b"script-station round=", round, b" station=", station)
        }
        NetFault::ScriptDelivery { round } => put_small(err, b"script-delivery round=", round),
        NetFault::ScriptRule { round, station } => {
            put_two_small(err, b"script-rule round=", round, b" station=", station)
        }
        NetFault::NoStation { station, stations } => {
            put_two_small(
                err,
                b"no-station station=",
                station,
                b" stations=",
                stations,
            )
        }
    }
}

/// Puts that a script has another number of rounds than the session has words.
fn put_rounds<E: Sink>(told: u32, net: u16, err: &mut E) -> Result<(), Failed>
    ensures { Puts (numbered (codes "script-rounds told=") told ++ numbered (codes " net=") net)
        (E.state err.old) (E.state err.new) result }
{
    put_number(err, b"script-rounds told=", u64::from(told))?;
    put_small(err, b" net=", net)
}
