//! The texts of the faults of lists, and of refused twins and steerings.

ghost use Rattle.std.specs.Prelude.{◌++◌, codes};
ghost use Rattle.dc_edge.specs.Sink.{Puts};
ghost use Rattle.dc_cli.specs.Pieces.{numbered};
ghost use Rattle.dc_cli.specs.RefusalTexts.{list_kind_text, list_fault_text, twin_fault_text, steer_fault_text, command_fault_text};

use crate::outcome::CommandFault;
use crate::pieces::{put_number, put_small, put_two_numbers, put_two_small};
use dc_edge::{Failed, Sink};
use dc_field::{ListFault, ListKind};
use dc_steer::SteerFault;
use dc_twin::TwinFault;

/// Puts the line of a fault, and what is wrong with it.
pub fn put_list_fault<E: Sink>(fault: ListFault, err: &mut E) -> Result<(), Failed>
    ensures { Puts (list_fault_text fault) (E.state err.old) (E.state err.new) result }
{
    put_number(err, b"line=", u64::from(fault.line))?;
    put_list_kind(fault.kind, err)
}

fn put_list_kind<E: Sink>(kind: ListKind, err: &mut E) -> Result<(), Failed>
    ensures { Puts (list_kind_text kind) (E.state err.old) (E.state err.new) result }
{
    match kind {
        ListKind::NotText => err.put(b" not-text"),
        ListKind::TooMany => err.put(b" too-many"),
        ListKind::Number => err.put(b" number"),
        ListKind::Word => err.put(b" word"),
    }
}

/// Puts the name of a fault and its fields.
pub fn put_command_fault<E: Sink>(fault: CommandFault, err: &mut E) -> Result<(), Failed>
    ensures { Puts (command_fault_text fault) (E.state err.old) (E.state err.new) result }
{
    match fault {
        CommandFault::Twin(fault) => put_twin_fault(fault, err),
        CommandFault::Steer(fault) => put_steer_fault(fault, err),
    }
}

fn put_twin_fault<E: Sink>(fault: TwinFault, err: &mut E) -> Result<(), Failed>
    ensures { Puts (twin_fault_text fault) (E.state err.old) (E.state err.new) result }
{
    match fault {
        TwinFault::PermCount { have, need } => {
            put_two_numbers(
                err,
                b"perm-count have=",
                u64::from(have),
                b" need=",
                u64::from(need),
            )
        }
        TwinFault::Perm { place } => put_small(err, b"perm place=", place),
        TwinFault::NotJoined { station, image } => {
            put_two_small(err, b"not-joined station=", station, b" image=", image)
        }
        TwinFault::NotAlike {
            round,
            first,
            second,
        } => put_unlike(round, first, second, err),
    }
}

/// Puts that two stations received differently in a round.
fn put_unlike<E: Sink>(round: u16, first: u16, second: u16, err: &mut E) -> Result<(), Failed>
    ensures { Puts (numbered (codes "not-alike round=") round ++ numbered (codes " first=") first
        ++ numbered (codes " second=") second) (E.state err.old) (E.state err.new) result }
{
    put_two_small(err, b"not-alike round=", round, b" first=", first)?;
    put_small(err, b" second=", second)
}

fn put_steer_fault<E: Sink>(fault: SteerFault, err: &mut E) -> Result<(), Failed>
    ensures { Puts (steer_fault_text fault) (E.state err.old) (E.state err.new) result }
{
    match fault {
        SteerFault::NotNeighbours { u, v } => {
            put_two_small(err, b"not-neighbours u=", u, b" v=", v)
        }
        SteerFault::NotHonest { station } => { put_small(err, b"not-honest station=", station) }
        SteerFault::NeverDiffered => err.put(b"never-differed"),
        SteerFault::SumDelivery { round } => put_small(err, b"sum-delivery round=", round),
        SteerFault::RuledRound { round } => put_small(err, b"ruled-round round=", round),
        SteerFault::WantedWords { have, need } => {
            put_two_numbers(
                err,
                b"wanted-words have=",
                u64::from(have),
                b" need=",
                u64::from(need),
            )
        }
    }
}
