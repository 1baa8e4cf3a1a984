//! The command `station`.

ghost use Rattle.std.specs.Prelude.{◌≡◌, ◌<◌, IfOk};
ghost use Rattle.dc_formats.specs.KeyFile.{IsKeys};
ghost use Rattle.dc_cli.specs.Playing.{IsPlayerOf, IsPlayer, Plays, PlaysAs, StationRan};

use crate::outcome::Outcome;
use crate::replaying::outcome_of;
use crate::session::outcome_of_session;
use dc_conv::Mask;
use dc_edge::{LinkFault, Shelf, Sink, Wire};
use dc_field::NoMemory;
use dc_frame::Frame;
use dc_keys::{KeyFile, SummedPads};
use dc_live::station_session;
use dc_net::NetFault;
use dc_net_files::{StationParts, read_station};
use dc_station::Station;
use dc_stream::Stream;
use dc_view::put_station;
use std::alloc::Global;
use std::thread::Threads;

/// All that a station needs in a session. The summed pads of its keys stand in the mask; no other keys are kept.
#[derive(Drop)]
struct Player {
    /// The station's number.
    id: u16,
    /// How many stations the session has.
    stations: u16,
    /// How many words it has.
    words: u16,
    station: Station,
    mask: Mask,
}

/// Plays a station by its files with the hub at an address, and prints the station's log.
pub fn run_station<R: Threads + Sync, F: Shelf, K: Sink, W: Wire>(
    rt: &R,
    alloc: Global,
    addr: &str,
    id: u16,
    keys: &str,
    stream: &str,
    shelf: &mut F,
    out: &mut K,
    wire: &mut W,
) -> Outcome
    ensures { StationRan addr.now id keys.now stream.now (F.state shelf.old) (F.state shelf.new)
        (K.state out.old) (K.state out.new) (W.state wire.old) (W.state wire.new) result }
{
    match read_station(rt, alloc, shelf, keys, stream) {
        Ok(parts) => play_as(alloc, addr, id, parts, out, wire),
        Err(refused) => outcome_of(refused),
    }
}

/// Plays a station by its keys and its stream, where the session has a station of this number.
fn play_as<K: Sink, W: Wire>(
    alloc: Global,
    addr: &str,
    id: u16,
    parts: StationParts,
    out: &mut K,
    wire: &mut W,
) -> Outcome
    ensures { PlaysAs addr.now id parts (K.state out.old) (K.state out.new)
        (W.state wire.old) (W.state wire.new) result }
{
    let stations = parts.keys.stations;
    if stations <= id {
        return Outcome::Disagree {
            fault: NetFault::NoStation {
                station: id,
                stations,
            },
        };
    }
    match player_of(alloc, id, parts.keys, parts.stream) {
        Ok(player) => play(alloc, addr, player, out, wire),
        Err(NoMemory) => Outcome::NoMemory,
    }
}

/// The station and its mask. The keys are dropped when the mask is made.
fn player_of(alloc: Global, id: u16, keys: KeyFile, stream: Stream) -> Result<Player, NoMemory>
    ensures keys { IsKeys keys }
    ensures player { IfOk result (λ p. IsPlayerOf id keys stream p) }
{
    let pads = SummedPads::of(alloc, &keys, id)?;
    let mask = Mask::start(alloc, pads)?;
    let station = Station::start(alloc, stream, keys.words)?;
    Ok(Player {
        id,
        stations: keys.stations,
        words: keys.words,
        station,
        mask,
    })
}

/// Dials the hub, plays the session to its end, and prints the station's log.
fn play<K: Sink, W: Wire>(
    alloc: Global,
    addr: &str,
    player: Player,
    out: &mut K,
    wire: &mut W,
) -> Outcome
    requires { IsPlayer player }
    ensures { Plays addr.now player (K.state out.old) (K.state out.new)
        (W.state wire.old) (W.state wire.new) result }
{
    let mut player = player;
    let peer = match wire.dial(alloc, addr) {
        Ok(peer) => peer,
        Err(LinkFault::Failed) => return Outcome::WireFault,
        Err(LinkFault::NoMemory) => return Outcome::NoMemory,
    };
    let hello = Frame::Hello {
        station: player.id,
        stations: player.stations,
        words: player.words,
    };
    match station_session(wire, peer, &hello, &mut player.station, &mut player.mask) {
        Ok(()) => match put_station(player.id, &player.station, out) {
            Ok(()) => Outcome::Done,
            Err(_) => Outcome::SinkFault,
        },
        Err(fault) => outcome_of_session(fault),
    }
}
