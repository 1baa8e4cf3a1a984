//! Serving a whole session: the hub listens, greets all peers, and runs its session.

ghost use Rattle.std.specs.Prelude.{◌≡◌, ◌<◌, ◌≤◌, [], length, IfOk};
ghost use Rattle.dc_spec.specs.Limits.{most_stations, most_words};
ghost use Rattle.dc_superpose.specs.HubCore.{StandsFor};
ghost use Rattle.dc_live.specs.Seats.{AreNew, AreGreeted};
ghost use Rattle.dc_live.specs.Serving.{Serves, AsksInTurn, HasCause, IsSilent, GiveAll, EndsWell};
ghost use Rattle.dc_live.specs.ServingSteps.{refusal_of, ListensAt, GreetsNext, Gathers, RunsCore};

use crate::fault::LiveFault;
use crate::greeting::greet;
use crate::hub::hub_session;
use crate::seats::Seats;
use dc_edge::{LinkFault, Wire};
use dc_field::Refusal;
use dc_superpose::HubCore;
use std::alloc::Global;

/// Serves a whole session of 1 to 256 stations and 1 to 4096 words at an address: makes the seats and the core, listens, accepts and
/// greets the peers one by one, and then runs the session. The answer is the core after the last round, out of which the transcript
/// can be taken.
///
/// `Bad(Wire)`: the wire did not listen, brought no peer, or failed in a talk. `Bad(Peer)`: a peer's hello does not fit, or its bytes
/// show a fault in the session. Memory may run out before the session, and not within it. Nothing is sent to anyone before all peers
/// are greeted.
pub fn serve<W: Wire>(
    wire: &mut W,
    alloc: Global,
    addr: &str,
    stations: u16,
    words: u16,
) -> Result<HubCore, Refusal<LiveFault>>
    requires alone { (W.state wire.old).peers ≡ 0 }
    requires some_stations { 1 ≤ stations }
    requires most_stations { stations ≤ most_stations }
    requires some_words { 1 ≤ words }
    requires most_words { words ≤ most_words }
    ensures serves { Serves addr.now stations words (W.state wire.old) (W.state wire.new) result }
    ensures asked { AsksInTurn addr.now stations (W.state wire.old) (W.state wire.new) result }
    ensures cause { HasCause (W.state wire.old) (W.state wire.new) result }
    ensures silent { IsSilent (W.state wire.old) (W.state wire.new) result }
    ensures over { IfOk result (λ core. core.rounds ≤ core.round) }
    ensures complete { GiveAll stations words (W.state wire.old) (W.state wire.new) → EndsWell result }
{
    let seats = Seats::start(alloc, stations, words)?;
    let core = HubCore::start(alloc, stations, words)?;
    serve_with(wire, alloc, addr, seats, core)
}

/// Serves a whole session with these seats, all of them free, and this core, which is new.
fn serve_with<W: Wire>(
    wire: &mut W,
    alloc: Global,
    addr: &str,
    mut seats: Seats,
    core: HubCore,
) -> Result<HubCore, Refusal<LiveFault>>
    requires alone { (W.state wire.old).peers ≡ 0 }
    requires free { seats.told ≡ [] }
    requires seats { AreNew seats }
    requires core { StandsFor core seats.stations seats.words [] }
    ensures { Serves addr.now seats.stations seats.words (W.state wire.old) (W.state wire.new) result }
{
    gather(wire, alloc, addr, &mut seats)?;
    run_core(wire, seats, core)
}

/// Listens at an address, and accepts and greets as many peers as there are stations.
fn gather<W: Wire>(
    wire: &mut W,
    alloc: Global,
    addr: &str,
    seats: &mut Seats,
) -> Result<(), Refusal<LiveFault>>
    requires alone { (W.state wire.old).peers ≡ 0 }
    requires free { seats.old.told ≡ [] }
    requires seats { AreNew seats.old }
    ensures { Gathers addr.now seats.old seats.new (W.state wire.old) (W.state wire.new) result }
{
    listen_at(wire, alloc, addr)?;
    for _ in 0..seats.stations() {
        greet_next(wire, alloc, seats)?;
    }
    Ok(())
}

/// Listens at an address.
fn listen_at<W: Wire>(wire: &mut W, alloc: Global, addr: &str) -> Result<(), Refusal<LiveFault>>
    ensures { ListensAt addr.now (W.state wire.old) (W.state wire.new) result }
{
    match wire.listen(alloc, addr) {
        Ok(()) => Ok(()),
        Err(fault) => Err(refusal_of(fault)),
    }
}

/// Accepts the next peer and greets it.
fn greet_next<W: Wire>(
    wire: &mut W,
    alloc: Global,
    seats: &mut Seats,
) -> Result<(), Refusal<LiveFault>>
    requires peers { (W.state wire.old).peers ≡ length seats.old.told }
    requires free { length seats.old.told < seats.old.stations }
    requires seats { AreNew seats.old }
    ensures { GreetsNext seats.old seats.new (W.state wire.old) (W.state wire.new) result }
{
    let peer = match wire.accept(alloc) {
        Ok(peer) => peer,
        Err(fault) => return Err(refusal_of(fault)),
    };
    match greet(wire, peer, seats) {
        Ok(()) => Ok(()),
        Err(cause) => Err(Refusal::Bad(cause)),
    }
}

/// Runs the session of a hub whose peers are all greeted.
fn run_core<W: Wire>(
    wire: &mut W,
    mut seats: Seats,
    mut core: HubCore,
) -> Result<HubCore, Refusal<LiveFault>>
    requires greeted { AreGreeted seats }
    requires peers { seats.stations ≤ (W.state wire.old).peers }
    requires core { StandsFor core seats.stations seats.words [] }
    ensures { RunsCore seats (W.state wire.old) (W.state wire.new) result }
{
    match hub_session(wire, &mut seats, &mut core) {
        Ok(()) => Ok(core),
        Err(fault) => Err(Refusal::Bad(fault)),
    }
}

/// What a fault of a call that brings peers is to the hub.
fn refusal_of(fault: LinkFault) -> Refusal<LiveFault>
    ensures { result ≡ refusal_of fault }
{
    match fault {
        LinkFault::Failed => Refusal::Bad(LiveFault::Wire),
        LinkFault::NoMemory => Refusal::NoMemory,
    }
}
