//! The session of a hub.

ghost use Rattle.std.specs.Prelude.{◌≡◌, ◌<◌, ◌≤◌, [], length, IsOk};
ghost use Rattle.dc_spec.specs.Limits.{most_words};
ghost use Rattle.dc_frame.specs.Frames.{frame_of};
ghost use Rattle.dc_superpose.specs.HubCore.{StandsFor};
ghost use Rattle.dc_live.specs.Seats.{AreSeats, AreGreeted};
ghost use Rattle.dc_live.specs.HubSession.{RunsHub, HearsWords};
ghost use Rattle.dc_live.specs.HubSteps.{AreInStep, IsDue, TakesFrame, FeedsCore, sum_in, Broadcasts};

use crate::fault::LiveFault;
use crate::hearing::word_in;
use crate::seats::Seats;
use crate::sending::send_frame;
use dc_edge::Wire;
use dc_field::Word;
use dc_frame::Frame;
use dc_superpose::{HubCore, HubFault, HubStep};

/// Runs the session of a hub whose peers are all greeted: takes the words of all stations, round after round, and sends the sum of
/// each complete round to every station.
///
/// Takes no memory. It reads no byte past the last word of a peer, and after a fault sends nothing more.
pub fn hub_session<W: Wire>(
    wire: &mut W,
    seats: &mut Seats,
    core: &mut HubCore,
) -> Result<(), LiveFault>
    requires greeted { AreGreeted seats.old }
    requires peers { seats.old.stations ≤ (W.state wire.old).peers }
    requires core { StandsFor core.old seats.old.stations seats.old.words [] }
    ensures runs { RunsHub seats.old core.new (W.state wire.old) (W.state wire.new) result }
    ensures complete { HearsWords seats.old (W.state wire.old) (W.state wire.new) → IsOk result }
{
    while !core.is_over() {
        let peer = next_peer(wire, seats, core);
        let Some(frame) = seats.receive(wire, peer)? else {
            continue;
        };
        take_frame(wire, peer, &frame, seats, core)?;
    }
    Ok(())
}

/// The peer whose bytes are taken next, by the wire's choice among those whose word is missing; else
/// that of the first missing station.
fn next_peer<W: Wire>(wire: &mut W, seats: &Seats, core: &HubCore) -> u32
    requires going { core.now.round < core.now.rounds }
    requires step { AreInStep seats.now core.now }
    requires peers { seats.now.stations ≤ (W.state wire.old).peers }
    ensures due { IsDue seats.now core.now.round result }
    ensures kept { W.state wire.new ≡ W.state wire.old }
{
    let hint = seats.peer_of(core.first_missing());
    let peer = wire.ready(hint);
    if seats.is_due(peer, core.now()) {
        peer
    } else {
        hint
    }
}

/// Takes a frame of a peer: its word goes to the core, and where that completes the round, the sum goes to all peers.
fn take_frame<W: Wire>(
    wire: &mut W,
    peer: u32,
    frame: &Frame,
    seats: &mut Seats,
    core: &mut HubCore,
) -> Result<(), LiveFault>
    requires seats { AreSeats seats.old }
    requires all { length seats.old.told ≡ seats.old.stations }
    requires due { IsDue seats.old core.old.round peer }
    requires going { core.old.round < core.old.rounds }
    requires few { core.old.rounds ≤ most_words }
    requires peers { seats.old.stations ≤ (W.state wire.old).peers }
    ensures { TakesFrame peer (frame_of frame.now) seats.old seats.new core.old core.new
        (W.state wire.old) (W.state wire.new) result }
{
    let now = core.now();
    let word = match word_in(frame, now) {
        Ok(word) => word,
        Err(fault) => return Err(LiveFault::Peer { peer, fault }),
    };
    seats.count_word(peer);
    match feed(core, seats.station_of(peer), now, &word) {
        Some(sum) => broadcast(wire, seats, now, &sum),
        None => Ok(()),
    }
}

/// Gives the core a station's word for the round in progress; the answer is the sum of the round where it is complete.
fn feed(core: &mut HubCore, station: u16, now: u16, word: &Word) -> Option<Word>
    requires { now ≡ core.old.round }
    ensures { FeedsCore station word.now core.old core.new result }
{
    let answer = core.take(station, now, word);
    sum_in(&answer)
}

/// The sum of the round that a word has completed.
fn sum_in(answer: &Result<HubStep, HubFault>) -> Option<Word>
    ensures { result ≡ sum_in answer.now }
{
    match answer {
        Ok(HubStep::Complete { sum }) => Some(*sum),
        Ok(HubStep::Waiting { .. }) => None,
        Err(_) => None,
    }
}

/// Sends the sum of a round to all stations in rising order.
fn broadcast<W: Wire>(wire: &mut W, seats: &Seats, round: u16, sum: &Word) -> Result<(), LiveFault>
    requires seats { AreSeats seats.now }
    requires all { length seats.now.told ≡ seats.now.stations }
    requires peers { seats.now.stations ≤ (W.state wire.old).peers }
    ensures { Broadcasts seats.now.stations round sum.now (W.state wire.old) (W.state wire.new) result }
{
    let frame = Frame::All { round, word: *sum };
    for station in 0..seats.stations() {
        send_frame(wire, seats.peer_of(station), &frame)?;
    }
    Ok(())
}
