//! Greeting a peer.

ghost use Rattle.std.specs.Prelude.{◌≡◌, ◌<◌, length};
ghost use Rattle.dc_live.specs.Seats.{AreNew};
ghost use Rattle.dc_live.specs.Greeting.{Greets};

use crate::fault::LiveFault;
use crate::receiving::receive_frame;
use crate::seats::Seats;
use dc_edge::Wire;
use dc_frame::Reader;

/// Takes the hello of the next peer. It fits where it has the hub's numbers and a station that exists
/// and that no earlier peer announced.
///
/// Takes no memory, and no byte past the hello. After a fault the peer has no seat.
pub fn greet<W: Wire>(wire: &mut W, peer: u32, seats: &mut Seats) -> Result<(), LiveFault>
    requires next { peer ≡ length seats.old.told }
    requires free { length seats.old.told < seats.old.stations }
    requires seats { AreNew seats.old }
    requires peer { peer < (W.state wire.old).peers }
    ensures { Greets peer seats.old seats.new (W.state wire.old) (W.state wire.new) result }
{
    let mut reader = Reader::new();
    let frame = receive_frame(wire, peer, &mut reader)?;
    match seats.greeting_in(&frame) {
        Ok(station) => {
            seats.seat_next(station, reader);
            Ok(())
        }
        Err(fault) => Err(LiveFault::Peer { peer, fault }),
    }
}
