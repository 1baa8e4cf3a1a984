//! Receiving frames.

ghost use Rattle.std.specs.Prelude.{◌≡◌, ◌+◌, ◌<◌, ◌≤◌, length};
ghost use Rattle.dc_frame.specs.Reading.{missing, capped};
ghost use Rattle.dc_live.specs.Receiving.{Waits, ReceivesPiece, ReceivesFrame, found_in};

use crate::fault::{LiveFault, PeerFault};
use dc_edge::Wire;
use dc_frame::{Frame, Reader};

/// The bytes of the longest frame.
const FRAME_BYTES: usize = 69;

/// Receives bytes of a frame by one call, at most those that its header, or else its body, still needs.
fn receive_piece<W: Wire>(wire: &mut W, peer: u32, reader: &mut Reader) -> Result<(), LiveFault>
    requires peer { peer < (W.state wire.old).peers }
    requires waits { Waits reader.old }
    ensures { ReceivesPiece peer reader.old reader.new (W.state wire.old) (W.state wire.new) result }
{
    let mut bytes = [0u8; FRAME_BYTES];
    let need = reader.need();
    receive_into(wire, peer, reader, &mut bytes[..need])
}

/// Receives bytes by one call, as many as there is room for, and feeds the reader with them.
fn receive_into<W: Wire>(
    wire: &mut W,
    peer: u32,
    reader: &mut Reader,
    room: &mut [u8],
) -> Result<(), LiveFault>
    requires peer { peer < (W.state wire.old).peers }
    requires some { 1 ≤ length room.old }
    requires fits { length room.old ≤ missing reader.old.part }
    ensures { ReceivesPiece peer reader.old reader.new (W.state wire.old) (W.state wire.new) result }
{
    let count = match wire.recv(peer, room) {
        Ok(count) => count,
        Err(_) => return Err(LiveFault::Wire),
    };
    if count == 0 {
        return Err(ended(peer, reader));
    }
    match reader.feed(&room[..count]) {
        Ok(()) => Ok(()),
        Err(fault) => Err(LiveFault::Peer {
            peer,
            fault: PeerFault::Frame { fault },
        }),
    }
}

/// The fault of a peer whose bytes ended.
fn ended(peer: u32, reader: &Reader) -> LiveFault
    ensures { result ≡ LiveFault.Peer peer (PeerFault.Ended (capped (reader.now.start + length reader.now.part))) }
{
    LiveFault::Peer {
        peer,
        fault: PeerFault::Ended { at: reader.fed() },
    }
}

/// Receives bytes of a frame by one call, and takes the frame out where it is whole.
pub(crate) fn receive_some<W: Wire>(
    wire: &mut W,
    peer: u32,
    reader: &mut Reader,
) -> Result<Option<Frame>, LiveFault>
    requires peer { peer < (W.state wire.old).peers }
    requires waits { Waits reader.old }
    ensures { ReceivesFrame peer reader.old reader.new (W.state wire.old) (W.state wire.new) result }
{
    receive_piece(wire, peer, reader)?;
    Ok(reader.take())
}

/// Receives the next frame.
pub(crate) fn receive_frame<W: Wire>(
    wire: &mut W,
    peer: u32,
    reader: &mut Reader,
) -> Result<Frame, LiveFault>
    requires peer { peer < (W.state wire.old).peers }
    requires waits { Waits reader.old }
    ensures { ReceivesFrame peer reader.old reader.new (W.state wire.old) (W.state wire.new) (found_in result) }
{
    loop {
        if let Some(frame) = receive_some(wire, peer, reader)? {
            return Ok(frame);
        }
    }
}
