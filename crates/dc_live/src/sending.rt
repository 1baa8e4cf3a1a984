//! Sending frames.

ghost use Rattle.std.specs.Prelude.{◌<◌};
ghost use Rattle.dc_formats.specs.Frames.{frame_bytes as bytes_of};
ghost use Rattle.dc_frame.specs.Frames.{frame_of};
ghost use Rattle.dc_live.specs.Sending.{SendsText};

use crate::fault::LiveFault;
use dc_edge::Wire;
use dc_frame::{Frame, frame_bytes};

/// Sends a frame by one call.
pub(crate) fn send_frame<W: Wire>(wire: &mut W, peer: u32, frame: &Frame) -> Result<(), LiveFault>
    requires { peer < (W.state wire.old).peers }
    ensures { SendsText peer (bytes_of (frame_of frame.now)) (W.state wire.old) (W.state wire.new) result }
{
    let bytes = frame_bytes(frame);
    match wire.send(peer, bytes.bytes()) {
        Ok(()) => Ok(()),
        Err(_) => Err(LiveFault::Wire),
    }
}
