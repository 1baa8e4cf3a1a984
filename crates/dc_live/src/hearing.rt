//! What a frame is worth where the word of a round is due.

ghost use Rattle.std.specs.Prelude.{◌≡◌};
ghost use Rattle.dc_frame.specs.Frames.{frame_of};
ghost use Rattle.dc_live.specs.Hearing.{sum_of, word_of};

use crate::fault::PeerFault;
use dc_field::Word;
use dc_frame::Frame;

/// The sum of the round in progress, or what is wrong with the frame in its place.
pub(crate) fn sum_in(frame: &Frame, now: u16) -> Result<Word, PeerFault>
    ensures { result ≡ sum_of now (frame_of frame.now) }
{
    match frame {
        Frame::All { round, word } if *round == now => Ok(*word),
        Frame::All { round, .. } => Err(PeerFault::Round { told: *round, now }),
        Frame::Hello { .. } => Err(PeerFault::Unexpected { tag: 1 }),
        Frame::Send { .. } => Err(PeerFault::Unexpected { tag: 2 }),
    }
}

/// The word of a station for the round in progress, or what is wrong with the frame in its place.
pub(crate) fn word_in(frame: &Frame, now: u16) -> Result<Word, PeerFault>
    ensures { result ≡ word_of now (frame_of frame.now) }
{
    match frame {
        Frame::Send { round, word } if *round == now => Ok(*word),
        Frame::Send { round, .. } => Err(PeerFault::Round { told: *round, now }),
        Frame::Hello { .. } => Err(PeerFault::Unexpected { tag: 1 }),
        Frame::All { .. } => Err(PeerFault::Unexpected { tag: 3 }),
    }
}
