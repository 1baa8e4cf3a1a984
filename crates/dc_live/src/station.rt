//! The session of a station.

ghost use Rattle.std.specs.Prelude.{◌≡◌, ◌<◌, IsOk};
ghost use Rattle.dc_frame.specs.Frames.{frame_of};
ghost use Rattle.dc_conv.specs.Mask.{session_words};
ghost use Rattle.dc_live.specs.Receiving.{Waits};
ghost use Rattle.dc_live.specs.StationSession.{greeting_of, IsHello, IsBefore, RunsStation, HearsAll};
ghost use Rattle.dc_live.specs.StationSteps.{SaysWord, HearsSum};

use crate::fault::LiveFault;
use crate::hearing::sum_in;
use crate::receiving::receive_frame;
use crate::sending::send_frame;
use dc_conv::Mask;
use dc_edge::Wire;
use dc_field::Word;
use dc_frame::{Frame, Reader};
use dc_station::Station;

/// Plays the session of a station with a hub: sends the hello, then in each round its word, and
/// receives the sum of the round.
///
/// Takes no memory. It reads no byte past the last sum. After a fault nothing more is sent; the
/// station and the mask have then taken the sums received so far.
pub fn station_session<W: Wire>(
    wire: &mut W,
    peer: u32,
    hello: &Frame,
    st: &mut Station,
    mask: &mut Mask,
) -> Result<(), LiveFault>
    requires peer { peer < (W.state wire.old).peers }
    requires hello { IsHello (frame_of hello.now) }
    requires before { IsBefore (greeting_of (frame_of hello.now)).words st.old mask.old }
    ensures runs { RunsStation peer (greeting_of (frame_of hello.now)) st.old st.new mask.old mask.new
        (W.state wire.old) (W.state wire.new) result }
    ensures complete { HearsAll peer (greeting_of (frame_of hello.now)).words (W.state wire.old) (W.state wire.new) → IsOk result }
{
    let mut reader = Reader::new();
    send_frame(wire, peer, hello)?;
    for round in 0..words_of(hello) {
        say_word(wire, peer, round, st, mask)?;
        let sum = hear_sum(wire, peer, round, &mut reader)?;
        st.receive(&sum);
        mask.take(&sum);
    }
    Ok(())
}

/// How many words the session of a hello has.
fn words_of(hello: &Frame) -> u16
    requires { IsHello (frame_of hello.now) }
    ensures { result ≡ (greeting_of (frame_of hello.now)).words }
{
    match hello {
        Frame::Hello { words, .. } => *words,
        _ => 0,
    }
}

/// Sends the station's word for a round: its plain word with its keys.
fn say_word<W: Wire>(
    wire: &mut W,
    peer: u32,
    round: u16,
    st: &Station,
    mask: &Mask,
) -> Result<(), LiveFault>
    requires peer { peer < (W.state wire.old).peers }
    requires station { st.now.taken < st.now.total }
    requires mask { mask.now.taken < session_words mask.now }
    ensures { SaysWord peer round st.now mask.now (W.state wire.old) (W.state wire.new) result }
{
    let word = st.plain().add(&mask.word());
    send_frame(wire, peer, &Frame::Send { round, word })
}

/// Receives the sum of a round.
fn hear_sum<W: Wire>(
    wire: &mut W,
    peer: u32,
    round: u16,
    reader: &mut Reader,
) -> Result<Word, LiveFault>
    requires peer { peer < (W.state wire.old).peers }
    requires waits { Waits reader.old }
    ensures { HearsSum peer round reader.old reader.new (W.state wire.old) (W.state wire.new) result }
{
    let frame = receive_frame(wire, peer, reader)?;
    match sum_in(&frame, round) {
        Ok(sum) => Ok(sum),
        Err(fault) => Err(LiveFault::Peer { peer, fault }),
    }
}
