//! The demands of one station.

ghost use Rattle.std.specs.Prelude.{◌≡◌, ◌≤◌, length, IfOk};
ghost use Rattle.dc_spec.specs.Limits.{most_words};
ghost use Rattle.dc_twin.specs.Demands.{stream_demands};

use dc_field::{NoMemory, Word};
use dc_station::{Receiver, Sender};
use dc_stream::Stream;
use std::alloc::Global;

/// The plain word that a station sends after each beginning of the words that it received, minus
/// the one that it would send with another stream: two senders over one receiver. The words are 1 to
/// 4096; the last of them counts for no demand.
pub(crate) fn station_demands(
    alloc: Global,
    own: &Stream,
    other: &Stream,
    received: &[Word],
) -> Result<Vec<Word>, NoMemory>
    requires some { 1 ≤ length received.now }
    requires most { length received.now ≤ most_words }
    ensures { IfOk result (λ v. v.items ≡ stream_demands own.now other.now received.now) }
{
    let words = received.len() as u16;
    let mut receiver = Receiver::start(alloc, words)?;
    let mut sender = Sender::start(alloc, words)?;
    let mut other_sender = Sender::start(alloc, words)?;
    let mut demands = Vec::with_capacity(alloc, received.len())?;
    for w in received {
        let plain = sender.plain(own, &receiver);
        let other_plain = other_sender.plain(other, &receiver);
        demands.push(plain.sub(&other_plain))?;
        receiver.receive(w);
        sender.take(own, &receiver);
        other_sender.take(other, &receiver);
    }
    Ok(demands)
}
