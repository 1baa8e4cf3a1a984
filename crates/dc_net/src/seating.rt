//! The seats of all honest stations of a net.

ghost use Rattle.std.specs.Prelude.{◌≡◌, ◌≤◌, [], length, map, All, IfOk};
ghost use Rattle.dc_net_rules.specs.Runs.{honest_stations};
ghost use Rattle.dc_net.specs.Checked.{IsChecked};
ghost use Rattle.dc_net.specs.Seat.{TakesNext, with_heard};
ghost use Rattle.dc_net.specs.Run.{seats_after, AreKeyed};

use crate::net::Net;
use crate::round_keys::RoundKeys;
use crate::seat::Seat;
use crate::word_list::WordList;
use dc_field::NoMemory;
use std::alloc::Global;

/// The honest stations, in rising order.
#[tactic(auto, using(crate::proofs::SeatLists::few_honest))]
pub(crate) fn honest_list(alloc: Global, net: &Net) -> Result<Vec<u16>, NoMemory>
    ensures few { IfOk result (λ honest. length honest.items ≤ 65535) }
    ensures honest { IfOk result (λ honest. honest.items ≡ honest_stations net.now) }
{
    let coalition = &net.coalition;
    let honest = (0..net.graph.stations())
        .filter(|i| !coalition.holds(*i))
        .collect(alloc)?;
    Ok(honest)
}

/// The seats of all honest stations before the first round, in rising order of the stations, by their
/// keys. The list of words received is empty.
pub(crate) fn seats_of<'n>(
    alloc: Global,
    net: &'n Net,
    count: usize,
    keys: &RoundKeys,
    heard: &WordList,
) -> Result<Vec<Seat<'n>>, NoMemory>
    requires checked { IsChecked net.now }
    requires keyed { AreKeyed net.now [] keys.now }
    requires count { count ≡ length (honest_stations net.now) }
    requires heard { heard.now.words ≡ [] }
    ensures { IfOk result (λ seats. seats.items ≡ seats_after net.now []) }
{
    let streams = net.streams.as_slice();
    let mut seats = Vec::with_capacity(alloc, count)?;
    for i in 0..net.graph.stations() {
        if let Some(stream) = &streams[usize::from(i)] {
            let place = seats.len();
            let key = keys.word(place);
            let seat = Seat::start(alloc, &net.keys, stream, i, place, count, key, heard)?;
            seats.push_reserved(seat);
        }
    }
    Ok(seats)
}

/// Every seat takes its word of the last round, in place: this costs less than starting a thread.
pub(crate) fn take_all(seats: &mut [Seat], heard: &WordList, keys: &RoundKeys)
    requires { All (TakesNext heard.now.words keys.now) seats.old }
    ensures { seats.new ≡ map (with_heard heard.now.words) seats.old }
{
    for seat in seats {
        seat.take(heard, keys);
    }
}
