//! The seats of a hub: which station each peer announced in its hello, and how far its bytes were taken.

ghost use Rattle.std.specs.Prelude.{◌≡◌, ◌<◌, ◌≤◌, ◌↔◌, [], ◌≢◌, ℕ, length, get_or, IfNone, IfSome, IfOk, IsTrue};
ghost use Rattle.dc_spec.specs.Lists.{is_among};
ghost use Rattle.dc_spec.specs.Limits.{most_stations, most_words};
ghost use Rattle.dc_frame.specs.Frames.{frame_of};
ghost use Rattle.dc_live.specs.Receiving.{Waits};
ghost use Rattle.dc_live.specs.Seats.{AreNew, seat_at, told_by, with_seat, with_peer, counted_once, ReceivesAt};
ghost use Rattle.dc_live.specs.Greeting.{fits, greeting_in};

use crate::fault::{LiveFault, PeerFault};
use crate::receiving::receive_some;
use dc_edge::Wire;
use dc_field::NoMemory;
use dc_frame::{Frame, Reader};
use std::alloc::Global;
use std::marker::Model;

/// What was taken of a peer.
#[derive(Drop)]
pub(crate) struct Seat {
    /// How many words of its station.
    pub heard: u16,
    /// Reads its bytes, from the hello on: how many whole frames' bytes were taken, and the frame in progress.
    pub reader: Reader,
}

/// The seats of a hub, by peer. All memory of the session is taken at the start.
#[derive(Drop)]
pub struct Seats {
    /// 1 to 256.
    stations: u16,
    /// 1 to 4096.
    words: u16,
    /// The station that each peer announced in its hello.
    told: Vec<u16>,
    seats: Vec<Seat>,
}

impl Model for Seats {
    ghost use Rattle.std.specs.Prelude.{◌≡◌, ◌≤◌, length, vec_capacity};
    ghost use Rattle.dc_spec.specs.Limits.{most_stations};
    ghost use Rattle.dc_live.specs.Seats.{SeatsState};

    ghost Value = { SeatsState };

    ghost view = { λ s. record { stations = s.stations; words = s.words; told = s.told.items; seats = s.seats.items } };

    ghost invariant = { λ s.
        (vec_capacity s.told ≡ s.stations) × (vec_capacity s.seats ≡ s.stations)
        × (length s.told.items ≤ s.stations) × (length s.seats.items ≡ length s.told.items)
        × (s.stations ≤ most_stations) };
}

impl Seats {
    /// Seats of a session of so many stations and words, all of them free.
    pub fn start(alloc: Global, stations: u16, words: u16) -> Result<Seats, NoMemory>
        requires some_stations { 1 ≤ stations }
        requires most_stations { stations ≤ most_stations }
        requires some_words { 1 ≤ words }
        requires most_words { words ≤ most_words }
        ensures free { IfOk result (λ s. s ≡ record { stations = stations; words = words; told = []; seats = [] }) }
        ensures new { IfOk result AreNew }
    {
        let told = Vec::with_capacity(alloc, usize::from(stations))?;
        let seats = Vec::with_capacity(alloc, usize::from(stations))?;
        Ok(Seats {
            stations,
            words,
            told,
            seats,
        })
    }

    /// The station of a peer by its first frame, or what is wrong with the frame.
    pub(crate) fn greeting_in(&self, frame: &Frame) -> Result<u16, PeerFault>
        ensures { result ≡ greeting_in self.now (frame_of frame.now) }
    {
        match frame {
            Frame::Hello {
                station,
                stations,
                words,
            } => {
                if self.fits(*station, *stations, *words) {
                    return Ok(*station);
                }
                Err(PeerFault::Hello {
                    station: *station,
                    stations: *stations,
                    words: *words,
                })
            }
            Frame::Send { .. } => Err(PeerFault::Unexpected { tag: 2 }),
            Frame::All { .. } => Err(PeerFault::Unexpected { tag: 3 }),
        }
    }

    /// Whether a hello has the numbers of this session and a free station.
    fn fits(&self, station: u16, stations: u16, words: u16) -> bool
        ensures { result ≡ fits self.now station stations words }
    {
        stations == self.stations
            && words == self.words
            && station < self.stations
            && !self.told.contains(&station)
    }

    /// A seat for the next peer, in the room that is reserved.
    pub(crate) fn seat_next(&mut self, station: u16, reader: Reader)
        requires { length self.old.told < self.old.stations }
        ensures { self.new ≡ with_peer self.old station reader }
    {
        self.told.push_reserved(station);
        self.seats.push_reserved(Seat { heard: 0, reader });
    }

    /// How many stations the session has.
    pub(crate) fn stations(&self) -> u16
        ensures { result ≡ self.now.stations }
    {
        self.stations
    }

    /// The station that a peer announced in its hello.
    pub(crate) fn station_of(&self, peer: u32) -> u16
        requires { peer < length self.now.told }
        ensures { result ≡ told_by self.now peer }
    {
        self.told[peer as usize]
    }

    /// The peer that announced a station.
    pub(crate) fn peer_of(&self, station: u16) -> u32
        requires { IsTrue (is_among self.now.told station) }
        ensures peer { result < length self.now.told }
        ensures station { told_by self.now result ≡ station }
    {
        match place_of(self.told.as_slice(), station) {
            Some(peer) => peer as u32,
            None => 0,
        }
    }

    /// Whether a peer has a seat and exactly so many words of it were taken.
    pub(crate) fn is_due(&self, peer: u32, round: u16) -> bool
        ensures { IsTrue result ↔ ((peer < length self.now.seats) × ((seat_at self.now peer).heard ≡ round)) }
    {
        match self.seats.get(peer as usize) {
            Some(seat) => seat.heard == round,
            None => false,
        }
    }

    /// Receives bytes of a peer's frame by one call, and takes the frame out where it is whole.
    pub(crate) fn receive<W: Wire>(
        &mut self,
        wire: &mut W,
        peer: u32,
    ) -> Result<Option<Frame>, LiveFault>
        requires seat { peer < length self.old.seats }
        requires waits { Waits (seat_at self.old peer).reader }
        requires peer { peer < (W.state wire.old).peers }
        ensures { ReceivesAt peer self.old self.new (W.state wire.old) (W.state wire.new) result }
    {
        let seat = &mut self.seats[peer as usize];
        receive_some(wire, peer, &mut seat.reader)
    }

    /// Counts one more word of a peer.
    pub(crate) fn count_word(&mut self, peer: u32)
        requires seat { peer < length self.old.seats }
        requires few { (seat_at self.old peer).heard < most_words }
        ensures { self.new ≡ with_seat self.old peer (counted_once (seat_at self.old peer)) }
    {
        self.seats[peer as usize].heard += 1;
    }
}

/// The first place of a number in a list.
fn place_of(told: &[u16], station: u16) -> Option<usize>
    ensures none { IfNone result ((k : ℕ) → k < length told.now → get_or told.now k 0 ≢ station) }
    ensures some { IfSome result (λ p. (p < length told.now) × (get_or told.now p 0 ≡ station)) }
{
    let mut place = 0;
    while place < told.len() {
        if told[place] == station {
            return Some(place);
        }
        place += 1;
    }
    None
}
