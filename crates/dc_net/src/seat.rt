//! An honest station in a run.

ghost use Rattle.std.specs.Prelude.{◌≡◌, [], ℕ, IfOk, ◌<◌, ◌≤◌};
ghost use Rattle.dc_key_rules.specs.PairKeys.{key_part};
ghost use Rattle.dc_station_rules.specs.Stations.{log_of, pending_counts, sent_of};
ghost use Rattle.dc_net.specs.Seat.{seat_word, TakesNext, with_heard};

use crate::round_keys::RoundKeys;
use crate::word_list::WordList;
use dc_field::{NoMemory, Word};
use dc_keys::KeyFile;
use dc_station::{Log, Pending, Receiver, Sender};
use dc_stream::Stream;
use dc_workers::Piece;
use std::alloc::Global;
use std::marker::Model;
use std::snapshot::Snapshot;

/// An honest station: its stream and the key file are borrowed. The words that it received are the
/// words at its place in each row of a list of all words that honest stations received. The seat
/// does not keep this list, and contracts see it through a snapshot, which has no bytes.
#[derive(Drop)]
pub struct Seat<'n> {
    stream: &'n Stream,
    file: &'n KeyFile,
    station: u16,
    place: usize,
    seats: usize,
    receiver: Receiver,
    sender: Sender,
    /// What its keys add to its next word, where there is a round more.
    key: Word,
    heard: Snapshot<WordList>,
}

impl<'n> Model for Seat<'n> {
    ghost use Rattle.dc_net.specs.WordList.{column};
    ghost use Rattle.dc_net.specs.Seat.{SeatState, SeatStandsFor};

    ghost Value = { SeatState };

    ghost view = { λ s. record {
      stream = s.stream.now;
      keys = s.file.now;
      station = s.station;
      received = column s.seats s.place s.heard.value.words;
      place = s.place;
      seats = s.seats;
    } };

    ghost invariant = { λ s. SeatStandsFor s.receiver s.sender s.key (record {
      stream = s.stream.now;
      keys = s.file.now;
      station = s.station;
      received = column s.seats s.place s.heard.value.words;
      place = s.place;
      seats = s.seats;
    }) };
}

impl<'n> Seat<'n> {
    /// The seat of a station before the first round, at a place among so many honest stations, with
    /// what its keys add to its first word. It takes all memory of the session; the list of words
    /// received is empty.
    pub fn start(
        alloc: Global,
        file: &'n KeyFile,
        stream: &'n Stream,
        station: u16,
        place: usize,
        seats: usize,
        key: Word,
        heard: &WordList,
    ) -> Result<Seat<'n>, NoMemory>
        requires key { 0 < file.now.words → key ≡ key_part file.now.pairs station [] }
        requires heard { heard.now.words ≡ [] }
        ensures { IfOk result (λ seat. seat ≡ record {
          stream = stream.now;
          keys = file.now;
          station = station;
          received = [];
          place = place;
          seats = seats;
        }) }
    {
        let receiver = Receiver::start(alloc, file.words)?;
        let sender = Sender::start(alloc, file.words)?;
        Ok(Seat {
            stream,
            file,
            station,
            place,
            seats,
            receiver,
            sender,
            key,
            heard: Snapshot::of(heard),
        })
    }

    /// Takes the word of the last round, which the keys have taken already. Takes no memory.
    pub fn take(&mut self, heard: &WordList, keys: &RoundKeys)
        requires { TakesNext heard.now.words keys.now self.old }
        ensures { self.new ≡ with_heard heard.now.words self.old }
    {
        let words = heard.as_slice();
        let w = words[words.len() - self.seats + self.place];
        self.receiver.receive(&w);
        self.sender.take(self.stream, &self.receiver);
        self.key = keys.word(self.place);
        self.heard = Snapshot::of(heard);
    }

    /// What the station has after the last round: its log, its sent entries, and how much is pending.
    pub fn finish(self) -> Ended
        ensures log { result.log.entries ≡ log_of self.entry.received }
        ensures sent { result.sent.entries ≡ sent_of self.entry.stream self.entry.received }
        ensures pending { (result.pending.shorts, result.pending.longs)
            ≡ pending_counts self.entry.stream self.entry.received }
    {
        let pending = self.sender.pending(self.stream);
        let Seat {
            receiver,
            sender,
            ..
        } = self;
        Ended {
            log: receiver.into_log(),
            sent: sender.into_log(),
            pending,
        }
    }
}

/// What a station has after the last round.
#[derive(Drop)]
pub struct Ended {
    /// The messages and values that it received.
    pub log: Log,
    /// The entries of its stream that count as sent.
    pub sent: Log,
    /// How many entries of its stream are pending.
    pub pending: Pending,
}

/// Requires that a value may be sent to another thread and shared with it.
fn needs_threads<T: Send + Sync>(_value: &T) {}

/// A seat may be sent to another thread and shared with it.
fn seats_meet_threads(seat: &Seat) {
    needs_threads(seat);
}

impl Piece for Seat<'_> {
    ghost of = { seat_word };

    fn word(&self) -> Word {
        let file = self.file;
        if self.receiver.received() < file.words {
            let plain = self.sender.plain(self.stream, &self.receiver);
            plain.add(&self.key)
        } else {
            Word::zero()
        }
    }
}
