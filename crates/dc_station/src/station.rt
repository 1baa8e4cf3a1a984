//! A station: it gives a word, receives the superposed word, and so on to the end of the session.

ghost use Rattle.std.specs.Prelude.{◌≡◌, ℕ, ◌+◌, ◌<◌, ◌≤◌, List, [], ◌∷◌, ◌++◌, IfOk};
ghost use Rattle.dc_spec.specs.Limits.{most_words};
ghost use Rattle.dc_spec.specs.Entries.{Stream as stream_record};
ghost use Rattle.dc_station_rules.specs.Cycles.{place_of};
ghost use Rattle.dc_station_rules.specs.Stations.{log_of, pending_counts, plain_word, sent_of};
ghost use Rattle.dc_station.specs.Receiving.{phase_at};
ghost use Rattle.dc_station.specs.StandsFor.{StandsFor};

use crate::log::Log;
use crate::phase::{Pending, Phase};
use crate::receiver::Receiver;
use crate::sender::Sender;
use dc_field::{NoMemory, Word};
use dc_stream::Stream;
use std::alloc::Global;
use std::marker::Model;

/// A station of a session of so many words: a stream, a receiver and a sender. All its memory is
/// allocated at the start.
#[derive(Drop)]
pub struct Station {
    stream: Stream,
    receiver: Receiver,
    sender: Sender,
}

impl Model for Station {
    ghost use Rattle.dc_station.specs.State.{State, IsStation};

    ghost Value = { State };

    ghost view = { λ s. record {
      taken = s.receiver.taken;
      total = s.receiver.total;
      stream = s.stream;
      receiver = s.receiver;
      sender = s.sender;
    } };

    ghost invariant = { λ s. IsStation s.stream s.receiver s.sender };
}

impl Station {
    /// A station with this stream, in a session of 1 to 4096 words. When out of memory, the stream is dropped.
    pub fn start(alloc: Global, stream: Stream, words: u16) -> Result<Station, NoMemory>
        requires some { 1 ≤ words }
        requires most { words ≤ most_words }
        ensures { IfOk result (λ station. StandsFor station stream words []) }
    {
        let receiver = Receiver::start(alloc, words)?;
        let sender = Sender::start(alloc, words)?;
        Ok(Station {
            stream,
            receiver,
            sender,
        })
    }

    /// The word that the station sends next, before its keys are added.
    pub fn plain(&self) -> Word
        requires { self.now.taken < self.now.total }
        ensures { (stream : stream_record) (total : ℕ) (words : List (List ℕ)) →
            StandsFor self.now stream total words → result ≡ plain_word stream words }
    {
        self.sender.plain(&self.stream, &self.receiver)
    }

    /// Takes the next received word.
    pub fn receive(&mut self, w: &Word)
        requires { self.old.taken < self.old.total }
        ensures counted { self.new.taken ≡ self.old.taken + 1 }
        ensures same_total { self.new.total ≡ self.old.total }
        ensures stands { (stream : stream_record) (total : ℕ) (words : List (List ℕ)) →
            StandsFor self.old stream total words → StandsFor self.new stream total (words ++ w.now ∷ []) }
    {
        self.receiver.receive(w);
        self.sender.take(&self.stream, &self.receiver);
    }

    /// What the next word is for.
    pub fn phase(&self) -> Phase
        ensures { (stream : stream_record) (total : ℕ) (words : List (List ℕ)) →
            StandsFor self.now stream total words → result ≡ phase_at (place_of words) }
    {
        self.receiver.phase()
    }

    /// The messages and values of the words received.
    pub fn log(&self) -> &Log
        ensures { (stream : stream_record) (total : ℕ) (words : List (List ℕ)) →
            StandsFor self.now stream total words → result.now.entries ≡ log_of words }
    {
        self.receiver.log()
    }

    /// The entries of the stream that count as sent.
    pub fn sent(&self) -> &Log
        ensures { (stream : stream_record) (total : ℕ) (words : List (List ℕ)) →
            StandsFor self.now stream total words → result.now.entries ≡ sent_of stream words }
    {
        self.sender.sent()
    }

    /// How many entries of the stream are pending.
    pub fn pending(&self) -> Pending
        ensures { (stream : stream_record) (total : ℕ) (words : List (List ℕ)) →
            StandsFor self.now stream total words → (result.shorts, result.longs) ≡ pending_counts stream words }
    {
        self.sender.pending(&self.stream)
    }

    /// The log and the list of sent entries.
    pub fn finish(self) -> (Log, Log)
        ensures log { (stream : stream_record) (total : ℕ) (words : List (List ℕ)) →
            StandsFor self stream total words → result.0.entries ≡ log_of words }
        ensures sent { (stream : stream_record) (total : ℕ) (words : List (List ℕ)) →
            StandsFor self stream total words → result.1.entries ≡ sent_of stream words }
    {
        let Station {
            receiver,
            sender,
            ..
        } = self;
        (receiver.into_log(), sender.into_log())
    }
}

/// Requires that a value may be sent to another thread and shared with it.
fn needs_threads<T: Send + Sync>(_value: &T) {}

/// Stations, and receivers and senders as their parts, may be sent to other threads and shared with them.
fn stations_meet_threads(station: &Station) {
    needs_threads(station);
    needs_threads(&station.receiver);
    needs_threads(&station.sender);
}
