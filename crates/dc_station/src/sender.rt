//! What a station of a session keeps of its sending. The sender does not keep the stream: each call is
//! given it, so that a stream that is shared or borrowed is not copied.

ghost use Rattle.std.specs.Prelude.{◌≡◌, ℕ, ◌+◌, ◌≤◌, List, [], ◌∷◌, ◌++◌, IfOk};
ghost use Rattle.dc_spec.specs.Limits.{most_words};
ghost use Rattle.dc_spec.specs.Entries.{Stream as stream_record};
ghost use Rattle.dc_station_rules.specs.Stations.{pending_counts, plain_word, sent_of};
ghost use Rattle.dc_station.specs.Receiving.{HasMessage};
ghost use Rattle.dc_station.specs.Sending.{IsWithin};
ghost use Rattle.dc_station.specs.Hearing.{Hears, HearsLeaves};
ghost use Rattle.dc_station.specs.State.{IsSenderOf};
ghost use Rattle.dc_station.specs.StandsFor.{ReceiverStandsFor, SenderStandsFor};

use crate::log::Log;
use crate::phase::{Pending, Phase};
use crate::progress::Progress;
use crate::receiver::Receiver;
use crate::reception::{Effect, Reception};
use dc_average::Leaves;
use dc_field::{NoMemory, Word};
use dc_stream::Stream;
use std::alloc::Global;
use std::marker::Model;

/// The sending part of a station, in a session of so many words. All its memory is allocated at the start.
#[derive(Drop)]
pub struct Sender {
    taken: u16,
    total: u16,
    progress: Progress,
}

impl Model for Sender {
    ghost use Rattle.std.specs.Prelude.{◌≡◌};
    ghost use Rattle.dc_station.specs.State.{SenderState};

    ghost Value = { SenderState };

    ghost view = { λ s. record { taken = s.taken; total = s.total; progress = s.progress } };

    ghost invariant = { λ s. s.progress.log.room ≡ s.total };
}

impl Sender {
    /// A sender of any stream, of which nothing was sent, in a session of 1 to 4096 words.
    pub fn start(alloc: Global, words: u16) -> Result<Sender, NoMemory>
        requires some { 1 ≤ words }
        requires most { words ≤ most_words }
        ensures own { IfOk result (λ sender. (stream : stream_record) → IsSenderOf sender stream) }
        ensures stands { IfOk result (λ sender. (stream : stream_record) →
            SenderStandsFor sender stream words []) }
    {
        let progress = Progress::start(alloc, words)?;
        Ok(Sender {
            taken: 0,
            total: words,
            progress,
        })
    }

    /// The word that a station with this stream and this receiver sends next, before its keys are added.
    pub fn plain(&self, stream: &Stream, receiver: &Receiver) -> Word
        ensures { (total : ℕ) (words : List (List ℕ)) →
            SenderStandsFor self.now stream.now total words →
            ReceiverStandsFor receiver.now total words → result ≡ plain_word stream.now words }
    {
        let kept = receiver.kept();
        match kept.phase {
            Phase::Reserve => self.progress.reservation_word(stream),
            Phase::Burst { field, index } => self.progress.burst_word(stream, field, index),
            Phase::Epoch => self.progress.epoch_word(stream, &kept.epoch),
        }
    }

    /// Takes the word that the receiver received last: it is one word ahead of the sender.
    pub fn take(&mut self, stream: &Stream, receiver: &Receiver)
        requires own { IsSenderOf self.old stream.now }
        requires ahead { receiver.now.taken ≡ self.old.taken + 1 }
        requires session { receiver.now.total ≡ self.old.total }
        ensures own { IsSenderOf self.new stream.now }
        ensures counted { self.new.taken ≡ receiver.now.taken }
        ensures same_total { self.new.total ≡ self.old.total }
        ensures stands { (total : ℕ) (words : List (List ℕ)) (word : List ℕ) →
            SenderStandsFor self.old stream.now total words →
            ReceiverStandsFor receiver.now total (words ++ word ∷ []) →
            SenderStandsFor self.new stream.now total (words ++ word ∷ []) }
    {
        hear(
            &mut self.progress,
            stream,
            receiver.effect(),
            receiver.kept(),
        );
        self.taken = receiver.received();
    }

    /// The entries of the stream that count as sent.
    pub fn sent(&self) -> &Log
        ensures { (stream : stream_record) (total : ℕ) (words : List (List ℕ)) →
            SenderStandsFor self.now stream total words → result.now.entries ≡ sent_of stream words }
    {
        &self.progress.log
    }

    /// How many entries of the stream are pending.
    pub fn pending(&self, stream: &Stream) -> Pending
        requires { IsSenderOf self.now stream.now }
        ensures { (total : ℕ) (words : List (List ℕ)) →
            SenderStandsFor self.now stream.now total words →
            (result.shorts, result.longs) ≡ pending_counts stream.now words }
    {
        self.progress.pending(stream)
    }

    /// The list of sent entries alone.
    pub fn into_log(self) -> Log
        ensures { (stream : stream_record) (total : ℕ) (words : List (List ℕ)) →
            SenderStandsFor self stream total words → result.entries ≡ sent_of stream words }
    {
        self.progress.into_log()
    }
}

/// Takes the effect of a word.
fn hear(progress: &mut Progress, stream: &Stream, effect: Effect, kept: &Reception)
    requires within { IsWithin stream.now progress.old }
    requires message { HasMessage effect kept.now.burst }
    ensures within { IsWithin stream.now progress.new }
    ensures room { progress.new.log.room ≡ progress.old.log.room }
    ensures hears { Hears effect stream.now progress.old kept.now progress.new }
{
    match effect {
        Effect::Nothing => {}
        Effect::Message { field } => progress.take_message(stream, field, kept.burst.message()),
        Effect::Leaves { over } => hear_leaves(progress, stream, &kept.leaves, over),
    }
}

/// Takes the leaves of a word, and the end of the cycle where it is over.
fn hear_leaves(progress: &mut Progress, stream: &Stream, leaves: &Leaves, over: bool)
    requires { IsWithin stream.now progress.old }
    ensures within { IsWithin stream.now progress.new }
    ensures room { progress.new.log.room ≡ progress.old.log.room }
    ensures hears { HearsLeaves over stream.now progress.old leaves.now progress.new }
{
    progress.take_leaves(stream, leaves);
    if over {
        progress.end_cycle(stream);
    }
}
