//! What a station of a session keeps of the words that it receives. It does not depend on a stream, so
//! stations that receive the same words can share one receiver.

ghost use Rattle.std.specs.Prelude.{◌≡◌, ℕ, ◌+◌, ◌<◌, ◌≤◌, List, [], ◌∷◌, ◌++◌, IfOk};
ghost use Rattle.dc_spec.specs.Limits.{most_words};
ghost use Rattle.dc_station_rules.specs.Cycles.{place_of};
ghost use Rattle.dc_station_rules.specs.Stations.{log_of};
ghost use Rattle.dc_station.specs.Receiving.{HasMessage, IsReady, phase_at};
ghost use Rattle.dc_station.specs.StandsFor.{ReceiverStandsFor};

use crate::log::Log;
use crate::phase::Phase;
use crate::reception::{Effect, Reception};
use dc_field::{NoMemory, Word};
use std::alloc::Global;
use std::marker::Model;

/// The receiving part of a station, in a session of so many words. All its memory is allocated at the start.
#[derive(Drop)]
pub struct Receiver {
    taken: u16,
    total: u16,
    kept: Reception,
    effect: Effect,
}

impl Model for Receiver {
    ghost use Rattle.dc_station.specs.State.{ReceiverState, IsReceiver};

    ghost Value = { ReceiverState };

    ghost view = { λ r. record { taken = r.taken; total = r.total; kept = r.kept; effect = r.effect } };

    ghost invariant = { λ r. IsReceiver r.taken r.total r.kept r.effect };
}

impl Receiver {
    /// A receiver that has received no words, in a session of 1 to 4096 words.
    pub fn start(alloc: Global, words: u16) -> Result<Receiver, NoMemory>
        requires some { 1 ≤ words }
        requires most { words ≤ most_words }
        ensures { IfOk result (λ receiver. ReceiverStandsFor receiver words []) }
    {
        let kept = Reception::start(alloc, words)?;
        Ok(Receiver {
            taken: 0,
            total: words,
            kept,
            effect: Effect::Nothing,
        })
    }

    /// How many words were received.
    pub fn received(&self) -> u16
        ensures received { result ≡ self.now.taken }
        ensures most { result ≤ self.now.total }
    {
        self.taken
    }

    /// Takes the next received word.
    pub fn receive(&mut self, w: &Word)
        requires { self.old.taken < self.old.total }
        ensures counted { self.new.taken ≡ self.old.taken + 1 }
        ensures same_total { self.new.total ≡ self.old.total }
        ensures stands { (total : ℕ) (words : List (List ℕ)) →
            ReceiverStandsFor self.old total words → ReceiverStandsFor self.new total (words ++ w.now ∷ []) }
    {
        self.effect = self.kept.take(w);
        self.taken += 1;
    }

    /// What the next word is for.
    pub fn phase(&self) -> Phase
        ensures { (total : ℕ) (words : List (List ℕ)) →
            ReceiverStandsFor self.now total words → result ≡ phase_at (place_of words) }
    {
        self.kept.phase
    }

    /// The messages and values of the words received.
    pub fn log(&self) -> &Log
        ensures { (total : ℕ) (words : List (List ℕ)) →
            ReceiverStandsFor self.now total words → result.now.entries ≡ log_of words }
    {
        &self.kept.log
    }

    /// The log alone.
    pub fn into_log(self) -> Log
        ensures { (total : ℕ) (words : List (List ℕ)) →
            ReceiverStandsFor self total words → result.entries ≡ log_of words }
    {
        self.kept.into_log()
    }

    /// What is kept of the words.
    pub(crate) fn kept(&self) -> &Reception
        ensures kept { result.now ≡ self.now.kept }
        ensures ready { IsReady self.now.kept }
    {
        &self.kept
    }

    /// The effect of the last word.
    pub(crate) fn effect(&self) -> Effect
        ensures effect { result ≡ self.now.effect }
        ensures message { HasMessage result self.now.kept.burst }
    {
        self.effect
    }
}
