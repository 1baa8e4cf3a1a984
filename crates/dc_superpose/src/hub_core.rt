//! The hub: which words it accepts, and the sums that it broadcasts.

ghost use Rattle.std.specs.Prelude.{◌≡◌, ◌<◌, ◌≤◌, ◌∷◌, ◌++◌, ◌↔◌, [], ℕ, List, Some, IfOk, IfErr, IsTrue};
ghost use Rattle.dc_spec.specs.Limits.{most_stations, most_words};
ghost use Rattle.dc_hub_rules.specs.Hubs.{Arrival, complete_rounds, first_missing as first_missing_of, reply};
ghost use Rattle.dc_superpose.specs.HubCore.{StandsFor, IsRecordOf};
ghost use Rattle.dc_superpose.specs.HubSteps.{answer_of, fault_of, IsDue, Accepts, Counts};

use crate::hub_fault::HubFault;
use crate::hub_step::HubStep;
use crate::presence::Presence;
use crate::transcript::Transcript;
use crate::word_table::WordTable;
use dc_field::{NoMemory, Word};
use std::alloc::Global;
use std::marker::Model;

/// Collects the words of a session's stations, round after round. The accepted word of a station in
/// a round is the first one that arrives while that round is in progress; a round is complete when
/// all stations' words are there, and then the next one begins (a rule of this project's own).
///
/// All memory is taken at the start: the table of accepted words is the list of the transcript.
#[derive(Drop)]
pub struct HubCore {
    /// 1 to 256.
    stations: u16,
    /// 1 to 4096.
    rounds: u16,
    /// How many rounds are complete, which is the round in progress where not all are.
    round: u16,
    /// The word of station `i` in round `t` at `t * stations + i`; zero words where none is yet.
    words: WordTable,
    /// Of which stations the word of the round in progress is there.
    there: Presence,
}

impl Model for HubCore {
    ghost use Rattle.dc_superpose.specs.HubCore.{HubState, IsHub};

    ghost Value = { HubState };

    ghost view = { λ c. record {
      stations = c.stations;
      rounds = c.rounds;
      round = c.round;
      words = c.words;
      there = c.there;
    } };

    ghost invariant = { λ c.
        IsHub (record {
          stations = c.stations;
          rounds = c.rounds;
          round = c.round;
          words = c.words;
          there = c.there;
        }) };
}

impl HubCore {
    /// A hub that no word has reached. It takes all memory of the session.
    pub fn start(alloc: Global, stations: u16, rounds: u16) -> Result<HubCore, NoMemory>
        requires some_stations { 1 ≤ stations }
        requires most_stations { stations ≤ most_stations }
        requires some_rounds { 1 ≤ rounds }
        requires most_rounds { rounds ≤ most_words }
        ensures { IfOk result (λ c. StandsFor c stations rounds []) }
    {
        let words = WordTable::zeros(alloc, usize::from(rounds) * usize::from(stations))?;
        let there = Presence::start(alloc, stations)?;
        Ok(HubCore {
            stations,
            rounds,
            round: 0,
            words,
            there,
        })
    }

    /// Takes the word of a station for round `t`, or refuses it. Takes no memory.
    pub fn take(&mut self, station: u16, t: u16, w: &Word) -> Result<HubStep, HubFault>
        // The answer is the reply by the rule to this arrival after those before it.
        ensures replies { (stations rounds : ℕ) (arrivals : List Arrival) →
            StandsFor self.old stations rounds arrivals →
            result ≡ answer_of (reply stations rounds arrivals
            (record { station = station; round = t; word = w.now })) }
        // A refused arrival stands in the list of arrivals too; the rule does not accept it.
        ensures stands { (stations rounds : ℕ) (arrivals : List Arrival) →
            StandsFor self.old stations rounds arrivals →
            StandsFor self.new stations rounds
            (arrivals ++ record { station = station; round = t; word = w.now } ∷ []) }
        // A refusal changes nothing.
        ensures refused { IfErr result (λ _. self.new ≡ self.old) }
        // One more round is complete exactly where the answer has its sum.
        ensures counts { Counts self.old self.new result }
    {
        let _ = &self.stations;
        match self.refusal(station, t) {
            Some(fault) => Err(fault),
            None => Ok(self.accept(station, w)),
        }
    }

    /// How many rounds are complete, which is the round in progress where not all are.
    pub fn now(&self) -> u16
        ensures number { result ≡ self.now.round }
        ensures within { result ≤ self.now.rounds }
        ensures complete { (stations rounds : ℕ) (arrivals : List Arrival) →
            StandsFor self.now stations rounds arrivals →
            result ≡ complete_rounds stations rounds arrivals }
    {
        self.round
    }

    /// Whether all rounds are complete.
    pub fn is_over(&self) -> bool
        ensures { IsTrue result ↔ (self.now.rounds ≤ self.now.round) }
    {
        self.rounds <= self.round
    }

    /// The least station whose word of the round in progress is missing.
    pub fn first_missing(&self) -> u16
        requires going { self.now.round < self.now.rounds }
        ensures station { result < self.now.stations }
        ensures missing { (stations rounds : ℕ) (arrivals : List Arrival) →
            StandsFor self.now stations rounds arrivals →
            first_missing_of stations arrivals self.now.round ≡ Some result }
    {
        self.there.first_missing().unwrap()
    }

    /// The transcript of the session. Takes no memory and copies no word.
    pub fn finish(self) -> Transcript
        requires over { self.rounds ≤ self.round }
        // The accepted words in their places; the superposed words are what was broadcast.
        ensures accepted { (stations rounds : ℕ) (arrivals : List Arrival) →
            StandsFor self stations rounds arrivals →
            IsRecordOf stations rounds arrivals result }
    {
        Transcript {
            stations: self.stations,
            rounds: self.rounds,
            words: self.words.into_words(),
        }
    }

    /// Why a word of this station for round `t` is refused, if it is.
    fn refusal(&self, station: u16, t: u16) -> Option<HubFault>
        ensures fault { result ≡ fault_of self.now station t }
    {
        if self.stations <= station {
            return Some(HubFault::Station { seen: station });
        }
        if self.round == self.rounds {
            return Some(HubFault::Over);
        }
        if t < self.round {
            return Some(HubFault::Old { now: self.round });
        }
        if self.round < t {
            return Some(HubFault::Ahead { now: self.round });
        }
        if self.there.has(station) {
            let first = usize::from(self.round) * usize::from(self.stations);
            let kept = self.words.get(first + usize::from(station));
            return Some(HubFault::Repeated { kept });
        }
        None
    }

    /// Keeps a word that was missing, and begins the next round where it was the last one.
    fn accept(&mut self, station: u16, w: &Word) -> HubStep
        requires { IsDue self.old station }
        ensures { Accepts self.old station w.now self.new result }
    {
        let first = usize::from(self.round) * usize::from(self.stations);
        self.words.put(first + usize::from(station), w);
        self.there.set(station);
        match self.there.first_missing() {
            Some(first_missing) => HubStep::Waiting { first_missing },
            None => {
                let sum = self.words.sum(first, usize::from(self.stations));
                self.round += 1;
                self.there.clear();
                HubStep::Complete { sum }
            }
        }
    }
}
