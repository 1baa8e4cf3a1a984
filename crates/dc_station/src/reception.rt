//! What is kept of received words.

ghost use Rattle.std.specs.Prelude.{◌≡◌, ℕ, ◌+◌, ◌<◌, ◌≤◌, [], ◌∷◌, ◌++◌, List, IfOk, length, map};
ghost use Rattle.dc_spec.specs.Limits.{most_words};
ghost use Rattle.dc_station_rules.specs.Stations.{leaf_entry};
ghost use Rattle.dc_reserve.specs.Phases.{IsGoing};
ghost use Rattle.dc_reserve.specs.StandsFor.{StandsFor as BurstStandsFor};
ghost use Rattle.dc_average.specs.StandsFor.{is_done};
ghost use Rattle.dc_station.specs.Logs.{FitsRoom};
ghost use Rattle.dc_station.specs.Receiving.{IsAt, IsBegun, IsReady, Receives, ReceivesWord, TakesNext, fields_from, index_of, phase_after_epoch_word};

use crate::log::Log;
use crate::phase::Phase;
use dc_average::{Ask, Epoch, Leaves};
use dc_field::{NoMemory, Word};
use dc_reserve::{Burst, BurstStep, Fields, granted};
use std::alloc::Global;

/// What is kept of the words received, whatever any station sends.
#[derive(Drop)]
pub(crate) struct Reception {
    pub(crate) phase: Phase,
    /// The fields of the cycle's reservation word.
    pub(crate) granted: Fields,
    pub(crate) burst: Burst,
    pub(crate) epoch: Epoch,
    /// The leaves of the last word of an epoch.
    pub(crate) leaves: Leaves,
    pub(crate) log: Log,
}

/// The result of a word.
#[derive(Clone, Copy, Debug)]
pub(crate) enum Effect {
    /// No message and no leaf.
    Nothing,
    /// The message of the burst of a field; the burst has it.
    Message { field: u8 },
    /// Leaves, perhaps none; whether the epoch, and the cycle with it, is over.
    Leaves { over: bool },
}

impl Reception {
    /// No words, in a session of so many.
    pub(crate) fn start(alloc: Global, words: u16) -> Result<Reception, NoMemory>
        ensures ready { IfOk result IsReady }
        ensures room { IfOk result (λ r. r.log.room ≡ words) }
        ensures phase { IfOk result (λ r. index_of r.phase ≡ 0) }
        ensures receives { IfOk result (λ r. Receives r []) }
    {
        let burst = Burst::start(alloc)?;
        let epoch = Epoch::start(alloc)?;
        let leaves = Leaves::start(alloc)?;
        let log = Log::start(alloc, words)?;
        Ok(Reception {
            phase: Phase::Reserve,
            granted: granted(&Word::zero()),
            burst,
            epoch,
            leaves,
            log,
        })
    }

    /// Takes a word. Takes no memory.
    pub(crate) fn take(&mut self, w: &Word) -> Effect
        requires ready { IsReady self.old }
        requires index { index_of self.old.phase < most_words }
        ensures { ReceivesWord self.old w.now self.new result }
    {
        match self.phase {
            Phase::Reserve => self.take_reservation(w),
            Phase::Burst { field, index } => self.take_in_burst(field, index, w),
            Phase::Epoch => self.take_in_epoch(w),
        }
    }

    /// The log alone.
    pub(crate) fn into_log(self) -> Log
        ensures { result ≡ self.log }
    {
        self.log
    }

    /// Takes a reservation word.
    fn take_reservation(&mut self, w: &Word) -> Effect
        requires { self.old.phase ≡ Phase.Reserve }
        ensures { ReceivesWord self.old w.now self.new result }
    {
        self.granted = granted(w);
        self.phase = place_from(&self.granted, 0, &mut self.epoch);
        Effect::Nothing
    }

    /// Takes a word of the burst of a field.
    fn take_in_burst(&mut self, field: u8, index: u16, w: &Word) -> Effect
        requires phase { self.old.phase ≡ Phase.Burst field index }
        requires ready { IsReady self.old }
        requires index { index < most_words }
        ensures { ReceivesWord self.old w.now self.new result }
    {
        match take_next(&mut self.burst, index, w) {
            BurstStep::Goes => {
                let index = index + 1;
                self.phase = Phase::Burst { field, index };
                Effect::Nothing
            }
            BurstStep::Message { .. } => {
                self.log.put_long(self.burst.message());
                self.phase = place_from(&self.granted, field + 1, &mut self.epoch);
                Effect::Message { field }
            }
            BurstStep::Void { .. } => {
                self.phase = place_from(&self.granted, field + 1, &mut self.epoch);
                Effect::Nothing
            }
        }
    }

    /// Takes a word of the epoch.
    fn take_in_epoch(&mut self, w: &Word) -> Effect
        requires phase { self.old.phase ≡ Phase.Epoch }
        requires ready { IsReady self.old }
        ensures { ReceivesWord self.old w.now self.new result }
    {
        self.epoch.take(w, &mut self.leaves);
        put_leaves(&mut self.log, &self.leaves);
        let over = is_over(&self.epoch);
        self.phase = phase_after_epoch_word(over);
        Effect::Leaves { over }
    }
}

/// The burst of the first granted field from a field on; where there is none the epoch, which is begun anew.
fn place_from(granted: &Fields, from: u8, epoch: &mut Epoch) -> Phase
    ensures { IsAt (fields_from granted.now from) granted.now result epoch.new }
{
    match granted.from(from) {
        Some(field) => Phase::Burst { field, index: 0 },
        None => {
            epoch.restart();
            Phase::Epoch
        }
    }
}

/// Begins a burst anew before its first word.
fn begin(burst: &mut Burst, index: u16)
    requires { 1 ≤ index → IsGoing burst.old.phase }
    ensures going { IsGoing burst.new.phase }
    ensures stands { (words : List (List ℕ)) → index ≡ length words →
        IsBegun index burst.old words →
        BurstStandsFor burst.new words }
{
    if index == 0 {
        burst.restart();
    }
}

/// Takes word number `index` of a burst.
fn take_next(burst: &mut Burst, index: u16, w: &Word) -> BurstStep
    requires { 1 ≤ index → IsGoing burst.old.phase }
    ensures { TakesNext index burst.old w.now burst.new result }
{
    begin(burst, index);
    burst.take(w)
}

/// Whether an epoch takes no further word.
fn is_over(epoch: &Epoch) -> bool
    ensures { result ≡ is_done epoch.now }
{
    matches!(epoch.ask(), Ask::Over)
}

/// The phase after a word of an epoch.
fn phase_after_epoch_word(over: bool) -> Phase
    ensures { result ≡ phase_after_epoch_word over }
{
    if over { Phase::Reserve } else { Phase::Epoch }
}

/// Puts leaves at the end of a log.
fn put_leaves(log: &mut Log, leaves: &Leaves)
    ensures room { log.new.room ≡ log.old.room }
    ensures entries { FitsRoom (log.old.entries ++ map leaf_entry leaves.now) log.old.room →
        log.new.entries ≡ log.old.entries ++ map leaf_entry leaves.now }
{
    for i in 0..leaves.len() {
        let leaf = leaves.get(i);
        log.put_short(&leaf.value, leaf.times);
    }
}
