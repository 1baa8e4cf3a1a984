//! A burst: it takes words one after the other, and gives a message.

ghost use Rattle.std.specs.Prelude.{◌≡◌, ℕ, ◌+◌, ◌*◌, ◌≤◌, List, [], ◌∷◌, ◌++◌, IfOk, length};
ghost use Rattle.dc_station_rules.specs.Bursts.{burst_of, gave};
ghost use Rattle.dc_reserve.specs.Phases.{IsGoing, MayFollow, burst_phase_after};
ghost use Rattle.dc_reserve.specs.StandsFor.{IsAfter, IsWhole, StandsFor, StepShows};

use crate::judge::{BurstStep, Phase, judge};
use dc_field::{NoMemory, Word};
use std::alloc::Global;
use std::marker::Model;

/// A burst. Contracts see its phase and the bytes of its words.
#[derive(Drop)]
pub struct Burst {
    phase: Phase,
    bytes: Vec<u8>,
}

impl Model for Burst {
    ghost use Rattle.std.specs.Prelude.{◌≡◌, vec_capacity};
    ghost use Rattle.dc_reserve.specs.Phases.{FitsPhase};
    ghost use Rattle.dc_reserve.specs.StandsFor.{State};

    ghost Value = { State };

    ghost view = { λ b. record { phase = b.phase; bytes = b.bytes.items } };

    ghost invariant = { λ b. FitsPhase b.phase b.bytes.items × (vec_capacity b.bytes ≡ 3840) };
}

impl Burst {
    /// A burst before its first word, with room for the bytes of 256 words.
    pub fn start(alloc: Global) -> Result<Burst, NoMemory>
        ensures stands { IfOk result (λ burst. StandsFor burst []) }
        ensures going { IfOk result (λ burst. IsGoing burst.phase) }
    {
        let bytes = Vec::with_capacity(alloc, 3840)?;
        Ok(Burst {
            phase: Phase::First,
            bytes,
        })
    }

    /// Begins a new burst, before its first word, whatever was taken.
    pub fn restart(&mut self)
        ensures stands { StandsFor self.new [] }
        ensures going { IsGoing self.new.phase }
    {
        self.phase = Phase::First;
        self.bytes.clear();
    }

    /// Takes a word. The burst must still need one.
    pub fn take(&mut self, w: &Word) -> BurstStep
        requires { IsGoing self.old.phase }
        ensures stands { (words : List (List ℕ)) → StandsFor self.old words →
            StandsFor self.new (words ++ w.now ∷ []) }
        ensures step { (words : List (List ℕ)) → StandsFor self.old words →
            StepShows result (burst_of (words ++ w.now ∷ [])) }
        ensures phase { IsAfter result self.new.phase }
    {
        let step = judge(self.phase, &mut self.bytes, w);
        self.phase = burst_phase_after(step, w);
        step
    }

    /// The message of the burst that has just become whole.
    pub fn message(&self) -> &[u8]
        requires { IsWhole self.now.phase }
        ensures { (words : List (List ℕ)) (message : List ℕ) → StandsFor self.now words →
            burst_of words ≡ gave message → result.now ≡ message }
    {
        match self.phase {
            Phase::Whole { length } => &self.bytes[2..2 + usize::from(length)],
            _ => &[],
        }
    }
}

/// The phase of a burst after a step at this word.
fn burst_phase_after(step: BurstStep, w: &Word) -> Phase
    requires { MayFollow step w.now }
    ensures { result ≡ burst_phase_after step w.now }
{
    match step {
        BurstStep::Goes => Phase::Later {
            left: w.numbers()[0] as u16 - 1,
        },
        BurstStep::Message { length } => Phase::Whole { length },
        BurstStep::Void { .. } => Phase::Broken,
    }
}
