//! What a coalition does in a session.

ghost use Rattle.std.specs.Prelude.{◌≡◌, ◌+◌, ◌<◌, ◌≤◌, [], ◌∷◌, ◌++◌, IfOk, length};
ghost use Rattle.dc_spec.specs.Limits.{most_words, most_terms};
ghost use Rattle.dc_formats.specs.ScriptFile.{IsTurn, turn_terms, script_terms};

use crate::round::{Round, Rounds};
use dc_field::NoMemory;
use std::alloc::Global;
use std::marker::Model;

/// The script of a coalition, as in a script file. Contracts see the protocol's record of it.
#[derive(Debug, Drop)]
pub struct Script {
    /// The version of its file: 1, in which no word has terms, or 2.
    pub version: u8,
    /// At most 4096; in each the stations are rising, and where words are dealt there is one at
    /// least. All words together have at most 524288 terms.
    pub rounds: Rounds,
}

impl Model for Script {
    ghost use Rattle.dc_spec.specs.Scripts.{Script as ScriptValue};
    ghost use Rattle.dc_formats.specs.ScriptFile.{IsScript};

    ghost Value = { ScriptValue };

    ghost view = { λ s. record { version = s.version; rounds = s.rounds } };

    ghost invariant = { λ s. IsScript (record { version = s.version; rounds = s.rounds }) };
}

impl Script {
    /// A script without rounds, of version 1 or 2.
    pub fn empty(alloc: Global, version: u8) -> Script
        requires some_version { 1 ≤ version }
        requires most_version { version ≤ 2 }
        ensures { result ≡ record { version = version; rounds = [] } }
    {
        Script {
            version,
            rounds: Rounds::from_vec(Vec::new(alloc)),
        }
    }

    /// The script with one more round at its end. Out of memory, the script is dropped.
    pub fn with_round(self, round: Round) -> Result<Script, NoMemory>
        requires room { length self.rounds < most_words }
        requires turn { IsTurn (length self.rounds) round }
        requires terms { script_terms self.rounds + turn_terms round ≤ most_terms }
        requires first_version { self.version ≡ 1 → turn_terms round ≡ 0 }
        ensures { IfOk result (λ s. s ≡
            record { version = self.version; rounds = self.rounds ++ round ∷ [] }) }
    {
        let Script { version, rounds } = self;
        let mut items = rounds.into_vec();
        items.push(round)?;
        Ok(Script {
            version,
            rounds: Rounds::from_vec(items),
        })
    }

    /// A copy of the script.
    pub fn copy(&self, alloc: Global) -> Result<Script, NoMemory>
        ensures { IfOk result (λ s. s ≡ self.now) }
    {
        let rounds = self.rounds.copy_each(alloc)?;
        Ok(Script {
            version: self.version,
            rounds,
        })
    }
}
