//! What a run of a net records.

use dc_field::{Items, Words};
use dc_station::{Log, Pending};
use std::marker::Model;

/// A log for each honest station.
pub type Logs = Items<Log>;

/// For each honest station how many entries are pending.
pub type Pendings = Items<Pending>;

/// A run of a net of n stations, h of them honest, for T rounds. Contracts see the protocol's record
/// of a run.
#[derive(Drop)]
pub struct Played {
    /// The word of station i in round t at `t * n + i`; `n * T` words.
    pub words: Words,
    /// The sum of all words of each round; T words.
    pub sums: Words,
    /// The word that the j-th honest station received in round t at `t * h + j`; `h * T` words.
    pub delivered: Words,
    /// What each honest station logged; h logs.
    pub logs: Logs,
    /// Which entries of its stream count as sent, for each honest station; h lists.
    pub sents: Logs,
    /// How many entries of its stream are pending, for each honest station.
    pub pending: Pendings,
}

impl Model for Played {
    ghost use Rattle.std.specs.Prelude.{map};
    ghost use Rattle.dc_spec.specs.Net.{Run};

    ghost Value = { Run };

    ghost view = { λ p. record {
      words = p.words;
      sums = p.sums;
      delivered = p.delivered;
      logs = map (λ log. log.entries) p.logs;
      sents = map (λ log. log.entries) p.sents;
      pending = map (λ counts. (counts.shorts, counts.longs)) p.pending;
    } };
}
