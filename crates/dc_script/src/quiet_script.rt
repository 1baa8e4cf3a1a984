//! The script of a coalition that says nothing.

ghost use Rattle.std.specs.Prelude.{◌≡◌, ◌<◌, ◌≤◌, IfOk, All, map, filter, replicate};
ghost use Rattle.std.specs.List.{range_with_len};
ghost use Rattle.dc_spec.specs.Limits.{most_words};
ghost use Rattle.dc_spec.specs.Words.{zero_word};
ghost use Rattle.dc_spec.specs.Lists.{is_among};
ghost use Rattle.dc_graph.specs.Graph.{AreMembers};
ghost use Rattle.dc_script.specs.Quiet.{quiet_says, quiet_turn, quiet_script};

use crate::delivery::Delivery;
use crate::round::{Round, Rounds};
use crate::said::{Dealt, Said};
use crate::script::Script;
use crate::term::Terms;
use dc_field::{NoMemory, Word};
use dc_graph::Coalition;
use std::alloc::Global;

/// The script of a coalition in a graph of `n` stations, for a session of `words` rounds, in which
/// every member says the zero word and every delivery is the sum.
pub fn quiet(alloc: Global, c: &Coalition, n: u16, words: u16) -> Result<Script, NoMemory>
    requires members { All (λ m. m < n) c.now }
    requires some_words { 1 ≤ words }
    requires most_words { words ≤ most_words }
    ensures { IfOk result (λ s. s ≡ quiet_script c.now words) }
{
    note_members(c);
    let rounds = quiet_rounds(alloc, c, n, words)?;
    Ok(Script {
        version: 1,
        rounds: Rounds::from_vec(rounds),
    })
}

/// The given number of quiet rounds.
fn quiet_rounds(alloc: Global, c: &Coalition, n: u16, words: u16) -> Result<Vec<Round>, NoMemory>
    requires { All (λ m. m < n) c.now }
    ensures { IfOk result (λ rounds. rounds.items ≡ replicate words (quiet_turn c.now)) }
{
    let mut rounds = Vec::with_capacity(alloc, usize::from(words))?;
    for _t in 0..words {
        rounds.push(quiet_round(alloc, c, n)?)?;
    }
    Ok(rounds)
}

/// A round in which the members say the zero word.
fn quiet_round(alloc: Global, c: &Coalition, n: u16) -> Result<Round, NoMemory>
    requires { All (λ m. m < n) c.now }
    ensures { IfOk result (λ round. round ≡ quiet_turn c.now) }
{
    let says = zero_words(alloc, c, n)?;
    Ok(Round {
        says: Dealt::from_vec(says),
        delivery: Delivery::Sum,
    })
}

/// The zero word for each member.
fn zero_words(alloc: Global, c: &Coalition, n: u16) -> Result<Vec<Said>, NoMemory>
    requires { All (λ m. m < n) c.now }
    ensures { IfOk result (λ says. says.items ≡ quiet_says c.now) }
{
    note_members(c);
    let mut says = Vec::with_capacity(alloc, usize::from(c.len()))?;
    for station in 0..n {
        if c.holds(station) {
            says.push(Said {
                station,
                word: Word::zero(),
                terms: Terms::from_vec(Vec::new(alloc)),
            })?;
        }
    }
    Ok(says)
}

/// Gives the prover a fact and does nothing: the members are stations, each once, rising.
fn note_members(c: &Coalition)
    ensures { AreMembers c.now }
{
    let _ = c.holds(0);
}
