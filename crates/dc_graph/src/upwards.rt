//! Sums of words from the leaves of a forest upwards.

ghost use Rattle.std.specs.Prelude.{◌≡◌, ◌<◌, ℕ, Some, None, length, slice_index_or, if◌then◌else◌};
ghost use Rattle.dc_spec.specs.Words.{IsWord, zero_word};
ghost use Rattle.dc_graph_rules.specs.Graphs.{KeyGraph};
ghost use Rattle.dc_graph_rules.specs.Forests.{parents, below_sum};
ghost use Rattle.dc_graph.specs.Forest.{IsForestOf, IsOrder, AreOwnWords, parents_in, with_parent};

use crate::place::Place;
use dc_field::{Word, Words};

/// Puts each station's own word: its demand, or the zero word where it is a member.
pub(crate) fn put_own_words(places: &[Place], demands: &[Word], out: &mut Words)
    requires demands { length demands.now ≡ length places.now }
    requires out { length out.old ≡ length places.now }
    ensures { AreOwnWords places.now demands.now out.new }
{
    for v in 0..places.len() {
        out.set(v, own_word(&places[v], &demands[v]));
    }
}

/// The demand of a station, or the zero word where it is a member.
fn own_word(place: &Place, demand: &Word) -> Word
    ensures value { result ≡ if place.now.is_member then zero_word else demand.now }
    ensures word { IsWord result }
{
    let _ = demand.numbers();
    if place.is_member {
        return Word::zero();
    }
    *demand
}

/// Adds the word of each station to that of its parent, from the end of the order to its front.
pub(crate) fn add_upwards(places: &[Place], order: &[u16], sums: &mut Words)
    requires order { IsOrder places.now order.now }
    requires count { length sums.old ≡ length places.now }
    requires words { (v : ℕ) → v < length sums.old → IsWord (slice_index_or sums.old v zero_word) }
    ensures count { length sums.new ≡ length sums.old }
    ensures below { (g : KeyGraph) → IsForestOf g places.now → (v : ℕ) → v < length sums.old →
        slice_index_or sums.new v zero_word ≡ below_sum (parents g) sums.old v }
{
    for k in 0..order.len() {
        add_to_parent(places, order[order.len() - 1 - k], sums);
    }
}

/// Adds the word of a station to that of its parent, if it has one.
fn add_to_parent(places: &[Place], v: u16, sums: &mut Words)
    requires station { v < length places.now }
    requires count { length sums.old ≡ length places.now }
    requires parents { (x u : ℕ) →
        slice_index_or (parents_in places.now) x None ≡ Some u → u < length places.now }
    ensures { sums.new ≡ with_parent (slice_index_or (parents_in places.now) v None) v sums.old }
{
    if let Some(u) = places[usize::from(v)].parent {
        let words = sums.as_slice();
        let sum = words[usize::from(u)].add(&words[usize::from(v)]);
        sums.set(usize::from(u), sum);
    }
}
