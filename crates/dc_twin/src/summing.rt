//! The sums of demands below all stations, round by round.

ghost use Rattle.std.specs.Prelude.{◌≡◌, ◌*◌, length, replicate, IfOk};
ghost use Rattle.dc_spec.specs.Words.{zero_word};
ghost use Rattle.dc_graph_rules.specs.Graphs.{key_graph};
ghost use Rattle.dc_graph.specs.Forest.{IsForestOf};
ghost use Rattle.dc_twin.specs.Edges.{sums_in};

use crate::columns::row;
use dc_field::{NoMemory, Word, Words};
use dc_graph::Forest;
use dc_net::Net;
use std::alloc::Global;

/// For each round a word for each station: the sum of the demands below it. The demands have one row
/// for each round, with one word for each station. No memory is taken between rounds.
pub(crate) fn sums_below(
    alloc: Global,
    net: &Net,
    forest: &Forest,
    demands: &Words,
) -> Result<Vec<Word>, NoMemory>
    requires forest { IsForestOf (key_graph net.now) forest.now }
    requires demands { length demands.now ≡ net.now.words * net.now.stations }
    ensures { IfOk result (λ v. v.items ≡ sums_in (key_graph net.now) net.now.words demands.now) }
{
    let n = usize::from(net.graph.stations());
    let demands = demands.as_slice();
    let mut demands_now = zero_words(alloc, n)?;
    let mut below = zero_words(alloc, n)?;
    let mut sums = Vec::with_capacity(alloc, demands.len())?;
    for t in 0..net.words {
        put_row(&mut demands_now, row(demands, net.words, n, t));
        forest.below_sums(&demands_now, &mut below);
        sums.extend_from_slice(below.as_slice())?;
    }
    Ok(sums)
}

/// So many zero words.
fn zero_words(alloc: Global, count: usize) -> Result<Words, NoMemory>
    ensures { IfOk result (λ words. words ≡ replicate count zero_word) }
{
    let words = vec![in alloc; Word::zero(); count]?;
    Ok(Words::from_vec(words))
}

/// Puts words in the place of as many others.
fn put_row(row: &mut Words, words: &[Word])
    requires { length row.old ≡ length words.now }
    ensures { row.new ≡ words.now }
{
    for k in 0..words.len() {
        row.set(k, words[k]);
    }
}
