//! The words that a station received in a run.

ghost use Rattle.std.specs.Prelude.{◌≡◌, ◌<◌, false, not, filter, length, IfOk};
ghost use Rattle.std.specs.List.{range_with_len};
ghost use Rattle.dc_spec.specs.Lists.{is_among};
ghost use Rattle.dc_net_rules.specs.Nets.{IsNet};
ghost use Rattle.dc_net_rules.specs.Runs.{all_rounds, history, run_of};
ghost use Rattle.dc_net.specs.WordList.{column as column_of};

use dc_field::{NoMemory, Word, Words};
use dc_net::{Net, Played};
use std::alloc::Global;

/// The words that an honest station received in the run of a net.
pub(crate) fn received_words(
    alloc: Global,
    net: &Net,
    run: &Played,
    i: u16,
) -> Result<Words, NoMemory>
    requires net { IsNet net.now }
    requires run { run.now ≡ run_of net.now }
    requires station { i < net.now.stations }
    requires honest { is_among net.now.coalition i ≡ false }
    ensures { IfOk result (λ ws. ws ≡ history (all_rounds net.now) i) }
{
    let count = honest_below(net, net.graph.stations());
    let place = honest_below(net, i);
    column(alloc, run.delivered.as_slice(), count, place)
}

/// The number of honest stations below `n`.
fn honest_below(net: &Net, n: u16) -> usize
    ensures { result ≡
        length (filter (λ i. not (is_among net.now.coalition i)) (range_with_len 0 n)) }
{
    let coalition = &net.coalition;
    (0..n).filter(|i| !coalition.holds(*i)).count()
}

/// The words at one place of each row of `count` words.
fn column(alloc: Global, words: &[Word], count: usize, place: usize) -> Result<Words, NoMemory>
    requires { place < count }
    ensures { IfOk result (λ ws. ws ≡ column_of count place words.now) }
{
    let rows = words.len() / count;
    let mut column = Vec::with_capacity(alloc, rows)?;
    for k in 0..rows {
        column.push_reserved(words[k * count + place]);
    }
    Ok(Words::from_vec(column))
}
