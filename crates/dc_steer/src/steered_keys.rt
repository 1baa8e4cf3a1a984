//! Key files with the changes of a steering.

ghost use Rattle.std.specs.Prelude.{◌≡◌, ◌*◌, length, map, slice_index, IfOk, All};
ghost use Rattle.dc_spec.specs.Words.{IsSymbol};
ghost use Rattle.dc_key_rules.specs.PairKeys.{pads_add, changed_pair as changed_pair_of};
ghost use Rattle.dc_steer.specs.SteeredKeys.{AreChangesFor, steered_pair as steered_pair_of, steered_keys as steered_keys_of};

use crate::changes::PadChanges;
use dc_field::{NoMemory, Syms, TryClone};
use dc_keys::{KeyFile, PairKey, Pairs};
use std::alloc::Global;

/// A copy of a key file in which the pair of these ends has changes added to its pads. The copy is
/// made once.
pub(crate) fn steered_keys(
    alloc: Global,
    keys: &KeyFile,
    u: u16,
    v: u16,
    changes: &PadChanges,
) -> Result<KeyFile, NoMemory>
    requires { AreChangesFor keys.now.words changes.now }
    ensures { IfOk result (λ k. k ≡ steered_keys_of u v changes.now keys.now) }
{
    let pairs = steered_pairs(alloc, keys.pairs.as_slice(), keys.words, u, v, changes)?;
    Ok(KeyFile {
        stations: keys.stations,
        words: keys.words,
        pairs,
    })
}

/// A copy of the pairs of a session of so many words, with the changes at the pair of these ends.
fn steered_pairs(
    alloc: Global,
    pairs: &[PairKey],
    words: u16,
    u: u16,
    v: u16,
    changes: &PadChanges,
) -> Result<Pairs, NoMemory>
    requires pads { All (λ pair. length pair.a ≡ 16 * words) pairs.now }
    requires changes { AreChangesFor words changes.now }
    ensures { IfOk result (λ ps. ps ≡ map (steered_pair_of u v changes.now) pairs.now) }
{
    let mut steered = Vec::with_capacity(alloc, pairs.len())?;
    for pair in pairs {
        steered.push(steered_pair(alloc, pair, words, u, v, changes)?)?;
    }
    Ok(Pairs::from_vec(steered))
}

/// A copy of a pair, with the changes where it has these ends.
fn steered_pair(
    alloc: Global,
    pair: &PairKey,
    words: u16,
    u: u16,
    v: u16,
    changes: &PadChanges,
) -> Result<PairKey, NoMemory>
    requires pads { length pair.now.a ≡ 16 * words }
    requires changes { AreChangesFor words changes.now }
    ensures { IfOk result (λ p. p ≡ steered_pair_of u v changes.now pair.now) }
{
    if pair.u == u && pair.v == v {
        changed_pair(alloc, pair, &changes.first, &changes.second)
    } else {
        pair.try_clone(alloc)
    }
}

/// A pair with these changes added to its first and second pads.
fn changed_pair(
    alloc: Global,
    pair: &PairKey,
    first: &Syms,
    second: &Syms,
) -> Result<PairKey, NoMemory>
    requires first { length first.now ≡ length pair.now.a }
    requires second { length second.now ≡ length pair.now.a }
    requires no_first { slice_index second.now 0 ≡ 0 }
    ensures { IfOk result (λ p. p ≡ changed_pair_of pair.now first.now second.now) }
{
    let a = pads_sum(alloc, pair.a.as_slice(), first.as_slice())?;
    let b = pads_sum(alloc, pair.b.as_slice(), second.as_slice())?;
    Ok(PairKey {
        u: pair.u,
        v: pair.v,
        a,
        b,
    })
}

/// The sums of pads and changes.
fn pads_sum(alloc: Global, pads: &[u32], changes: &[u32]) -> Result<Syms, NoMemory>
    requires as_many { length changes.now ≡ length pads.now }
    requires pads { All IsSymbol pads.now }
    requires changes { All IsSymbol changes.now }
    ensures { IfOk result (λ s. s ≡ pads_add pads.now changes.now) }
{
    let mut sums = Vec::with_capacity(alloc, pads.len())?;
    for n in 0..pads.len() {
        sums.push_reserved((pads[n] + changes[n]) % 65537);
    }
    Ok(Syms::from_vec(sums))
}
