//! The pads of one station, summed over its pairs.

ghost use Rattle.std.specs.Prelude.{◌≡◌, ◌+◌, ◌-◌, ◌*◌, ◌%◌, ◌≤◌, ◌<◌, ℕ, length, slice_index, if◌then◌else◌, IfOk, All};
ghost use Rattle.dc_spec.specs.Limits.{most_words};
ghost use Rattle.dc_spec.specs.Words.{IsSymbol};
ghost use Rattle.dc_keys.specs.Pads.{IsPadded};
ghost use Rattle.dc_keys.specs.StationPads.{pad_words, signed_pad, station_pads, KeysOfSummedPads, KeysOfSums, KeySumsSplit};

use crate::adding::{add_pads, subtract_pads};
use crate::key_file::KeyFile;
use crate::pair_key::PairKey;
use dc_field::{NoMemory, Syms};
use std::alloc::Global;
use std::marker::Model;

/// The pads of one station for a session of T words, T from 1 to 4096: sixteen first and sixteen
/// second pads a word. Each is the sum modulo 65537 of the pads of the station's pairs, with a
/// plus sign where it is the smaller end and a minus sign where it is the larger end.
#[derive(Drop)]
pub struct SummedPads {
    /// The sums of the first pads.
    pub first: Syms,
    /// The sums of the second pads. The first of them is 0.
    pub second: Syms,
}

impl Model for SummedPads {
    ghost use Rattle.dc_keys.specs.StationPads.{StationPads, IsStationPads};

    ghost Value = { StationPads };

    ghost view = { λ s. record { first = s.first; second = s.second } };

    ghost invariant = { λ s. IsStationPads (record { first = s.first; second = s.second }) };
}

impl SummedPads {
    /// The pads of station `me`. Pairs without this station are passed over.
    pub fn of(alloc: Global, file: &KeyFile, me: u16) -> Result<SummedPads, NoMemory>
        ensures { IfOk result (λ s. s ≡ station_pads file.now me) }
    {
        let count = 16 * usize::from(file.words);
        let mut first = vec![in alloc; 0u32; count]?;
        let mut second = vec![in alloc; 0u32; count]?;
        sum_pairs(file.pairs.as_slice(), me, &mut first, &mut second);
        Ok(SummedPads {
            first: Syms::from_vec(first),
            second: Syms::from_vec(second),
        })
    }

    /// For how many words there are pads, 1 to 4096.
    pub fn words(&self) -> u16
        ensures value { result ≡ pad_words self.now }
        ensures some { 1 ≤ result }
        ensures most { result ≤ most_words }
    {
        (self.first.as_slice().len() / 16) as u16
    }
}

/// Adds the signed first and second pads of all pairs of station `me` to zeros.
fn sum_pairs(pairs: &[PairKey], me: u16, first: &mut [u32], second: &mut [u32])
    requires first_pads { All (λ p. length p.a ≡ length first.old) pairs.now }
    requires second_pads { All (λ p. length p.b ≡ length second.old) pairs.now }
    requires first_zeros { (n : ℕ) → slice_index first.old n ≡ 0 }
    requires second_zeros { (n : ℕ) → slice_index second.old n ≡ 0 }
    ensures first { (n : ℕ) → n < length first.old →
        slice_index first.new n ≡ signed_pad (λ p. p.a) pairs.now me n }
    ensures second { (n : ℕ) → n < length second.old →
        slice_index second.new n ≡ signed_pad (λ p. p.b) pairs.now me n }
{
    for pair in pairs {
        add_signed(first, pair.a.as_slice(), pair.u == me, pair.v == me);
        add_signed(second, pair.b.as_slice(), pair.u == me, pair.v == me);
    }
}

/// Adds pads to sums where `adds`, and subtracts them where `subtracts`.
fn add_signed(sums: &mut [u32], pads: &[u32], adds: bool, subtracts: bool)
    requires as_many { length pads.now ≡ length sums.old }
    requires sums { (n : ℕ) → slice_index sums.old n < 65537 }
    requires pads { (n : ℕ) → slice_index pads.now n < 65537 }
    ensures value { (n : ℕ) → n < length sums.old → slice_index sums.new n ≡ (slice_index sums.old n + (if adds then slice_index pads.now n else 0) + (if subtracts then 65537 - slice_index pads.now n else 0)) % 65537 }
{
    if adds {
        add_pads(sums, pads);
    }
    if subtracts {
        subtract_pads(sums, pads);
    }
}

/// The law of summed pads: they give the signed sum of the pairs' keys.
pub fn summed_pads_law()
    ensures { KeysOfSummedPads }
{}

/// The law of sums: each symbol of a station's key is a first pad plus a sum over the history, and
/// the sum over a history is that over its front plus that over its rest.
pub fn key_sums_split()
    ensures keys { KeysOfSums }
    ensures split { KeySumsSplit }
{}
