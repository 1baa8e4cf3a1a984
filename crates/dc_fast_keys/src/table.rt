//! The rows of numbers that the keys of a net keep.

ghost use Rattle.std.specs.Prelude.{◌≡◌, ◌+◌, ◌*◌, ◌-◌, ◌<◌, ◌≤◌, ℕ, [], length, slice_index, slice_index_or, IfOk};
ghost use Rattle.dc_spec.specs.Symbols.{AreSymbols};
ghost use Rattle.dc_spec.specs.Words.{AreWords};
ghost use Rattle.dc_keys.specs.StationPads.{StationPads};
ghost use Rattle.dc_transform_rules.specs.Transforms.{size};
ghost use Rattle.dc_fast_keys.specs.Spectrum.{CarriedFrom};

use crate::carry::carry_block;
use crate::pads::write_first;
use crate::rows::write_words;
use dc_field::{NoMemory, Word};
use dc_keys::SummedPads;
use dc_transform::Roots;
use std::alloc::Global;
use std::marker::Model;

/// Numbers, seen by contracts as their list. Their memory is taken once.
#[derive(Drop)]
pub struct Table {
    items: Vec<u32>,
}

impl Model for Table {
    ghost use Rattle.std.specs.Prelude.{ℕ, List};

    ghost Value = { List ℕ };

    ghost view = { λ t. t.items.items };
}

impl Table {
    /// `count` zeros.
    pub(crate) fn zeros(alloc: Global, count: usize) -> Result<Table, NoMemory>
        ensures long { IfOk result (λ t. length t ≡ count) }
        ensures zeros { IfOk result (λ t. (i : ℕ) → slice_index t i ≡ 0) }
    {
        let items = vec![in alloc; 0u32; count]?;
        Ok(Table { items })
    }

    /// The first pads of each station, `count` rows.
    pub(crate) fn of_first(
        alloc: Global,
        count: usize,
        pads: &[SummedPads],
    ) -> Result<Table, NoMemory>
        requires few { length pads.now ≤ 256 }
        requires count { count ≤ 65536 }
        ensures long { IfOk result (λ t. length t ≡ length pads.now * count) }
        ensures written { IfOk result (λ t. (s k : ℕ) (none : StationPads) → s < length pads.now → k < count →
            slice_index t (length pads.now * k + s) ≡ slice_index (slice_index_or pads.now s none).first k) }
        ensures symbols { IfOk result AreSymbols }
    {
        let mut items = vec![in alloc; 0u32; pads.len() * count]?;
        write_first(&mut items, count, pads);
        Ok(Table { items })
    }

    /// The numbers.
    pub(crate) fn as_slice(&self) -> &[u32]
        ensures { result.now ≡ self.now }
    {
        self.items.as_slice()
    }

    /// Writes words to the columns of sixteen rows that begin at place `at`.
    pub(crate) fn write_words(&mut self, at: usize, words: &[Word])
        requires within { at + length words.now * 16 ≤ length self.old }
        requires symbols { AreSymbols self.old }
        ensures words { AreWords words.now }
        ensures as_many { length self.new ≡ length self.old }
        ensures before { (i : ℕ) → i < at → slice_index self.new i ≡ slice_index self.old i }
        ensures written { (s l : ℕ) → s < length words.now → l < 16 →
            slice_index self.new (at + (length words.now * l + s)) ≡ slice_index (slice_index_or words.now s []) l }
        ensures symbols { AreSymbols self.new }
    {
        write_part(&mut self.items, at, words);
    }

    /// As `carry_block`, for sums that are a table.
    pub(crate) fn carry_block(
        &mut self,
        roots: &Roots,
        width: usize,
        depth: usize,
        spectrum: &[u32],
        received: &[u32],
        span: (usize, usize),
        work: &mut Table,
    )
        requires some { 0 < depth }
        requires most { depth ≤ 16 }
        requires block { span.0 ≡ size width (depth - 1) }
        requires before { span.0 ≤ span.1 }
        requires spectrum_long { length spectrum.now ≡ size width depth }
        requires received_long { span.1 ≤ length received.now }
        requires sums_long { span.1 ≤ length self.old }
        requires work_long { size width depth + size 1 depth ≤ length work.old }
        requires spectrum_symbols { AreSymbols spectrum.now }
        requires received_symbols { AreSymbols received.now }
        requires sums_symbols { AreSymbols self.old }
        ensures carried { CarriedFrom width depth (size 1 (depth - 1)) span.0 span.1 spectrum.now received.now self.old self.new }
        ensures later { (n : ℕ) → span.1 + span.0 ≤ n → slice_index self.new n ≡ slice_index self.old n }
        ensures symbols { AreSymbols self.new }
        ensures as_many { length self.new ≡ length self.old }
        ensures room { length work.new ≡ length work.old }
    {
        carry_block(
            roots,
            width,
            depth,
            spectrum,
            received,
            span,
            &mut self.items,
            &mut work.items,
        );
    }
}

/// As `Table::write_words`, over a slice.
fn write_part(rows: &mut [u32], at: usize, words: &[Word])
    requires within { at + length words.now * 16 ≤ length rows.old }
    requires symbols { AreSymbols rows.old }
    ensures words { AreWords words.now }
    ensures before { (i : ℕ) → i < at → slice_index rows.new i ≡ slice_index rows.old i }
    ensures written { (s l : ℕ) → s < length words.now → l < 16 →
        slice_index rows.new (at + (length words.now * l + s)) ≡ slice_index (slice_index_or words.now s []) l }
    ensures symbols { AreSymbols rows.new }
{
    let end = at + words.len() * 16;
    write_words(&mut rows[at..end], words);
}
