//! The pads of all stations as columns of rows.

ghost use Rattle.std.specs.Prelude.{◌≡◌, ◌≢◌, ◌+◌, ◌*◌, ◌<◌, ℕ, length, slice_index, slice_index_or, All};
ghost use Rattle.dc_spec.specs.Symbols.{AreSymbols};
ghost use Rattle.dc_spec.specs.Words.{IsSymbol};
ghost use Rattle.dc_keys.specs.StationPads.{StationPads};

use dc_keys::SummedPads;

/// Writes the first pads of each station to a column of zeros, as many as there are rows.
pub(crate) fn write_first(rows: &mut [u32], count: usize, pads: &[SummedPads])
    requires long { length rows.old ≡ length pads.now * count }
    requires zeros { (i : ℕ) → slice_index rows.old i ≡ 0 }
    ensures written { (s k : ℕ) (none : StationPads) → s < length pads.now → k < count →
        slice_index rows.new (length pads.now * k + s) ≡ slice_index (slice_index_or pads.now s none).first k }
    ensures symbols { AreSymbols rows.new }
{
    for s in 0..pads.len() {
        let of_station = &pads[s];
        write_pads(rows, pads.len(), count, s, of_station.first.as_slice());
    }
}

/// Writes the second pads of each station to a column of zeros, as many as there are rows.
pub(crate) fn write_second(rows: &mut [u32], count: usize, pads: &[SummedPads])
    requires long { length rows.old ≡ length pads.now * count }
    requires zeros { (i : ℕ) → slice_index rows.old i ≡ 0 }
    ensures written { (s k : ℕ) (none : StationPads) → s < length pads.now → k < count →
        slice_index rows.new (length pads.now * k + s) ≡ slice_index (slice_index_or pads.now s none).second k }
    ensures symbols { AreSymbols rows.new }
{
    for s in 0..pads.len() {
        let of_station = &pads[s];
        write_pads(rows, pads.len(), count, s, of_station.second.as_slice());
    }
}

/// Writes pads to a column of zeros, as many as there are rows.
fn write_pads(rows: &mut [u32], width: usize, count: usize, column: usize, pads: &[u32])
    requires long { length rows.old ≡ width * count }
    requires within { column < width }
    requires symbols { AreSymbols rows.old }
    requires pads_symbols { All IsSymbol pads.now }
    requires zeros { (k : ℕ) → slice_index rows.old (width * k + column) ≡ 0 }
    ensures written { (k : ℕ) → k < count → slice_index rows.new (width * k + column) ≡ slice_index pads.now k }
    ensures others { (k s : ℕ) → s < width → s ≢ column →
        slice_index rows.new (width * k + s) ≡ slice_index rows.old (width * k + s) }
    ensures symbols { AreSymbols rows.new }
{
    for k in 0..count.min(pads.len()) {
        rows[width * k + column] = pads[k];
    }
}
