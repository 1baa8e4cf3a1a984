//! Words as columns of sixteen rows.

ghost use Rattle.std.specs.Prelude.{◌≡◌, ◌≢◌, ◌+◌, ◌*◌, ◌%◌, ◌<◌, ℕ, [], length, slice_index, slice_index_or};
ghost use Rattle.dc_spec.specs.Symbols.{AreSymbols};
ghost use Rattle.dc_spec.specs.Words.{IsWord, AreWords, word_of};

use dc_field::Word;
use dc_keys::reduced;

/// The word in a column of sixteen rows.
pub(crate) fn read_word(rows: &[u32], width: usize, column: usize) -> Word
    requires long { length rows.now ≡ width * 16 }
    requires within { column < width }
    ensures { result ≡ word_of (λ l. slice_index rows.now (width * l + column) % 65537) }
{
    let mut totals = [0u64; 16];
    for l in 0..16 {
        totals[l] = u64::from(rows[width * l + column]);
    }
    reduced(&totals)
}

/// Writes words to the columns of sixteen rows.
pub(crate) fn write_words(rows: &mut [u32], words: &[Word])
    requires long { length rows.old ≡ length words.now * 16 }
    requires symbols { AreSymbols rows.old }
    ensures words { AreWords words.now }
    ensures written { (s l : ℕ) → s < length words.now → l < 16 →
        slice_index rows.new (length words.now * l + s)
        ≡ slice_index (slice_index_or words.now s []) l }
    ensures symbols { AreSymbols rows.new }
{
    for s in 0..words.len() {
        write_word(rows, words.len(), s, &words[s]);
    }
}

/// Writes a word to a column of sixteen rows.
fn write_word(rows: &mut [u32], width: usize, column: usize, w: &Word)
    requires long { length rows.old ≡ width * 16 }
    requires within { column < width }
    requires symbols { AreSymbols rows.old }
    ensures word { IsWord w.now }
    ensures written { (l : ℕ) → l < 16 →
        slice_index rows.new (width * l + column) ≡ slice_index w.now l }
    ensures others { (l s : ℕ) → s < width → s ≢ column →
        slice_index rows.new (width * l + s) ≡ slice_index rows.old (width * l + s) }
    ensures symbols { AreSymbols rows.new }
{
    let numbers = w.numbers();
    for l in 0..16 {
        rows[width * l + column] = numbers[l];
    }
}
