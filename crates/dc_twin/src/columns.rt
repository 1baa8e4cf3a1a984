//! Words by rows and by columns.

ghost use Rattle.std.specs.Prelude.{◌≡◌, ◌+◌, ◌*◌, ◌<◌, ◌≤◌, ◌++◌, length, map, slice_index_or, IfOk};
ghost use Rattle.std.specs.List.{flat_map, range_with_len};
ghost use Rattle.dc_spec.specs.Words.{zero_word};
ghost use Rattle.dc_twin.specs.Demands.{words_at, row_of};
ghost use Rattle.dc_twin.specs.Edges.{row_in};

use dc_field::{NoMemory, Word, Words};
use std::alloc::Global;

/// The words at one place of each of so many rows of `count` words.
pub(crate) fn words_at(
    alloc: Global,
    words: &[Word],
    rows: u16,
    count: usize,
    place: usize,
) -> Result<Vec<Word>, NoMemory>
    requires place { place < count }
    requires rows { rows * count ≤ length words.now }
    ensures { IfOk result (λ v. v.items ≡ words_at rows count place words.now) }
{
    let rows = usize::from(rows);
    let mut column = Vec::with_capacity(alloc, rows)?;
    for t in 0..rows {
        column.push(words[t * count + place])?;
    }
    Ok(column)
}

/// The row of a number, where so many rows have `count` words each.
pub(crate) fn row(words: &[Word], rows: u16, count: usize, t: u16) -> &[Word]
    requires row { t < rows }
    requires rows { rows * count ≤ length words.now }
    ensures { result.now ≡ row_in count words.now t }
{
    let from = usize::from(t) * count;
    &words[from..from + count]
}

/// So many rows, each with a word from each column; where a column has no word of a row, the zero
/// word. Room is taken at once for so many columns.
pub(crate) fn rows_of(
    alloc: Global,
    columns: &[Words],
    room: u16,
    rows: u16,
) -> Result<Words, NoMemory>
    ensures { IfOk result (λ words.
        words ≡ flat_map (row_of columns.now) (range_with_len 0 rows)) }
{
    let mut words = Vec::with_capacity(alloc, usize::from(room) * usize::from(rows))?;
    for t in 0..usize::from(rows) {
        push_row(&mut words, columns, t)?;
    }
    Ok(Words::from_vec(words))
}

/// Pushes the word of a row from each column.
fn push_row(words: &mut Vec<Word>, columns: &[Words], t: usize) -> Result<(), NoMemory>
    ensures { IfOk result (λ _. words.new.items ≡ words.old.items ++ row_of columns.now t) }
{
    for column in columns {
        words.push(word_or_zero(column.as_slice(), t))?;
    }
    Ok(())
}

/// A word of a list, or past its end the zero word.
fn word_or_zero(words: &[Word], t: usize) -> Word
    ensures { result ≡ slice_index_or words.now t zero_word }
{
    if t < words.len() {
        words[t]
    } else {
        Word::zero()
    }
}
