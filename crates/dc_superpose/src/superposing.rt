//! Superposed words.

ghost use Rattle.std.specs.Prelude.{◌≡◌, IfOk};
ghost use Rattle.dc_spec.specs.Recorded.{superposed};

use crate::transcript::Transcript;
use dc_field::{NoMemory, Word, Words};
use std::alloc::Global;

/// For each round the sum of its words, in room for so many words that is taken first.
pub fn sums(alloc: Global, t: &Transcript) -> Result<Words, NoMemory>
    ensures { IfOk result (λ ws. ws ≡ superposed t.now) }
{
    let words = t.words.as_slice();
    let stations = t.stations as usize;
    let mut sums = Vec::with_capacity(alloc, t.rounds as usize)?;
    for r in 0..t.rounds as usize {
        sums.push_reserved(Word::sum(&words[r * stations..r * stations + stations]));
    }
    Ok(Words::from_vec(sums))
}
