//! Superposed words straight from a file.

ghost use Rattle.std.specs.Prelude.{◌≡◌, ◌*◌, Ok};
ghost use Rattle.dc_spec.specs.Recorded.{Recorded, IsRecorded, transcript_bytes, superposed};
ghost use Rattle.dc_field.specs.Answers.{Answers};
ghost use Rattle.dc_superpose.specs.Reading.{transcript_of, words_of};
ghost use Rattle.dc_superpose.specs.Sizes.{session_of_sizes, AreSizes, sums_of, summed, GivesSums};

use crate::fault::TranscriptFault;
use crate::reading::fill_words;
use crate::sizes::{Sizes, read_sizes};
use dc_field::{Refusal, Word, Words};
use std::alloc::Global;

/// The superposed words of a file: `sums` of what `read_transcript` reads, with room for the words of one round at a time.
pub fn read_sums(alloc: Global, b: &[u8]) -> Result<Words, Refusal<TranscriptFault>>
    // The superposed words of the session that the bytes spell, or the first fault by the order of the tests.
    ensures sums { GivesSums b.now result }
    // The spelling of a session gives its superposed words.
    ensures only { (t : Recorded) → IsRecorded t → b.now ≡ transcript_bytes t
        → Answers result (Ok (superposed t)) }
{
    sum_in_order(alloc, b)
}

/// Tests the header and the length, then sums.
fn sum_in_order(alloc: Global, b: &[u8]) -> Result<Words, Refusal<TranscriptFault>>
    ensures { Answers result (sums_of (transcript_of b.now)) }
{
    match read_sizes(b) {
        Ok(sizes) => sum_body(alloc, b, sizes),
        Err(fault) => Err(Refusal::Bad(fault)),
    }
}

/// Tests the words and sums them round by round, then tests the end.
fn sum_body(alloc: Global, b: &[u8], sizes: Sizes) -> Result<Words, Refusal<TranscriptFault>>
    requires { AreSizes b.now sizes }
    ensures { Answers result (sums_of (session_of_sizes b.now (Ok sizes))) }
{
    let sums = sum_rounds(alloc, b, sizes)?;
    if sizes.due < b.len() {
        return Err(Refusal::Bad(TranscriptFault::Rest {
            at: sizes.due as u64,
        }));
    }
    Ok(sums)
}

/// For each round the sum of its words, each symbol tested.
fn sum_rounds(alloc: Global, b: &[u8], sizes: Sizes) -> Result<Words, Refusal<TranscriptFault>>
    requires { AreSizes b.now sizes }
    ensures { Answers result (summed sizes (words_of b.now (sizes.rounds * sizes.stations))) }
{
    let stations = sizes.stations as usize;
    let mut sums = Vec::with_capacity(alloc, sizes.rounds as usize)?;
    let mut round = Vec::with_capacity(alloc, stations)?;
    for r in 0..sizes.rounds as usize {
        match fill_words(b, r * stations, stations, &mut round) {
            Ok(()) => sums.push_reserved(Word::sum(round.as_slice())),
            Err(fault) => return Err(Refusal::Bad(fault)),
        }
    }
    Ok(Words::from_vec(sums))
}
