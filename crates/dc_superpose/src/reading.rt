//! The file of a recorded session.

ghost use Rattle.std.specs.Prelude.{◌≡◌, ◌+◌, ◌*◌, ◌≤◌, ◌^◌, length, vec_capacity, IfOk, Ok};
ghost use Rattle.dc_spec.specs.Recorded.{Recorded, IsRecorded, transcript_bytes};
ghost use Rattle.dc_field.specs.Answers.{Answers};
ghost use Rattle.dc_superpose.specs.Reading.{transcript_of, words_of, due_length};
ghost use Rattle.dc_superpose.specs.Sizes.{session_of_sizes, AreSizes};
ghost use Rattle.dc_superpose.specs.Pieces.{FirstAreSymbols, ReadsWords};

use crate::fault::TranscriptFault;
use crate::sizes::{Sizes, read_sizes};
use crate::transcript::Transcript;
use dc_field::{Refusal, Word, Words, read_word};
use std::alloc::Global;

/// The session of a file. Memory is taken only where the file is as long as its header says.
pub fn read_transcript(alloc: Global, b: &[u8]) -> Result<Transcript, Refusal<TranscriptFault>>
    // What is read, or the first fault by the order of the tests.
    ensures exact { Answers result (transcript_of b.now) }
    // The bytes are the spelling of what is read.
    ensures found { IfOk result (λ t. IsRecorded t × (b.now ≡ transcript_bytes t)) }
    // The spelling of a session is read as that session.
    ensures only { (t : Recorded) → IsRecorded t → b.now ≡ transcript_bytes t
        → Answers result (Ok t) }
{
    read_in_order(alloc, b)
}

/// Tests the header and the length, then reads on.
fn read_in_order(alloc: Global, b: &[u8]) -> Result<Transcript, Refusal<TranscriptFault>>
    ensures { Answers result (transcript_of b.now) }
{
    match read_sizes(b) {
        Ok(sizes) => read_body(alloc, b, sizes),
        Err(fault) => Err(Refusal::Bad(fault)),
    }
}

/// Tests the words, then the end.
fn read_body(alloc: Global, b: &[u8], sizes: Sizes) -> Result<Transcript, Refusal<TranscriptFault>>
    requires { AreSizes b.now sizes }
    ensures { Answers result (session_of_sizes b.now (Ok sizes)) }
{
    let count = sizes.rounds as usize * sizes.stations as usize;
    let words = read_words(alloc, b, count)?;
    if sizes.due < b.len() {
        return Err(Refusal::Bad(TranscriptFault::Rest {
            at: sizes.due as u64,
        }));
    }
    Ok(Transcript {
        stations: sizes.stations,
        rounds: sizes.rounds,
        words,
    })
}

/// The words after the header, in room taken once.
fn read_words(alloc: Global, b: &[u8], count: usize) -> Result<Words, Refusal<TranscriptFault>>
    requires most { count ≤ 2 ^ 20 }
    requires long_enough { due_length count ≤ length b.now }
    ensures { Answers result (words_of b.now count) }
{
    let mut words = Vec::with_capacity(alloc, count)?;
    match fill_words(b, 0, count, &mut words) {
        Ok(()) => Ok(Words::from_vec(words)),
        Err(fault) => Err(Refusal::Bad(fault)),
    }
}

/// Fills a list with the words from word number `first` on, in place of what it held and in the room that it has.
pub(crate) fn fill_words(
    b: &[u8],
    first: usize,
    count: usize,
    words: &mut Vec<Word>,
) -> Result<(), TranscriptFault>
    requires most { first + count ≤ 2 ^ 20 }
    requires long_enough { due_length (first + count) ≤ length b.now }
    requires good { FirstAreSymbols b.now (16 * first) }
    requires room { count ≤ vec_capacity words.old }
    ensures words { ReadsWords b.now first count result words.new.items }
    ensures room { vec_capacity words.new ≡ vec_capacity words.old }
{
    words.clear();
    for j in 0..count {
        let at = 8 + 64 * (first + j);
        match read_word(&b[at..at + 64]) {
            Ok(word) => words.push_reserved(word),
            Err(fault) => {
                return Err(TranscriptFault::Symbol {
                    at: at as u64 + 4 * u64::from(fault.symbol),
                    seen: fault.seen,
                });
            }
        }
    }
    Ok(())
}
