//! The command `sum`.

ghost use Rattle.dc_cli.specs.Summing.{SumRan, SummedFile, SummedBytes};

use crate::outcome::{FileFault, Outcome};
use crate::reading::{malformed, read_file};
use dc_edge::{Shelf, Sink};
use dc_field::{Refusal, TRANSCRIPT_LIMIT, Words};
use dc_superpose::read_sums;
use dc_view::put_words;
use std::alloc::Global;

/// Prints the superposed words of a transcript.
pub fn run_sum<F: Shelf, K: Sink>(alloc: Global, file: &str, shelf: &mut F, out: &mut K) -> Outcome
    ensures { SumRan file.now (F.state shelf.old) (F.state shelf.new)
        (K.state out.old) (K.state out.new) result }
{
    match sums_of_file(alloc, file, shelf) {
        Err(outcome) => outcome,
        Ok(words) => match put_words(&words, out) {
            Ok(()) => Outcome::Done,
            Err(_) => Outcome::SinkFault,
        },
    }
}

/// The superposed words of the transcript in a file.
fn sums_of_file<F: Shelf>(alloc: Global, file: &str, shelf: &mut F) -> Result<Words, Outcome>
    ensures { SummedFile file.now (F.state shelf.old) (F.state shelf.new) result }
{
    let bytes = read_file(alloc, shelf, file, TRANSCRIPT_LIMIT)?;
    sums_of_bytes(alloc, file, bytes.as_slice())
}

/// The superposed words of the transcript that these bytes of a file spell.
fn sums_of_bytes(alloc: Global, file: &str, bytes: &[u8]) -> Result<Words, Outcome>
    ensures { SummedBytes file.now bytes.now result }
{
    match read_sums(alloc, bytes) {
        Ok(words) => Ok(words),
        Err(Refusal::NoMemory) => Err(Outcome::NoMemory),
        Err(Refusal::Bad(fault)) => Err(malformed(alloc, file, FileFault::Transcript(fault))),
    }
}
