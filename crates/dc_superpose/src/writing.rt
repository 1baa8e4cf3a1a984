//! Writing a recorded session.

ghost use Rattle.std.specs.Prelude.{◌≡◌, ◌++◌, IfOk, OnOk, Ok};
ghost use Rattle.std.specs.List.{flat_map};
ghost use Rattle.dc_spec.specs.Bytes.{word_bytes as bytes_of_word};
ghost use Rattle.dc_spec.specs.Recorded.{transcript_bytes as spelling};
ghost use Rattle.dc_superpose.specs.Reading.{transcript_of};

use crate::transcript::Transcript;
use dc_field::{Bytes, NoMemory, Word, word_bytes};
use std::alloc::Global;

/// The file of a session, in memory taken once: 8 bytes and 64 for each word, 67,108,872 at most.
pub fn transcript_bytes(alloc: Global, t: &Transcript) -> Result<Bytes, NoMemory>
    ensures written { IfOk result (λ b. b ≡ spelling t.now) }
    ensures read { IfOk result (λ b. transcript_of b ≡ Ok t.now) }
{
    let words = t.words.as_slice();
    let mut bytes = Vec::with_capacity(alloc, 8 + 64 * words.len())?;
    bytes.extend_from_slice(b"DCT1")?;
    bytes.extend_from_slice(&t.stations.to_be_bytes())?;
    bytes.extend_from_slice(&t.rounds.to_be_bytes())?;
    put_words(&mut bytes, words)?;
    Ok(Bytes::from_vec(bytes))
}

/// Puts words one after another.
fn put_words(bytes: &mut Vec<u8>, words: &[Word]) -> Result<(), NoMemory>
    ensures { OnOk result (bytes.new.items ≡ bytes.old.items ++ flat_map bytes_of_word words.now) }
{
    for word in words {
        bytes.extend_from_slice(&word_bytes(word))?;
    }
    Ok(())
}
