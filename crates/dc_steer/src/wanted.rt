//! Wanted words.

ghost use Rattle.std.specs.Prelude.{◌≡◌, ℕ, List, IfOk, Ok};
ghost use Rattle.dc_formats.specs.ListFiles.{AreWanted, wanted_text};
ghost use Rattle.dc_field.specs.Answers.{Answers};
ghost use Rattle.dc_steer.specs.Wanted.{wanted_from_bytes};

use dc_field::{ListFault, ListKind, MOST_WORDS, Refusal, Word, Words, read_word_text};
use dc_text::{ListItem, read_list};
use std::alloc::Global;

/// Reads a line with a wanted word.
struct WantedWord;

impl ListItem for WantedWord {
    ghost use Rattle.dc_spec.specs.Words.{IsWord};
    ghost use Rattle.dc_spec.specs.Text.{word_text};
    ghost use Rattle.dc_steer.specs.Wanted.{word_in};
    ghost use Rattle.dc_steer.specs.WantedTexts.{word_texts};

    type Item = Word;

    ghost item = { word_in };

    ghost IsItem = { IsWord };

    ghost text_of = { word_text };

    ghost has_texts = { word_texts };

    fn read(text: &[u8]) -> Option<Word> {
        match read_word_text(text) {
            Ok(word) => Some(word),
            Err(_) => None,
        }
    }
}

/// The words that the bytes of a file of wanted words spell, or the first fault.
///
/// The file is this project's own format: each line is a word in eighty lower-case hexadecimal
/// digits. Bytes that do not spell words are refused with the first faulty line, from 1: it is not
/// text, it is the 4097th, or it is not a word.
#[tactic(auto, unfolding(crate::specs::Wanted::wanted_from_bytes))]
pub fn read_wanted(alloc: Global, b: &[u8]) -> Result<Words, Refusal<ListFault>>
    // The words, or the fault of the first line that has one, by the order of the tests.
    ensures exact { Answers result (wanted_from_bytes b.now) }
    // The words that are read are within the limits, and the bytes are their text.
    ensures found { IfOk result (λ words. AreWanted words × (b.now ≡ wanted_text words)) }
    // The text of words within the limits is read as these words.
    ensures only { (words : List (List ℕ)) → AreWanted words → b.now ≡ wanted_text words →
        Answers result (Ok words) }
{
    read_list::<WantedWord>(alloc, b, usize::from(MOST_WORDS), ListKind::Word)
}
