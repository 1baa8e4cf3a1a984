//! Words in room that is taken once.

ghost use Rattle.std.specs.Prelude.{◌≡◌, ◌<◌, ◌≤◌, ◌∷◌, ◌++◌, [], length, take, IfOk};

use dc_field::{NoMemory, Word, Words};
use std::alloc::Global;
use std::marker::Model;

/// Words, and room for a number of words that stays the same. Contracts see both.
#[derive(Drop)]
pub struct WordList {
    items: Vec<Word>,
}

impl Model for WordList {
    ghost use Rattle.std.specs.Prelude.{◌≤◌, length, vec_capacity};
    ghost use Rattle.dc_net.specs.WordList.{Kept};

    ghost Value = { Kept };

    ghost view = { λ l. record { words = l.items.items; room = vec_capacity l.items } };

    ghost invariant = { λ l. length l.items.items ≤ vec_capacity l.items };
}

impl WordList {
    /// No words, with room for so many.
    pub fn start(alloc: Global, room: usize) -> Result<WordList, NoMemory>
        ensures { IfOk result (λ l. l ≡ record { words = []; room = room }) }
    {
        let items = Vec::with_capacity(alloc, room)?;
        Ok(WordList { items })
    }

    /// The words, in the order in which they were put.
    pub fn as_slice(&self) -> &[Word]
        ensures { result.now ≡ self.now.words }
    {
        self.items.as_slice()
    }

    /// Puts a word at the end. Takes no memory.
    pub fn push(&mut self, w: Word)
        requires { length self.old.words < self.old.room }
        ensures { self.new ≡ record { words = self.old.words ++ w ∷ []; room = self.old.room } }
    {
        self.items.push_reserved(w);
    }

    /// Removes the words after the first so many. The room stays.
    pub fn truncate(&mut self, count: usize)
        ensures { self.new ≡ record { words = take count self.old.words; room = self.old.room } }
    {
        self.items.truncate(count);
    }

    /// The words alone.
    pub fn into_words(self) -> Words
        ensures { result ≡ self.words }
    {
        Words::from_vec(self.items)
    }
}
