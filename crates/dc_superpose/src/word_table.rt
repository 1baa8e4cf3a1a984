//! The accepted words of a session, in a table that is filled in place.

ghost use Rattle.std.specs.Prelude.{◌≡◌, ◌+◌, ◌<◌, ◌≤◌, [], length, get_or, set, replicate, take, drop, IfOk};
ghost use Rattle.dc_spec.specs.Words.{IsWord, zero_word, word_sum};

use dc_field::{NoMemory, Word, Words};
use std::alloc::Global;
use std::marker::Model;

/// Words in room that is taken once: the room is exactly the number of words.
#[derive(Drop)]
pub struct WordTable {
    items: Vec<Word>,
}

impl Model for WordTable {
    ghost use Rattle.std.specs.Prelude.{◌≡◌, ℕ, List, vec_len, vec_capacity};

    ghost Value = { List (List ℕ) };

    ghost view = { λ s. s.items.items };

    ghost invariant = { λ s. vec_capacity s.items ≡ vec_len s.items };
}

impl WordTable {
    /// So many zero words.
    pub fn zeros(alloc: Global, count: usize) -> Result<WordTable, NoMemory>
        ensures { IfOk result (λ s. s ≡ replicate count zero_word) }
    {
        let mut items = Vec::with_capacity(alloc, count)?;
        for _ in 0..count {
            items.push_reserved(Word::zero());
        }
        Ok(WordTable { items })
    }

    /// The word at a place.
    pub fn get(&self, at: usize) -> Word
        requires { at < length self.now }
        ensures { result ≡ get_or self.now at [] }
    {
        self.items[at]
    }

    /// Puts a word in the place of another. Takes no memory.
    pub fn put(&mut self, at: usize, w: &Word)
        requires { at < length self.old }
        ensures value { self.new ≡ set self.old at w.now }
        ensures word { IsWord w.now }
    {
        let _ = w.numbers();
        self.items[at] = *w;
    }

    /// The sum of some words from a place on.
    pub fn sum(&self, at: usize, count: usize) -> Word
        requires within { at + count ≤ length self.now }
        requires most { count ≤ 65535 }
        ensures { result ≡ word_sum (take count (drop at self.now)) }
    {
        Word::sum(&self.items[at..at + count])
    }

    /// The words as a list. Takes no memory.
    pub fn into_words(self) -> Words
        ensures { result ≡ self }
    {
        Words::from_vec(self.items)
    }
}
