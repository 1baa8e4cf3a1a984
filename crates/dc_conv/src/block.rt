//! The words that a mask has taken since its last full block.

ghost use Rattle.std.specs.Prelude.{◌≡◌, ◌<◌, ◌∷◌, ◌++◌, ◌≤◌, ◌↔◌, IsTrue, [], length, IfOk};
ghost use Rattle.dc_spec.specs.Words.{IsWord};

use dc_field::{NoMemory, Word};
use std::alloc::Global;
use std::marker::Model;

/// At most 32 words, seen by contracts as the list of these words. Their memory is taken once: the
/// room is exactly 32 words.
#[derive(Drop)]
pub struct Block {
    items: Vec<Word>,
}

impl Model for Block {
    ghost use Rattle.std.specs.Prelude.{◌≡◌, ℕ, List, vec_capacity};

    ghost Value = { List (List ℕ) };

    ghost view = { λ b. b.items.items };

    ghost invariant = { λ b. vec_capacity b.items ≡ 32 };
}

impl Block {
    /// A block of no words.
    pub fn start(alloc: Global) -> Result<Block, NoMemory>
        ensures { IfOk result (λ b. b ≡ []) }
    {
        let items = Vec::with_capacity(alloc, 32)?;
        Ok(Block { items })
    }

    /// The words, in the order in which they were taken.
    pub fn as_slice(&self) -> &[Word]
        ensures { result.now ≡ self.now }
    {
        self.items.as_slice()
    }

    /// Puts a word at the end. Takes no memory.
    pub fn push(&mut self, w: &Word)
        requires { length self.old < 32 }
        ensures value { self.new ≡ self.old ++ w.now ∷ [] }
        ensures word { IsWord w.now }
    {
        has_sixteen_symbols(w);
        self.items.push_reserved(*w);
    }

    /// Whether the block has 32 words.
    pub fn is_full(&self) -> bool
        ensures { IsTrue result ↔ (32 ≤ length self.now) }
    {
        32 <= self.items.len()
    }

    /// Removes all words. The room stays.
    pub fn clear(&mut self)
        ensures { self.new ≡ [] }
    {
        self.items.clear();
    }
}

/// Does nothing: it tells the prover that a word has sixteen symbols.
fn has_sixteen_symbols(w: &Word)
    ensures { IsWord w.now }
{
    let _ = w.numbers();
}
