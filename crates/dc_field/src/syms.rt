//! A list of symbols.

ghost use Rattle.std.specs.Prelude.{◌≡◌, All};
ghost use Rattle.dc_spec.specs.Words.{IsSymbol};

use std::marker::Model;

/// Symbols, seen by contracts as the list of their numbers, each below 65537.
///
/// A type of its own beside `Items`: it keeps plain numbers, over which loops are fast, and its invariant says that they are
/// symbols. Pads are such lists, so it has no `Debug`.
#[derive(Drop)]
pub struct Syms {
    items: Vec<u32>,
}

impl Model for Syms {
    ghost use Rattle.std.specs.Prelude.{ℕ, List, All};
    ghost use Rattle.dc_spec.specs.Words.{IsSymbol};

    ghost Value = { List ℕ };

    ghost view = { λ s. s.items.items };

    ghost invariant = { λ s. All IsSymbol s.items.items };
}

impl Syms {
    /// Takes no memory.
    pub fn from_vec(items: Vec<u32>) -> Syms
        requires { All IsSymbol items.items }
        ensures { result ≡ items.items }
    {
        Syms { items }
    }

    /// Takes no memory.
    pub fn into_vec(self) -> Vec<u32>
        ensures value { result.items ≡ self }
        ensures symbols { All IsSymbol self }
    {
        self.items
    }

    pub fn as_slice(&self) -> &[u32]
        ensures value { result.now ≡ self.now }
        ensures symbols { All IsSymbol self.now }
    {
        self.items.as_slice()
    }
}
