//! Leaves: the values that an epoch gives.

ghost use Rattle.std.specs.Prelude.{◌≡◌, ◌<◌, ◌≤◌, [], ◌∷◌, ◌++◌, IfOk, length, slice_get};
ghost use Rattle.dc_station_rules.specs.Epochs.{Leaf as leaf_record};

use dc_field::{NoMemory, Value};
use std::alloc::Global;
use std::marker::Model;

/// A value that an epoch gives. Contracts see the record of its fields.
#[derive(Clone, Copy, Debug)]
pub struct Leaf {
    pub value: Value,
    /// How many stations sent it, 1 to 256.
    pub times: u16,
    /// The least number of its group's range.
    pub low: u128,
    /// The greatest number of its group's range; below `low` only in a disturbed epoch.
    pub high: u128,
}

impl Model for Leaf {
    ghost use Rattle.dc_station_rules.specs.Epochs.{Leaf as leaf_record};

    ghost Value = { leaf_record };

    ghost view = { λ l. record { value = l.value; times = l.times; low = l.low; high = l.high } };

    ghost inverse = { λ l. record { value = l.value; times = l.times; low = l.low; high = l.high } };
}

/// The leaves of one word, in order. Contracts see their list.
#[derive(Drop)]
pub struct Leaves {
    items: Vec<Leaf>,
}

impl Model for Leaves {
    ghost use Rattle.std.specs.Prelude.{◌≡◌, List, ◌≤◌, length, vec_capacity};
    ghost use Rattle.dc_station_rules.specs.Epochs.{Leaf as leaf_record};

    ghost Value = { List leaf_record };

    ghost view = { λ l. l.items.items };

    ghost invariant = { λ l. (vec_capacity l.items ≡ 256) × (length l.items.items ≤ 256) };
}

impl Leaves {
    /// No leaves, and room for 256, the most that one word gives.
    pub fn start(alloc: Global) -> Result<Leaves, NoMemory>
        ensures { IfOk result (λ leaves. leaves ≡ []) }
    {
        let items = Vec::with_capacity(alloc, 256)?;
        Ok(Leaves { items })
    }

    pub fn len(&self) -> usize
        ensures len { result ≡ length self.now }
        ensures most { length self.now ≤ 256 }
    {
        self.items.len()
    }

    /// Leaf number `i`, from 0.
    pub fn get(&self, i: usize) -> Leaf
        requires { i < length self.now }
        ensures { slice_get self.now i ≡ Some result }
    {
        self.items[i]
    }

    /// Removes all leaves.
    pub(crate) fn clear(&mut self)
        ensures { self.new ≡ [] }
    {
        self.items.clear();
    }

    /// Puts a leaf at the end, in the room that is reserved.
    pub(crate) fn push(&mut self, leaf: Leaf)
        requires { length self.old < 256 }
        ensures { self.new ≡ self.old ++ leaf ∷ [] }
    {
        self.items.push_reserved(leaf);
    }
}
