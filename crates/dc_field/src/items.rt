//! The list type of all crates.

ghost use Rattle.std.specs.Prelude.{◌≡◌, ◌<◌, length, slice_set, IfOk};

use crate::refusal::NoMemory;
use crate::word::Word;
use std::alloc::Global;
use std::marker::Model;

/// A list, seen by contracts as the list of what its items are seen as.
///
/// It is a vector. Contracts do not see its room and its allocator. A crate names its lists by their items, as `Words`.
#[derive(Debug, Drop)]
pub struct Items<T> {
    items: Vec<T>,
}

/// Bytes.
pub type Bytes = Items<u8>;

/// Words, each of sixteen symbols.
pub type Words = Items<Word>;

impl<T> Model for Items<T> {
    ghost use Rattle.std.specs.Prelude.{List};

    ghost Value = { List T };

    ghost view = { λ s. s.items.items };
}

impl<T> Items<T> {
    /// Takes no memory.
    pub fn from_vec(items: Vec<T>) -> Items<T>
        ensures { result ≡ items.items }
    {
        Items { items }
    }

    /// Takes no memory.
    pub fn into_vec(self) -> Vec<T>
        ensures { result.items ≡ self }
    {
        self.items
    }

    pub fn as_slice(&self) -> &[T]
        ensures { result.now ≡ self.now }
    {
        self.items.as_slice()
    }
}

impl<T: Copy> Items<T> {
    /// Puts `item` in the place of item number `i`. Takes no memory.
    pub fn set(&mut self, i: usize, item: T)
        requires { i < length self.old }
        ensures { self.new ≡ slice_set self.old i item }
    {
        self.items[i] = item;
    }

    /// The same items again.
    pub fn copy(&self, alloc: Global) -> Result<Items<T>, NoMemory>
        ensures { IfOk result (λ s. s ≡ self.now) }
    {
        let items = Vec::from_slice(alloc, self.items.as_slice())?;
        Ok(Items { items })
    }
}

impl<T: TryClone> Items<T> {
    /// The same items again, each copied by itself.
    pub fn copy_each(&self, alloc: Global) -> Result<Items<T>, NoMemory>
        ensures { IfOk result (λ s. s ≡ self.now) }
    {
        let items = clones(alloc, self.as_slice())?;
        Ok(Items { items })
    }
}

/// A value whose copy takes memory.
pub trait TryClone: Drop {
    /// The same value again.
    fn try_clone(&self, alloc: Global) -> Result<Self, NoMemory>
        ensures { IfOk result (λ x. x ≡ self.now) };
}

impl<T: Copy> TryClone for Items<T> {
    fn try_clone(&self, alloc: Global) -> Result<Items<T>, NoMemory> {
        self.copy(alloc)
    }
}

/// Each item again, in order.
fn clones<T: TryClone>(alloc: Global, from: &[T]) -> Result<Vec<T>, NoMemory>
    ensures { IfOk result (λ v. v.items ≡ from.now) }
{
    let mut items = Vec::with_capacity(alloc, from.len())?;
    for item in from {
        items.push(item.try_clone(alloc)?)?;
    }
    Ok(items)
}
