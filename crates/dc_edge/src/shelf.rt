//! A shelf: bytes by name.

ghost use Rattle.dc_spec.specs.Outside.{ShelfState};
ghost use Rattle.dc_edge.specs.Shelf.{Reads, Writes};

use crate::fault::{ShelfFault, WriteFault};
use dc_field::Bytes;
use std::alloc::Global;

/// Files by name.
pub trait Shelf {
    /// The file of each name, the names asked for so far, and the count of faults.
    ghost state: { Self → ShelfState };

    /// The bytes of a name, at most `limit` of them.
    fn read(&mut self, alloc: Global, name: &str, limit: u64) -> Result<Bytes, ShelfFault>
        ensures { Reads name.now limit (state self.old) (state self.new) result };

    /// Puts the bytes under a name, in place of those that it held.
    fn write(&mut self, alloc: Global, name: &str, bytes: &[u8]) -> Result<(), WriteFault>
        ensures { Writes name.now bytes.now (state self.old) (state self.new) result };
}
