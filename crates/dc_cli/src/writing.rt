//! Writing one file.

ghost use Rattle.dc_cli.specs.Making.{WritesFile};

use crate::outcome::Outcome;
use dc_edge::{Shelf, WriteFault};
use std::alloc::Global;

/// Writes the bytes under a name. The outcome is that of a command that ends with this.
pub fn write_file<F: Shelf>(alloc: Global, shelf: &mut F, file: &str, bytes: &[u8]) -> Outcome
    ensures { WritesFile file.now bytes.now (F.state shelf.old) (F.state shelf.new) result }
{
    match shelf.write(alloc, file, bytes) {
        Ok(()) => Outcome::Done,
        Err(WriteFault::Failed) => Outcome::ShelfFault,
        Err(WriteFault::NoMemory) => Outcome::NoMemory,
    }
}
