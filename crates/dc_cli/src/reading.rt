//! Reading one file, and the outcome of a fault in it.

ghost use Rattle.dc_cli.specs.Reading.{ReadsFile, TellsFault};

use crate::outcome::{FileFault, Outcome};
use dc_edge::{Shelf, ShelfFault};
use dc_field::{Bytes, Text};
use std::alloc::Global;

/// The bytes of a file, at most `limit` of them, or the outcome for the shelf's answer.
/// The name is copied first, so that nothing was asked for where memory runs out here.
pub fn read_file<F: Shelf>(
    alloc: Global,
    shelf: &mut F,
    file: &str,
    limit: u64,
) -> Result<Bytes, Outcome>
    ensures { ReadsFile file.now limit (F.state shelf.old) (F.state shelf.new) result }
{
    let Ok(name) = Text::copy_of(alloc, file) else {
        return Err(Outcome::NoMemory);
    };
    match shelf.read(alloc, file, limit) {
        Ok(bytes) => Ok(bytes),
        Err(ShelfFault::Missing) => Err(Outcome::Missing { name }),
        Err(ShelfFault::TooLong) => Err(Outcome::TooLong { name }),
        Err(ShelfFault::Failed) => Err(Outcome::ShelfFault),
        Err(ShelfFault::NoMemory) => Err(Outcome::NoMemory),
    }
}

/// The outcome of a fault in a file.
pub fn malformed(alloc: Global, file: &str, fault: FileFault) -> Outcome
    ensures { TellsFault file.now fault result }
{
    match Text::copy_of(alloc, file) {
        Ok(name) => Outcome::Malformed { name, fault },
        Err(_) => Outcome::NoMemory,
    }
}
