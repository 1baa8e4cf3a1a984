//! Reading one file.

ghost use Rattle.dc_net_files.specs.Files.{FileRead, Named, TellsFault};

use crate::fault::{NetFileFault, NotRead};
use dc_edge::{Shelf, ShelfFault};
use dc_field::{Bytes, Refusal, Text};
use std::alloc::Global;

/// The bytes of a file, at most `limit` of them, or why there are none.
/// The name is copied first, so that nothing was asked for where memory runs out here.
pub(crate) fn read_file<F: Shelf>(
    alloc: Global,
    shelf: &mut F,
    name: &str,
    limit: u64,
) -> Result<Bytes, NotRead>
    ensures { FileRead name.now limit (F.state shelf.old) (F.state shelf.new) result }
{
    let Ok(copy) = Text::copy_of(alloc, name) else {
        return Err(NotRead::NoMemory);
    };
    match shelf.read(alloc, name, limit) {
        Ok(bytes) => Ok(bytes),
        Err(ShelfFault::Missing) => Err(NotRead::Missing { name: copy }),
        Err(ShelfFault::TooLong) => Err(NotRead::TooLong { name: copy }),
        Err(ShelfFault::Failed) => Err(NotRead::ShelfFault),
        Err(ShelfFault::NoMemory) => Err(NotRead::NoMemory),
    }
}

/// What the bytes of a file were read as, or their fault with the file's name.
pub(crate) fn named<T>(
    alloc: Global,
    name: &str,
    read: Result<T, Refusal<NetFileFault>>,
) -> Result<T, NotRead>
    ensures { Named name.now read result }
{
    match read {
        Ok(value) => Ok(value),
        Err(Refusal::NoMemory) => Err(NotRead::NoMemory),
        Err(Refusal::Bad(fault)) => Err(malformed(alloc, name, fault)),
    }
}

/// The fault of a file with the file's name.
fn malformed(alloc: Global, name: &str, fault: NetFileFault) -> NotRead
    ensures { TellsFault name.now fault result }
{
    match Text::copy_of(alloc, name) {
        Ok(name) => NotRead::Malformed { name, fault },
        Err(_) => NotRead::NoMemory,
    }
}
