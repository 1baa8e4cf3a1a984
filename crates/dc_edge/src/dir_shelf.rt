//! A shelf over the file system.

ghost use Rattle.std.specs.Prelude.{◌≡◌, ◌≤◌, IfOk, length};
ghost use Rattle.std.specs.IoError.{error_kind};
ghost use Rattle.dc_edge.specs.Opened.{opening_fault};
ghost use Rattle.dc_edge.specs.Untold.{untold_shelf};

use crate::beside::replace_file;
use crate::fault::{ShelfFault, WriteFault};
use crate::opened::{fault_of, read_rest};
use crate::shelf::Shelf;
use dc_field::Bytes;
use std::alloc::Global;
use std::fs::{File, OpenFile};
use std::io;
use std::io::ErrorKind;
use std::rt::Files;

/// The files of the file system, each by its path, as `DirShelf::new(rt)`.
/// Contracts know its count of faults alone. A file that is missing or too long raises it too.
#[derive(Drop)]
pub struct DirShelf<R: Files> {
    files: R,
    fault_count: u64,
}

impl<R: Files> DirShelf<R> {
    pub fn new(files: R) -> DirShelf<R>
        ensures { result ≡ record { files = files; fault_count = 0 } }
    {
        DirShelf {
            files,
            fault_count: 0,
        }
    }
}

impl<R: Files> Shelf for DirShelf<R> {
    ghost state = { λ s. untold_shelf s.fault_count };

    fn read(&mut self, alloc: Global, name: &str, limit: u64) -> Result<Bytes, ShelfFault> {
        let answer = read_path(&self.files, alloc, name, limit);
        match &answer {
            Ok(_) | Err(ShelfFault::NoMemory) => {}
            Err(_) => self.fault_count = self.fault_count.saturating_add(1),
        }
        answer
    }

    /// A reader of the file sees all former bytes or all new ones. Where the write fails, the former bytes stay.
    fn write(&mut self, alloc: Global, name: &str, bytes: &[u8]) -> Result<(), WriteFault> {
        let answer = replace_file(&self.files, alloc, name, bytes);
        if let Err(WriteFault::Failed) = answer {
            self.fault_count = self.fault_count.saturating_add(1);
        }
        answer
    }
}

// Opens a file, refuses it where its length is above the limit, and reads it in room of its length.
fn read_path<R: Files>(
    files: &R,
    alloc: Global,
    path: &str,
    limit: u64,
) -> Result<Bytes, ShelfFault>
    ensures { IfOk result (λ bytes. length bytes ≤ limit) }
{
    let file = File::open(files, path).map_err(fault_of_opening)?;
    let size = file.metadata().map_err(fault_of_opening)?.len();
    if size > limit {
        return Err(ShelfFault::TooLong);
    }
    read_rest(file, alloc, size.saturating_add(1) as usize, limit)
}

// The fault that an error at the opening of a file is.
fn fault_of_opening(error: io::Error) -> ShelfFault
    ensures { result ≡ opening_fault (error_kind error) }
{
    match error.kind() {
        ErrorKind::NotFound => ShelfFault::Missing,
        _ => fault_of(&error),
    }
}
