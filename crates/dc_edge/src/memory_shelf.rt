//! A shelf in memory.

ghost use Rattle.std.specs.Prelude.{◌≡◌, [], IfOk, OnErr, OnOk};
ghost use Rattle.std.specs.Option.{option_copied};
ghost use Rattle.dc_edge.specs.ShelfBook.{shelf_state, book_holding, held_bytes, answer_of, ReadsBook, WritesBook};
ghost use Rattle.dc_edge.specs.Shelf.{Reads, Writes};

use crate::fault::{ShelfFault, WriteFault};
use crate::shelf::Shelf;
use dc_field::{Bytes, NoMemory, Text};
use std::alloc::{AllocError, Global};
use std::marker::Model;

// A name and the bytes under it.
#[derive(Drop)]
struct HeldFile {
    name: Text,
    bytes: Bytes,
}

impl Model for HeldFile {
    ghost use Rattle.std.specs.Prelude.{ℕ, List};

    ghost Value = { List ℕ × List ℕ };

    ghost view = { λ f. (f.name, f.bytes) };
}

/// A shelf that holds the files that it is given, and that fails at chosen calls.
/// Calls of `read` and `write` are numbered from 0; the number stays at 2^32 - 1 once there.
#[derive(Drop)]
pub struct MemoryShelf {
    held: Vec<HeldFile>,
    names: Vec<Text>,
    failing: Vec<u32>,
    call: u32,
    fault_count: u64,
}

impl Model for MemoryShelf {
    ghost use Rattle.dc_edge.specs.ShelfBook.{ShelfBook};

    ghost Value = { ShelfBook };

    ghost view = { λ s. record { files = s.held.items; asked = s.names.items; fails = s.failing.items; calls = s.call; faults = s.fault_count } };
}

impl MemoryShelf {
    /// A shelf without files. Its calls whose numbers are in `fails` fail.
    pub fn new(alloc: Global, fails: &[u32]) -> Result<MemoryShelf, NoMemory>
        ensures { IfOk result (λ s. s ≡ record { files = []; asked = []; fails = fails.now; calls = 0; faults = 0 }) }
    {
        let failing = Vec::from_slice(alloc, fails)?;
        Ok(MemoryShelf {
            held: Vec::new(alloc),
            names: Vec::new(alloc),
            failing,
            call: 0,
            fault_count: 0,
        })
    }

    /// Holds the bytes under the name from here on, in place of those that it held.
    pub fn hold(&mut self, alloc: Global, name: &str, bytes: &[u8]) -> Result<(), NoMemory>
        ensures ok { OnOk result (self.new ≡ book_holding self.old name.now bytes.now) }
        ensures err { OnErr result (self.new ≡ self.old) }
    {
        let name = Text::copy_of(alloc, name)?;
        let bytes = Bytes::from_vec(Vec::from_slice(alloc, bytes)?);
        self.held.insert(0, HeldFile { name, bytes })?;
        Ok(())
    }
}

impl Shelf for MemoryShelf {
    ghost state = { shelf_state };

    /// Takes its memory first, so that all stays as it was where memory runs out.
    fn read(&mut self, alloc: Global, name: &str, limit: u64) -> Result<Bytes, ShelfFault>
        ensures exact { ReadsBook name.now limit self.old self.new result }
        ensures reads { Reads name.now limit (shelf_state self.old) (shelf_state self.new) result }
    {
        let answer = answer_for(alloc, self.held.as_slice(), name, limit)?;
        let asked = Text::from_string(String::from_str(alloc, name)?);
        self.names.push(asked)?;
        let fails = self.failing.contains(&self.call);
        self.call = self.call.saturating_add(1);
        if fails {
            self.fault_count = self.fault_count.saturating_add(1);
            return Err(ShelfFault::Failed);
        }
        answer
    }

    /// Takes its memory first, so that all stays as it was where memory runs out. A call that fails changes no file.
    fn write(&mut self, alloc: Global, name: &str, bytes: &[u8]) -> Result<(), WriteFault>
        ensures exact { WritesBook name.now bytes.now self.old self.new result }
        ensures writes { Writes name.now bytes.now (shelf_state self.old) (shelf_state self.new) result }
    {
        let file = HeldFile {
            name: Text::from_string(String::from_str(alloc, name)?),
            bytes: Bytes::from_vec(Vec::from_slice(alloc, bytes)?),
        };
        let asked = Text::from_string(String::from_str(alloc, name)?);
        self.names.reserve(1)?;
        let fails = self.failing.contains(&self.call);
        if !fails {
            self.held.insert(0, file)?;
        }
        self.names.push_reserved(asked);
        self.call = self.call.saturating_add(1);
        if fails {
            self.fault_count = self.fault_count.saturating_add(1);
            return Err(WriteFault::Failed);
        }
        Ok(())
    }
}

// The answer for the name, with a copy of the bytes where they are within the limit.
fn answer_for(
    alloc: Global,
    files: &[HeldFile],
    name: &str,
    limit: u64,
) -> Result<Result<Bytes, ShelfFault>, AllocError>
    ensures { IfOk result (λ answer. answer ≡ answer_of (held_bytes files.now name.now) limit) }
{
    let answer = match found(files, name) {
        None => Err(ShelfFault::Missing),
        Some(bytes) if bytes.len() as u64 > limit => Err(ShelfFault::TooLong),
        Some(bytes) => Ok(Bytes::from_vec(Vec::from_slice(alloc, bytes)?)),
    };
    Ok(answer)
}

// The bytes under the name.
fn found<'a>(files: &'a [HeldFile], name: &str) -> Option<&'a [u8]>
    ensures { option_copied result ≡ held_bytes files.entry.now name.now }
{
    for file in files {
        if file.name.as_str() == name {
            return Some(file.bytes.as_slice());
        }
    }
    None
}
