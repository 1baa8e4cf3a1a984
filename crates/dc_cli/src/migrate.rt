//! The command `migrate`.

ghost use Rattle.std.specs.Prelude.{◌≡◌};
ghost use Rattle.dc_spec.specs.Limits.{key_file_limit};
ghost use Rattle.dc_cli.specs.Making.{MadeOfBytes, MadeOfFile, MakesOf};
ghost use Rattle.dc_cli.specs.Migrating.{migrated_file, migrate_making};

use crate::outcome::{FileFault, Outcome};
use crate::reading::{malformed, read_file};
use crate::writing::write_file;
use dc_edge::Shelf;
use dc_field::{Bytes, KEY_FILE_LIMIT, NoMemory, Refusal};
use dc_keyfile::{key_bytes, read_keys};
use std::alloc::Global;
use std::thread::Threads;

/// Writes the key file of the pads of a key file. All else is done before it is written.
pub fn run_migrate<R: Threads + Sync, F: Shelf>(
    rt: &R,
    alloc: Global,
    keys: &str,
    target: &str,
    shelf: &mut F,
) -> Outcome
    ensures { MakesOf (migrate_making keys.now target.now)
        (F.state shelf.old) (F.state shelf.new) result }
{
    match pads_of_file(rt, alloc, keys, shelf) {
        Ok(bytes) => write_file(alloc, shelf, target, bytes.as_slice()),
        Err(outcome) => outcome,
    }
}

/// The bytes of the key file of pads for the key file in a file.
fn pads_of_file<R: Threads + Sync, F: Shelf>(
    rt: &R,
    alloc: Global,
    keys: &str,
    shelf: &mut F,
) -> Result<Bytes, Outcome>
    ensures { MadeOfFile migrated_file keys.now key_file_limit
        (F.state shelf.old) (F.state shelf.new) result }
{
    let bytes = read_file(alloc, shelf, keys, KEY_FILE_LIMIT)?;
    pads_of_bytes(rt, alloc, keys, bytes.as_slice())
}

/// The bytes of the key file of pads for the key file that these bytes of a file spell.
fn pads_of_bytes<R: Threads + Sync>(
    rt: &R,
    alloc: Global,
    keys: &str,
    bytes: &[u8],
) -> Result<Bytes, Outcome>
    ensures { MadeOfBytes migrated_file keys.now bytes.now result }
{
    match read_keys(rt, alloc, bytes) {
        Ok(read) => match key_bytes(alloc, &read) {
            Ok(bytes) => Ok(bytes),
            Err(NoMemory) => Err(Outcome::NoMemory),
        },
        Err(Refusal::NoMemory) => Err(Outcome::NoMemory),
        Err(Refusal::Bad(fault)) => Err(malformed(alloc, keys, FileFault::Keys(fault))),
    }
}
