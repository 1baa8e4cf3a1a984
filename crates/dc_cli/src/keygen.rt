//! The command `keygen`.

ghost use Rattle.std.specs.Prelude.{◌≡◌, IfOk};
ghost use Rattle.dc_spec.specs.Limits.{manifest_limit};
ghost use Rattle.dc_cli.specs.Making.{MadeOfBytes, MadeOfFile, MakesOf};
ghost use Rattle.dc_cli.specs.Keygen.{generated_file, keygen_making, key_file_for};

use crate::outcome::{FileFault, Outcome};
use crate::reading::{malformed, read_file};
use crate::writing::write_file;
use dc_edge::Shelf;
use dc_field::{Bytes, MANIFEST_LIMIT, NoMemory, Refusal};
use dc_keyfile::{generate_seeds, generated_bytes, seed_bytes};
use dc_manifest::{Manifest, read_manifest};
use std::alloc::Global;

/// What a key file holds of each edge.
#[derive(Clone, Copy)]
pub enum KeyMaterial {
    /// All pads.
    Pads,
    /// The seed that generates them.
    Seeds,
}

/// Writes the key file that a seed makes for the net of a manifest. All else is done before it is written.
pub fn run_keygen<F: Shelf>(
    alloc: Global,
    material: KeyMaterial,
    seed: &[u8; 32],
    net: &str,
    target: &str,
    shelf: &mut F,
) -> Outcome
    ensures { MakesOf (keygen_making material seed.now net.now target.now)
        (F.state shelf.old) (F.state shelf.new) result }
{
    match keys_of_file(alloc, material, seed, net, shelf) {
        Ok(bytes) => write_file(alloc, shelf, target, bytes.as_slice()),
        Err(outcome) => outcome,
    }
}

/// The bytes of the key file for the manifest in a file.
fn keys_of_file<F: Shelf>(
    alloc: Global,
    material: KeyMaterial,
    seed: &[u8; 32],
    net: &str,
    shelf: &mut F,
) -> Result<Bytes, Outcome>
    ensures { MadeOfFile (generated_file material seed.now) net.now manifest_limit
        (F.state shelf.old) (F.state shelf.new) result }
{
    let bytes = read_file(alloc, shelf, net, MANIFEST_LIMIT)?;
    keys_of_bytes(alloc, material, seed, net, bytes.as_slice())
}

/// The bytes of the key file for the manifest that these bytes of a file hold.
fn keys_of_bytes(
    alloc: Global,
    material: KeyMaterial,
    seed: &[u8; 32],
    net: &str,
    bytes: &[u8],
) -> Result<Bytes, Outcome>
    ensures { MadeOfBytes (generated_file material seed.now) net.now bytes.now result }
{
    match read_manifest(alloc, bytes) {
        Ok(manifest) => match keys_of_manifest(alloc, material, seed, &manifest) {
            Ok(bytes) => Ok(bytes),
            Err(NoMemory) => Err(Outcome::NoMemory),
        },
        Err(Refusal::NoMemory) => Err(Outcome::NoMemory),
        Err(Refusal::Bad(fault)) => Err(malformed(alloc, net, FileFault::Manifest(fault))),
    }
}

/// The bytes of the key file for a manifest.
fn keys_of_manifest(
    alloc: Global,
    material: KeyMaterial,
    seed: &[u8; 32],
    manifest: &Manifest,
) -> Result<Bytes, NoMemory>
    ensures { IfOk result (λ bytes. bytes ≡ key_file_for material seed.now manifest.now) }
{
    match material {
        KeyMaterial::Pads => generated_bytes(alloc, seed, &manifest.graph, manifest.words),
        KeyMaterial::Seeds => {
            let seeds = generate_seeds(alloc, seed, &manifest.graph, manifest.words)?;
            seed_bytes(alloc, &seeds)
        }
    }
}
