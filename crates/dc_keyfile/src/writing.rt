//! Writing key files of both versions.

ghost use Rattle.std.specs.Prelude.{◌≡◌, ◌++◌, ◌<◌, [], ◌∷◌, IfOk, OnOk, Ok, codes};
ghost use Rattle.std.specs.List.{flat_map};
ghost use Rattle.std.specs.Int.{w16, w32, to_be_bytes};
ghost use Rattle.dc_spec.specs.Bytes.{symbol_bytes};
ghost use Rattle.dc_formats.specs.KeyFile.{pair_bytes, keys_bytes};
ghost use Rattle.dc_formats.specs.SeedFile.{seed_pair_bytes, seeds_bytes};
ghost use Rattle.dc_keyfile.specs.Head.{head_bytes};
ghost use Rattle.dc_keyfile.specs.Reading.{keys_from_bytes};
ghost use Rattle.dc_keyfile.specs.SeedReading.{seeds_from_bytes};

use crate::seed_file::{SeedFile, SeedPair};
use dc_field::{Bytes, NoMemory};
use dc_keys::{KeyFile, PairKey};
use std::alloc::Global;

/// The bytes of a key file, in memory taken once.
pub fn key_bytes(alloc: Global, f: &KeyFile) -> Result<Bytes, NoMemory>
    ensures written { IfOk result (λ b. b ≡ keys_bytes f.now) }
    ensures read { IfOk result (λ b. keys_from_bytes b ≡ Ok f.now) }
{
    let pairs = f.pairs.as_slice();
    let size = 4 + 128 * usize::from(f.words);
    let mut bytes = Vec::with_capacity(alloc, 12 + size * pairs.len())?;
    put_head(&mut bytes, 1, f.stations, f.words, pairs.len() as u32)?;
    put_pairs(&mut bytes, pairs)?;
    Ok(Bytes::from_vec(bytes))
}

/// The bytes of a key file of seeds, in memory taken once.
pub fn seed_bytes(alloc: Global, f: &SeedFile) -> Result<Bytes, NoMemory>
    ensures written { IfOk result (λ b. b ≡ seeds_bytes f.now) }
    ensures read { IfOk result (λ b. seeds_from_bytes b ≡ Ok f.now) }
{
    let pairs = f.pairs.as_slice();
    let mut bytes = Vec::with_capacity(alloc, 12 + 36 * pairs.len())?;
    put_head(&mut bytes, 2, f.stations, f.words, pairs.len() as u32)?;
    put_seed_pairs(&mut bytes, pairs)?;
    Ok(Bytes::from_vec(bytes))
}

/// Puts the first twelve bytes of a file of this version.
pub(crate) fn put_head(
    bytes: &mut Vec<u8>,
    version: u8,
    stations: u16,
    words: u16,
    count: u32,
) -> Result<(), NoMemory>
    ensures { OnOk result (bytes.new.items ≡
        bytes.old.items ++ head_bytes version stations words count) }
{
    bytes.extend_from_slice(b"DCK")?;
    bytes.push(version)?;
    bytes.extend_from_slice(&stations.to_be_bytes())?;
    bytes.extend_from_slice(&words.to_be_bytes())?;
    bytes.extend_from_slice(&count.to_be_bytes())?;
    Ok(())
}

/// Puts pairs one after another.
fn put_pairs(bytes: &mut Vec<u8>, pairs: &[PairKey]) -> Result<(), NoMemory>
    ensures { OnOk result (bytes.new.items ≡ bytes.old.items ++ flat_map pair_bytes pairs.now) }
{
    for pair in pairs {
        put_pair(bytes, pair)?;
    }
    Ok(())
}

/// Puts the ends of a pair, its first pads and its second pads.
fn put_pair(bytes: &mut Vec<u8>, pair: &PairKey) -> Result<(), NoMemory>
    ensures { OnOk result (bytes.new.items ≡ bytes.old.items ++ pair_bytes pair.now) }
{
    bytes.extend_from_slice(&pair.u.to_be_bytes())?;
    bytes.extend_from_slice(&pair.v.to_be_bytes())?;
    put_pads(bytes, pair.a.as_slice())?;
    put_pads(bytes, pair.b.as_slice())
}

/// Puts pads, four bytes each.
fn put_pads(bytes: &mut Vec<u8>, pads: &[u32]) -> Result<(), NoMemory>
    ensures { OnOk result (bytes.new.items ≡ bytes.old.items ++ flat_map symbol_bytes pads.now) }
{
    for x in pads {
        bytes.extend_from_slice(&x.to_be_bytes())?;
    }
    Ok(())
}

/// Puts pairs with their seeds one after another.
fn put_seed_pairs(bytes: &mut Vec<u8>, pairs: &[SeedPair]) -> Result<(), NoMemory>
    ensures { OnOk result (bytes.new.items ≡
        bytes.old.items ++ flat_map seed_pair_bytes pairs.now) }
{
    for pair in pairs {
        put_seed_pair(bytes, pair)?;
    }
    Ok(())
}

/// Puts the ends of a pair and its seed.
fn put_seed_pair(bytes: &mut Vec<u8>, pair: &SeedPair) -> Result<(), NoMemory>
    ensures { OnOk result (bytes.new.items ≡ bytes.old.items ++ seed_pair_bytes pair.now) }
{
    bytes.extend_from_slice(&pair.u.to_be_bytes())?;
    bytes.extend_from_slice(&pair.v.to_be_bytes())?;
    bytes.extend_from_slice(&pair.seed)?;
    Ok(())
}
