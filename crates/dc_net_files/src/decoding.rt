//! The bytes of each kind of file, decoded.

ghost use Rattle.dc_field.specs.Answers.{Answers};
ghost use Rattle.std.specs.Prelude.{IfOk};
ghost use Rattle.dc_manifest.specs.Content.{IsContent};
ghost use Rattle.dc_net_files.specs.Parts.{manifest_in, keys_in, stream_in, script_in};

use crate::fault::NetFileFault;
use dc_field::Refusal;
use dc_keyfile::read_keys;
use dc_keys::KeyFile;
use dc_manifest::{Manifest, read_manifest};
use dc_script::{Script, read_script};
use dc_stream::{Stream, read_stream};
use std::alloc::Global;
use std::thread::Threads;

/// The manifest that bytes hold.
pub(crate) fn manifest_in(alloc: Global, b: &[u8]) -> Result<Manifest, Refusal<NetFileFault>>
    ensures exact { Answers result (manifest_in b.now) }
    ensures limits { IfOk result (λ m. IsContent m) }
{
    match read_manifest(alloc, b) {
        Ok(manifest) => Ok(manifest),
        Err(Refusal::NoMemory) => Err(Refusal::NoMemory),
        Err(Refusal::Bad(fault)) => Err(Refusal::Bad(NetFileFault::Manifest(fault))),
    }
}

/// The keys that bytes hold.
pub(crate) fn keys_in<R: Threads + Sync>(
    rt: &R,
    alloc: Global,
    b: &[u8],
) -> Result<KeyFile, Refusal<NetFileFault>>
    ensures { Answers result (keys_in b.now) }
{
    match read_keys(rt, alloc, b) {
        Ok(keys) => Ok(keys),
        Err(Refusal::NoMemory) => Err(Refusal::NoMemory),
        Err(Refusal::Bad(fault)) => Err(Refusal::Bad(NetFileFault::Keys(fault))),
    }
}

/// The stream that bytes hold.
pub(crate) fn stream_in(alloc: Global, b: &[u8]) -> Result<Stream, Refusal<NetFileFault>>
    ensures { Answers result (stream_in b.now) }
{
    match read_stream(alloc, b) {
        Ok(stream) => Ok(stream),
        Err(Refusal::NoMemory) => Err(Refusal::NoMemory),
        Err(Refusal::Bad(fault)) => Err(Refusal::Bad(NetFileFault::Stream(fault))),
    }
}

/// The script that bytes hold.
pub(crate) fn script_in(alloc: Global, b: &[u8]) -> Result<Script, Refusal<NetFileFault>>
    ensures { Answers result (script_in b.now) }
{
    match read_script(alloc, b) {
        Ok(script) => Ok(script),
        Err(Refusal::NoMemory) => Err(Refusal::NoMemory),
        Err(Refusal::Bad(fault)) => Err(Refusal::Bad(NetFileFault::Script(fault))),
    }
}
