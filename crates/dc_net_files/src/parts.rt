//! The files of a net, one by one.

ghost use Rattle.std.specs.Prelude.{◌≡◌, ◌<◌, All, IfOk, length};
ghost use Rattle.dc_spec.specs.Limits.{manifest_limit, key_file_limit, stream_limit, script_limit};
ghost use Rattle.dc_manifest.specs.Content.{Content, IsContent};
ghost use Rattle.dc_net_files.specs.Steps.{file_step};
ghost use Rattle.dc_net_files.specs.Parts.{manifest_in as manifest_of, keys_in as keys_of, stream_in as stream_of, script_in as script_of, stream_step, script_step, parts_step};
ghost use Rattle.dc_net_files.specs.Reading.{Ended};

use crate::decoding::{keys_in, manifest_in, script_in, stream_in};
use crate::fault::NotRead;
use crate::file::{named, read_file};
use dc_edge::Shelf;
use dc_field::{KEY_FILE_LIMIT, MANIFEST_LIMIT, SCRIPT_LIMIT, STREAM_LIMIT, Text};
use dc_keys::KeyFile;
use dc_manifest::Manifest;
use dc_script::{Script, quiet};
use dc_stream::Stream;
use std::alloc::Global;
use std::thread::Threads;

/// The manifest of a name.
pub(crate) fn read_manifest_file<F: Shelf>(
    alloc: Global,
    shelf: &mut F,
    name: &str,
) -> Result<Manifest, NotRead>
    ensures ended { Ended (file_step name.now manifest_limit manifest_of)
        (F.state shelf.old) (F.state shelf.new) result }
    ensures limits { IfOk result (λ m. IsContent m) }
{
    let bytes = read_file(alloc, shelf, name, MANIFEST_LIMIT)?;
    named(alloc, name, manifest_in(alloc, bytes.as_slice()))
}

/// The key file of a name.
pub(crate) fn read_key_file<R: Threads + Sync, F: Shelf>(
    rt: &R,
    alloc: Global,
    shelf: &mut F,
    name: &str,
) -> Result<KeyFile, NotRead>
    ensures { Ended (file_step name.now key_file_limit keys_of)
        (F.state shelf.old) (F.state shelf.new) result }
{
    let bytes = read_file(alloc, shelf, name, KEY_FILE_LIMIT)?;
    named(alloc, name, keys_in(rt, alloc, bytes.as_slice()))
}

/// The stream of a name.
pub(crate) fn read_stream_file<F: Shelf>(
    alloc: Global,
    shelf: &mut F,
    name: &str,
) -> Result<Stream, NotRead>
    ensures { Ended (file_step name.now stream_limit stream_of)
        (F.state shelf.old) (F.state shelf.new) result }
{
    let bytes = read_file(alloc, shelf, name, STREAM_LIMIT)?;
    named(alloc, name, stream_in(alloc, bytes.as_slice()))
}

/// The script of a name.
fn read_script_file<F: Shelf>(alloc: Global, shelf: &mut F, name: &str) -> Result<Script, NotRead>
    ensures { Ended (file_step name.now script_limit script_of)
        (F.state shelf.old) (F.state shelf.new) result }
{
    let bytes = read_file(alloc, shelf, name, SCRIPT_LIMIT)?;
    named(alloc, name, script_in(alloc, bytes.as_slice()))
}

/// The stream of a station, or none where its name is empty.
pub(crate) fn read_station_stream<F: Shelf>(
    alloc: Global,
    shelf: &mut F,
    name: &str,
) -> Result<Option<Stream>, NotRead>
    ensures { Ended (stream_step name.now) (F.state shelf.old) (F.state shelf.new) result }
{
    if name.is_empty() {
        return Ok(None);
    }
    let stream = read_stream_file(alloc, shelf, name)?;
    Ok(Some(stream))
}

/// The script that a manifest names, or the quiet one where it names none.
pub(crate) fn read_net_script<F: Shelf>(
    alloc: Global,
    shelf: &mut F,
    manifest: &Manifest,
) -> Result<Script, NotRead>
    ensures { Ended (script_step manifest.now) (F.state shelf.old) (F.state shelf.new) result }
{
    match &manifest.script {
        Some(name) => read_script_file(alloc, shelf, name.as_str()),
        None => match quiet(
            alloc,
            &manifest.coalition,
            manifest.graph.stations(),
            manifest.words,
        ) {
            Ok(script) => Ok(script),
            Err(_) => Err(NotRead::NoMemory),
        },
    }
}
