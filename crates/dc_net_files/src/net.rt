//! Reading a whole net.

ghost use Rattle.std.specs.Prelude.{◌≡◌, ◌<◌, All, IfOk, length};
ghost use Rattle.dc_net_files.specs.Parts.{net_step, parts_step};
ghost use Rattle.dc_net_files.specs.Reading.{Agreed, Ended, NetRead};
ghost use Rattle.dc_net_files.specs.Settled.{SettledByHeld};

use crate::fault::NotRead;
use crate::parts::{read_key_file, read_manifest_file, read_net_script};
use crate::streams::read_streams;
use dc_edge::Shelf;
use dc_net::{CheckedNet, Net};
use std::alloc::Global;
use std::thread::Threads;

/// The net that the manifest of a name and the files that it names make, or why they make none.
///
/// The files are read one by one: the manifest, the key file, the streams by station number, the
/// script. An empty stream name is passed over; where the manifest names no script, the script is
/// the quiet one. Each file is decoded, and its bytes are dropped, before the next is read. Then
/// the parts are compared.
pub fn read_net<R: Threads + Sync, F: Shelf>(
    rt: &R,
    alloc: Global,
    shelf: &mut F,
    name: &str,
) -> Result<CheckedNet, NotRead>
    // The files that were asked for and given, and the net, or why there is none.
    ensures read { NetRead name.now (F.state shelf.old) (F.state shelf.new) result }
    // Where the shelf holds the files, the answer is what their bytes make.
    ensures settled { SettledByHeld (net_step name.now)
        (F.state shelf.old) (F.state shelf.new) result }
{
    let net = read_parts(rt, alloc, shelf, name)?;
    agreed(net)
}

/// The parts of a net, each decoded before the next is read.
fn read_parts<R: Threads + Sync, F: Shelf>(
    rt: &R,
    alloc: Global,
    shelf: &mut F,
    name: &str,
) -> Result<Net, NotRead>
    ensures ended { Ended (parts_step name.now) (F.state shelf.old) (F.state shelf.new) result }
    ensures streams { IfOk result (λ net. length net.streams ≡ net.stations) }
    ensures members { IfOk result (λ net. All (λ m. m < net.stations) net.coalition) }
{
    let manifest = read_manifest_file(alloc, shelf, name)?;
    let keys = read_key_file(rt, alloc, shelf, manifest.keys.as_str())?;
    let streams = read_streams(alloc, shelf, manifest.streams.as_slice())?;
    let script = read_net_script(alloc, shelf, &manifest)?;
    Ok(Net {
        graph: manifest.graph,
        coalition: manifest.coalition,
        keys,
        streams,
        script,
        words: manifest.words,
    })
}

/// The net where its parts agree, or in what they differ.
fn agreed(net: Net) -> Result<CheckedNet, NotRead>
    requires streams { length net.streams ≡ net.stations }
    requires members { All (λ m. m < net.stations) net.coalition }
    ensures { Agreed net result }
{
    match net.check() {
        Ok(checked) => Ok(checked),
        Err(fault) => Err(NotRead::Disagree { fault }),
    }
}
