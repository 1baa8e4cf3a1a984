//! Reading the two files of one station.

ghost use Rattle.dc_net_files.specs.Station.{station_step};
ghost use Rattle.dc_net_files.specs.Reading.{Ended};
ghost use Rattle.dc_net_files.specs.Settled.{SettledByHeld};

use crate::fault::NotRead;
use crate::parts::{read_key_file, read_stream_file};
use dc_edge::Shelf;
use dc_keys::KeyFile;
use dc_stream::Stream;
use std::alloc::Global;
use std::thread::Threads;

/// What one station of a live session brings.
#[derive(Drop)]
pub struct StationParts {
    /// The keys, those of other stations included.
    pub keys: KeyFile,
    /// What the station has to say.
    pub stream: Stream,
}

/// The keys and the stream of one station, from the files of these names. The key file is decoded,
/// and its bytes are dropped, before the stream file is read.
pub fn read_station<R: Threads + Sync, F: Shelf>(
    rt: &R,
    alloc: Global,
    shelf: &mut F,
    keys: &str,
    stream: &str,
) -> Result<StationParts, NotRead>
    // The files that were asked for and given, and what they hold, or why there is nothing.
    ensures read { Ended (station_step keys.now stream.now) (F.state shelf.old) (F.state shelf.new) result }
    // Where the shelf holds the files, the answer is what their bytes make.
    ensures settled { SettledByHeld (station_step keys.now stream.now)
        (F.state shelf.old) (F.state shelf.new) result }
{
    let keys = read_key_file(rt, alloc, shelf, keys)?;
    let stream = read_stream_file(alloc, shelf, stream)?;
    Ok(StationParts { keys, stream })
}
