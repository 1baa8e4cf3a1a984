//! The streams of all stations.

ghost use Rattle.std.specs.Prelude.{◌≡◌, IfOk, length};
ghost use Rattle.dc_net_files.specs.Parts.{streams_step};
ghost use Rattle.dc_net_files.specs.Reading.{Ended};

use crate::fault::NotRead;
use crate::parts::read_station_stream;
use dc_edge::Shelf;
use dc_field::Text;
use dc_net::Streams;
use std::alloc::Global;

/// The stream of each station, by station: a file for each name that is not empty.
pub(crate) fn read_streams<F: Shelf>(
    alloc: Global,
    shelf: &mut F,
    names: &[Text],
) -> Result<Streams, NotRead>
    ensures ended { Ended (streams_step names.now) (F.state shelf.old) (F.state shelf.new) result }
    ensures count { IfOk result (λ streams. length streams ≡ length names.now) }
{
    let mut streams = Vec::with_capacity(alloc, names.len())?;
    for name in names {
        let stream = read_station_stream(alloc, shelf, name.as_str())?;
        streams.push(stream)?;
    }
    Ok(Streams::from_vec(streams))
}
