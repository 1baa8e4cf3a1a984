//! A checked net with other pads and with its streams moved.

ghost use Rattle.std.specs.Prelude.{◌≡◌, ◌≢◌, ◌<◌, length, IfOk, All, AllPairs};
ghost use Rattle.dc_net.specs.Changed.{AreForSamePairs, PermutesHonest, AreMoved, IsMoved};

use crate::checked_net::CheckedNet;
use crate::net::{Net, Streams};
use dc_field::{Items, NoMemory};
use dc_keys::KeyFile;
use dc_stream::Stream;
use std::alloc::Global;

impl CheckedNet {
    /// A copy of the net with these keys, in which the image of each station has the stream of that
    /// station. The keys have the stations, words and pairs of the net's own keys. The permutation is
    /// one of all stations: item `i` is the image of station `i`, and the image of a member is the
    /// member itself. The parts of the new net agree, so nothing is checked; each stream is copied
    /// once.
    pub fn changed(
        &self,
        alloc: Global,
        keys: KeyFile,
        perm: &Items<u16>,
    ) -> Result<CheckedNet, NoMemory>
        requires keys { AreForSamePairs keys self.now.keys }
        requires permutation { PermutesHonest self.now perm.now }
        ensures { IfOk result (IsMoved self.now perm.now keys) }
    {
        let net = self.net();
        let graph = net.graph.copy(alloc)?;
        let coalition = net.coalition.copy(alloc)?;
        let streams = moved_streams(alloc, net.streams.as_slice(), perm.as_slice())?;
        let script = net.script.copy(alloc)?;
        Ok(CheckedNet::of_agreeing(Net {
            graph,
            coalition,
            keys,
            streams,
            script,
            words: net.words,
        }))
    }
}

/// The streams, that of each station at the place of the station's image.
fn moved_streams(
    alloc: Global,
    streams: &[Option<Stream>],
    perm: &[u16],
) -> Result<Streams, NoMemory>
    requires count { length perm.now ≡ length streams.now }
    requires stations { All (λ image. image < length streams.now) perm.now }
    requires distinct { AllPairs (λ i j. i ≢ j) perm.now }
    ensures { IfOk result (AreMoved streams.now perm.now) }
{
    let mut moved = no_streams(alloc, streams.len())?;
    for i in 0..perm.len() {
        moved[usize::from(perm[i])] = copied(alloc, &streams[i])?;
    }
    Ok(Streams::from_vec(moved))
}

/// So many places without a stream.
fn no_streams(alloc: Global, count: usize) -> Result<Vec<Option<Stream>>, NoMemory>
    ensures { IfOk result (λ v. length v.items ≡ count) }
{
    let mut places = Vec::with_capacity(alloc, count)?;
    for k in 0..count {
        places.push(None)?;
    }
    Ok(places)
}

/// A copy of the stream at a place, where there is one.
fn copied(alloc: Global, place: &Option<Stream>) -> Result<Option<Stream>, NoMemory>
    ensures { IfOk result (λ copy. copy ≡ place.now) }
{
    match place {
        None => Ok(None),
        Some(stream) => Ok(Some(stream.copy(alloc)?)),
    }
}
