//! What the parts of a net whose parts agree keep.

ghost use Rattle.std.specs.Prelude.{◌≡◌, Some, All};
ghost use Rattle.dc_formats.specs.KeyFile.{IsKeys};
ghost use Rattle.dc_formats.specs.ScriptFile.{IsScript};
ghost use Rattle.dc_formats.specs.StreamFile.{IsStream};
ghost use Rattle.dc_graph.specs.Graph.{IsGraph};
ghost use Rattle.dc_net_rules.specs.Nets.{IsNet};
ghost use Rattle.dc_net.specs.Checked.{IsChecked, KeepsStream};

use crate::net::Net;
use dc_stream::Stream;

/// Gives the prover facts and does nothing: the parts of a net keep the rules of their files, so a net
/// whose parts agree is a net of the protocol.
pub(crate) fn note_net(net: &Net)
    requires { IsChecked net.now }
    ensures { IsNet net.now }
{
    note_files(net);
    note_streams(net.streams.as_slice());
}

/// The same: the graph, the keys and the script keep the rules of their types.
fn note_files(net: &Net)
    ensures graph { IsGraph (record { stations = net.now.stations; edges = net.now.edges }) }
    ensures keys { IsKeys net.now.keys }
    ensures script { IsScript net.now.script }
{
    let _ = net.graph.stations();
    let keys = &net.keys;
    let _words = keys.words;
    let script = &net.script;
    let _version = script.version;
}

/// The same of each stream.
fn note_streams(streams: &[Option<Stream>])
    ensures { All KeepsStream streams.now }
{
    for place in streams {
        note_place(place);
    }
}

/// The same of the stream of one station, where it has one.
fn note_place(place: &Option<Stream>)
    ensures { KeepsStream place.now }
{
    if let Some(stream) = place {
        note_stream(stream);
    }
}

/// The same of one stream.
fn note_stream(stream: &Stream)
    ensures { IsStream stream.now }
{
    let _ = stream.shorts.as_slice();
}
