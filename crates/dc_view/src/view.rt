//! The view of a run.

ghost use Rattle.std.specs.Prelude.{◌≡◌};
ghost use Rattle.dc_edge.specs.Sink.{Puts};
ghost use Rattle.dc_net.specs.Checked.{IsChecked};
ghost use Rattle.dc_net_rules.specs.Runs.{run_of};
ghost use Rattle.dc_run_texts.specs.View.{net_text, view_text};

use crate::net_text::{put_edges, put_head, put_members};
use crate::pads::put_keys;
use crate::rounds::put_script;
use dc_edge::{Failed, Sink};
use dc_net::{CheckedNet, Net, Played};

/// Puts the view of a net's run: what the coalition and everyone else can see of it. These are the
/// edges, the members, the pads that a member knows, and for each round the words of all stations,
/// their sum, whether everyone received the sum, and the word that each honest station received.
/// The form of the text is this project's own.
pub fn put_view<K: Sink>(net: &CheckedNet, run: &Played, out: &mut K) -> Result<(), Failed>
    requires { run.now ≡ run_of net.now }
    ensures { Puts (view_text net.now run.now) (K.state out.old) (K.state out.new) result }
{
    let net = net.net();
    put_head(net.graph.stations(), net.words, out)?;
    put_net(net, out)?;
    put_script(net, run, &net.script, out)
}

/// Puts the edges, the members, and the pads that a member knows.
fn put_net<K: Sink>(net: &Net, out: &mut K) -> Result<(), Failed>
    requires { IsChecked net.now }
    ensures { Puts (net_text net.now) (K.state out.old) (K.state out.new) result }
{
    put_edges(net.graph.edges(), out)?;
    put_members(&net.coalition, net.graph.stations(), out)?;
    put_keys(&net.coalition, &net.keys, out)
}
