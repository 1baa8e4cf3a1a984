//! A wire: bytes to and from peers.

ghost use Rattle.std.specs.Prelude.{◌<◌, length};
ghost use Rattle.dc_spec.specs.Outside.{WireState};
ghost use Rattle.dc_edge.specs.Wire.{Dials, Listens, Accepts, Readies, Receives, Sends};

use crate::fault::{Failed, LinkFault};
use std::alloc::Global;

/// Connections to peers. Peers are numbered from 0 in the order in which they come.
pub trait Wire {
    /// The number of peers, what each gives and was sent, the addresses asked for, and the count of faults.
    ghost state: { Self → WireState };

    /// Connects to an address; the answer is the number of the new peer.
    fn dial(&mut self, alloc: Global, addr: &str) -> Result<u32, LinkFault>
        ensures { Dials addr.now (state self.old) (state self.new) result };

    /// Listens at an address from here on.
    fn listen(&mut self, alloc: Global, addr: &str) -> Result<(), LinkFault>
        ensures { Listens addr.now (state self.old) (state self.new) result };

    /// Waits for a peer at the address listened at; the answer is its number.
    fn accept(&mut self, alloc: Global) -> Result<u32, LinkFault>
        ensures { Accepts (state self.old) (state self.new) result };

    /// The peer whose bytes are to be taken next, by the wire's choice. The hint is a choice that would do.
    fn ready(&mut self, hint: u32) -> u32
        requires { hint < (state self.old).peers }
        ensures { Readies (state self.old) (state self.new) result };

    /// Puts a peer's next bytes at the front of the buffer and answers how many; none at the end of its bytes.
    fn recv(&mut self, peer: u32, buf: &mut [u8]) -> Result<usize, Failed>
        requires peer { peer < (state self.old).peers }
        requires room { 0 < length buf.old }
        ensures { Receives peer buf.new (state self.old) (state self.new) result };

    /// Sends all bytes to a peer, or fails and sends a front of them. An empty piece changes nothing.
    fn send(&mut self, peer: u32, bytes: &[u8]) -> Result<(), Failed>
        requires { peer < (state self.old).peers }
        ensures { Sends peer bytes.now (state self.old) (state self.new) result };
}
