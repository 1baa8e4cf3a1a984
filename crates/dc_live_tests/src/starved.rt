//! A wire that never has memory for one more peer.

ghost use Rattle.dc_edge.specs.Untold.{untold_wire};

use dc_edge::{Failed, LinkFault, Wire};
use std::alloc::Global;

/// A wire that may listen, and for whose next peer memory runs out. The bytes of all peers have ended.
#[derive(Drop)]
pub(crate) struct StarvedWire {
    /// How many peers it has met.
    pub(crate) peers: u32,
    /// Whether there is memory to listen.
    pub(crate) listens: bool,
}

impl Wire for StarvedWire {
    ghost state = { λ w. untold_wire w.peers 0 };

    fn dial(&mut self, _alloc: Global, _addr: &str) -> Result<u32, LinkFault> {
        Err(LinkFault::NoMemory)
    }

    fn listen(&mut self, _alloc: Global, _addr: &str) -> Result<(), LinkFault> {
        if self.listens {
            Ok(())
        } else {
            Err(LinkFault::NoMemory)
        }
    }

    fn accept(&mut self, _alloc: Global) -> Result<u32, LinkFault> {
        Err(LinkFault::NoMemory)
    }

    fn ready(&mut self, hint: u32) -> u32 {
        hint
    }

    fn recv(&mut self, _peer: u32, _buf: &mut [u8]) -> Result<usize, Failed> {
        Ok(0)
    }

    fn send(&mut self, _peer: u32, _bytes: &[u8]) -> Result<(), Failed> {
        Ok(())
    }
}
