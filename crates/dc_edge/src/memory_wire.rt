//! A wire in memory.

ghost use Rattle.std.specs.Prelude.{◌≡◌, ◌≤◌, ◌<◌, [], length, is_ok, if◌then◌else◌, IfOk, OnErr, OnOk};
ghost use Rattle.dc_edge.specs.CallBook.{is_failing};
ghost use Rattle.std.specs.Result.{result_ok};
ghost use Rattle.dc_edge.specs.WireBook.{wire_state, peer_at, new_book, book_feeding, book_asked, book_called, book_failed};
ghost use Rattle.dc_edge.specs.WireBook.{meet_of, ready_of, recv_of, send_of, DialsBook, ListensBook};
ghost use Rattle.dc_edge.specs.Wire.{Dials, Listens, Accepts, Readies, Receives, Sends};

use crate::calls::Calls;
use crate::fault::{Failed, LinkFault};
use crate::fed_peer::FedPeer;
use crate::wire::Wire;
use dc_field::{NoMemory, Text};
use std::alloc::Global;
use std::marker::Model;

/// A wire whose peers give the bytes that they are fed with, and that fails at chosen calls.
///
/// `dial` and `accept` hand out the fed peers in the order of feeding. All calls but those of `ready` and those on an empty piece
/// are numbered from 0; the number stays at 2^32 - 1 once there.
#[derive(Drop)]
pub struct MemoryWire {
    fed: Vec<FedPeer>,
    met: u32,
    addresses: Vec<Text>,
    most: u32,
    space: u32,
    choices: Vec<u32>,
    turn: usize,
    numbered: Calls,
}

impl Model for MemoryWire {
    ghost use Rattle.std.specs.Prelude.{◌≤◌, drop, vec_len};
    ghost use Rattle.dc_edge.specs.WireBook.{WireBook, IsWire};

    ghost Value = { WireBook };

    ghost view = { λ w. record {
      fed = w.fed.items;
      peers = w.met;
      asked = w.addresses.items;
      step = w.most;
      room = w.space;
      order = drop w.turn w.choices.items;
      calls = w.numbered;
    } };

    ghost invariant = { λ w. IsWire w.fed.items w.met w.most × (w.turn ≤ vec_len w.choices) };
}

impl MemoryWire {
    /// A wire without peers.
    ///
    /// Each peer that is fed takes at most `room` bytes. One receive gives at most `step` bytes. Each call of `ready` uses up the
    /// next number of `order`. The calls whose numbers are in `fails` fail.
    pub fn new(
        alloc: Global,
        room: u32,
        step: u32,
        order: &[u32],
        fails: &[u32],
    ) -> Result<MemoryWire, NoMemory>
        requires { 1 ≤ step }
        ensures { IfOk result (λ w. w ≡ new_book room step order.now fails.now) }
    {
        let choices = Vec::from_slice(alloc, order)?;
        let numbered = Calls::new(alloc, fails)?;
        Ok(MemoryWire {
            fed: Vec::new(alloc),
            met: 0,
            addresses: Vec::new(alloc),
            most: step,
            space: room,
            choices,
            turn: 0,
            numbered,
        })
    }

    /// Feeds one more peer with the bytes that it gives, and takes the room for all that it is sent.
    pub fn feed_peer(&mut self, alloc: Global, bytes: &[u8]) -> Result<(), NoMemory>
        ensures ok { OnOk result (self.new ≡ book_feeding self.old bytes.now) }
        ensures err { OnErr result (self.new ≡ self.old) }
    {
        if self.fed.len() >= u32::MAX as usize {
            return Err(NoMemory);
        }
        let peer = FedPeer::new(alloc, bytes, self.space as usize)?;
        self.fed.push(peer)?;
        Ok(())
    }

    /// All bytes that were sent to a fed peer so far.
    pub fn sent_to(&self, peer: u32) -> &[u8]
        requires { peer < length self.now.fed }
        ensures { result.now ≡ (peer_at self.now peer).sent }
    {
        let peer = &self.fed[peer as usize];
        peer.sent()
    }

    // Puts the address at the end of those asked for.
    fn ask(&mut self, alloc: Global, addr: &str) -> Result<(), NoMemory>
        ensures ok { OnOk result (self.new ≡ book_asked self.old addr.now) }
        ensures err { OnErr result (self.new ≡ self.old) }
    {
        let address = Text::copy_of(alloc, addr)?;
        self.addresses.push(address)?;
        Ok(())
    }

    // Numbers a call, and answers whether it is to fail; then it is a fault.
    fn fails(&mut self) -> bool
        ensures answer { result ≡ is_failing self.old.calls }
        ensures after { self.new ≡ (if is_failing self.old.calls then book_failed self.old else book_called self.old) }
        ensures counted { self.old.calls.faults ≤ self.new.calls.faults }
    {
        let fails = self.numbered.count_call();
        if fails {
            self.numbered.count_fault();
        }
        fails
    }

    // Hands out the next fed peer.
    fn meet(&mut self) -> Result<u32, LinkFault>
        ensures exact { (self.new, result) ≡ meet_of self.old }
        ensures counted { self.old.calls.faults ≤ self.new.calls.faults }
        ensures unsent { (peer_at self.old self.old.peers).sent ≡ [] }
    {
        let peer = self.met;
        if self.fails() {
            return Err(LinkFault::Failed);
        }
        if peer as usize >= self.fed.len() {
            self.numbered.count_fault();
            return Err(LinkFault::Failed);
        }
        self.met += 1;
        Ok(peer)
    }
}

impl Wire for MemoryWire {
    ghost state = { wire_state };

    /// Takes its memory first, so that all stays as it was where memory runs out.
    fn dial(&mut self, alloc: Global, addr: &str) -> Result<u32, LinkFault>
        ensures exact { DialsBook addr.now self.old self.new result }
        ensures dials { Dials addr.now (wire_state self.old) (wire_state self.new) result }
    {
        self.ask(alloc, addr)?;
        self.meet()
    }

    fn listen(&mut self, alloc: Global, addr: &str) -> Result<(), LinkFault>
        ensures exact { ListensBook addr.now self.old self.new result }
        ensures listens { Listens addr.now (wire_state self.old) (wire_state self.new) result }
    {
        self.ask(alloc, addr)?;
        if self.fails() {
            return Err(LinkFault::Failed);
        }
        Ok(())
    }

    fn accept(&mut self, alloc: Global) -> Result<u32, LinkFault>
        ensures exact { DialsBook [] self.old self.new result }
        ensures accepts { Accepts (wire_state self.old) (wire_state self.new) result }
    {
        self.ask(alloc, "")?;
        self.meet()
    }

    fn ready(&mut self, hint: u32) -> u32
        requires { hint < self.old.peers }
        ensures exact { (self.new, result) ≡ ready_of self.old hint }
        ensures readies { Readies (wire_state self.old) (wire_state self.new) result }
    {
        let choice = match self.choices.get(self.turn) {
            Some(choice) => *choice,
            None => return hint,
        };
        self.turn += 1;
        if choice < self.met { choice } else { hint }
    }

    /// Takes no memory.
    fn recv(&mut self, peer: u32, buf: &mut [u8]) -> Result<usize, Failed>
        requires peer { peer < self.old.peers }
        requires room { 0 < length buf.old }
        ensures exact { (self.new, buf.new, result_ok result) ≡ recv_of self.old peer buf.old }
        ensures receives { Receives peer buf.new (wire_state self.old) (wire_state self.new) result }
    {
        if self.fails() {
            return Err(Failed);
        }
        let giver = &mut self.fed[peer as usize];
        Ok(giver.give(buf, self.most as usize))
    }

    /// Takes no memory: the room that `feed_peer` took is all that the peer ever has.
    fn send(&mut self, peer: u32, bytes: &[u8]) -> Result<(), Failed>
        requires { peer < self.old.peers }
        ensures exact { (self.new, is_ok result) ≡ send_of self.old peer bytes.now }
        ensures sends { Sends peer bytes.now (wire_state self.old) (wire_state self.new) result }
    {
        if bytes.is_empty() {
            return Ok(());
        }
        if self.fails() {
            return Err(Failed);
        }
        let taker = &mut self.fed[peer as usize];
        if taker.take(bytes) {
            return Ok(());
        }
        self.numbered.count_fault();
        Err(Failed)
    }
}
