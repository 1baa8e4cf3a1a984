//! The stations that work together against the others.

ghost use Rattle.std.specs.Prelude.{◌≡◌, [], length, IfOk};
ghost use Rattle.dc_spec.specs.Lists.{is_among};
ghost use Rattle.dc_graph.specs.Graph.{AreMembers};
ghost use Rattle.dc_graph.specs.Faults.{MakesCoalition};

use crate::fault::MemberFault;
use crate::graph::Graph;
use crate::judging::{is_in, member_fault};
use dc_field::{NoMemory, Refusal};
use std::alloc::Global;
use std::marker::Model;

/// Stations of a key graph. In contracts it is the rising list of their numbers.
#[derive(Debug, Drop)]
pub struct Coalition {
    members: Vec<u16>,
}

impl Model for Coalition {
    ghost use Rattle.std.specs.Prelude.{ℕ, List};
    ghost use Rattle.dc_graph.specs.Graph.{AreMembers};

    ghost Value = { List ℕ };

    ghost view = { λ c. c.members.items };

    ghost invariant = { λ c. AreMembers c.members.items };
}

impl Coalition {
    /// The coalition of these stations of a graph, in any order, or the first fault.
    pub fn new(alloc: Global, g: &Graph, members: &[u16]) -> Result<Coalition, Refusal<MemberFault>>
        ensures { MakesCoalition g.now.stations members.now result }
    {
        match member_fault(g.stations(), members) {
            Some(fault) => Err(Refusal::Bad(fault)),
            None => {
                let mut kept = Vec::from_slice(alloc, members)?;
                kept.sort_unstable();
                Ok(Coalition { members: kept })
            }
        }
    }

    /// The coalition without a member. It takes no memory.
    pub fn empty(alloc: Global) -> Coalition
        ensures { result ≡ [] }
    {
        Coalition {
            members: Vec::new(alloc),
        }
    }

    /// Whether station `i` is a member.
    pub fn holds(&self, i: u16) -> bool
        ensures value { result ≡ is_among self.now i }
        ensures members { AreMembers self.now }
    {
        is_in(self.members.as_slice(), i)
    }

    /// The members, in rising order.
    pub fn members(&self) -> &[u16]
        ensures value { result.now ≡ self.now }
        ensures members { AreMembers self.now }
    {
        self.members.as_slice()
    }

    /// The number of members, at most 256.
    pub fn len(&self) -> u16
        ensures { result ≡ length self.now }
    {
        self.members.len() as u16
    }

    /// A copy of the coalition.
    pub fn copy(&self, alloc: Global) -> Result<Coalition, NoMemory>
        ensures { IfOk result (λ c. c ≡ self.now) }
    {
        let members = Vec::from_slice(alloc, self.members.as_slice())?;
        Ok(Coalition { members })
    }
}
