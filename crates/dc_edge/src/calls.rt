//! The calls of an object in memory: their numbers, and which of them fail.

ghost use Rattle.std.specs.Prelude.{◌≡◌, ◌≤◌, IfOk};
ghost use Rattle.dc_edge.specs.CallBook.{is_failing, more_calls, more_faults};

use dc_field::NoMemory;
use std::alloc::Global;
use std::marker::Model;

/// The numbers of the calls that are to fail, the number of the next call, and the count of faults.
#[derive(Drop)]
pub(crate) struct Calls {
    failing: Vec<u32>,
    call: u32,
    fault_count: u64,
}

impl Model for Calls {
    ghost use Rattle.dc_edge.specs.CallBook.{CallBook};

    ghost Value = { CallBook };

    ghost view = { λ c. record { fails = c.failing.items; calls = c.call; faults = c.fault_count } };
}

impl Calls {
    /// No call so far; those whose numbers are in `fails` are to fail.
    pub(crate) fn new(alloc: Global, fails: &[u32]) -> Result<Calls, NoMemory>
        ensures { IfOk result (λ c. c ≡ record { fails = fails.now; calls = 0; faults = 0 }) }
    {
        let failing = Vec::from_slice(alloc, fails)?;
        Ok(Calls {
            failing,
            call: 0,
            fault_count: 0,
        })
    }

    /// Numbers a call, and answers whether it is to fail.
    pub(crate) fn count_call(&mut self) -> bool
        ensures answer { result ≡ is_failing self.old }
        ensures after { self.new ≡ more_calls self.old }
    {
        let fails = self.failing.contains(&self.call);
        self.call = self.call.saturating_add(1);
        fails
    }

    /// Counts a fault.
    pub(crate) fn count_fault(&mut self)
        ensures after { self.new ≡ more_faults self.old }
        ensures counted { self.old.faults ≤ self.new.faults }
    {
        self.fault_count = self.fault_count.saturating_add(1);
    }
}
