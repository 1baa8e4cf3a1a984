//! Which stations' words of a round are there.

ghost use Rattle.std.specs.Prelude.{◌≡◌, ◌<◌, ◌≤◌, ℕ, true, false, length, get_or, set, replicate, IfOk};
ghost use Rattle.dc_superpose.specs.Presence.{first_clear};

use dc_field::NoMemory;
use std::alloc::Global;
use std::marker::Model;

/// A flag for each station, seen by contracts as the list of the flags. The room is exactly the
/// number of stations.
#[derive(Drop)]
pub struct Presence {
    flags: Vec<bool>,
    /// The least station whose flag is not set, or the number of stations where all are.
    first: u16,
}

impl Model for Presence {
    ghost use Rattle.std.specs.Prelude.{List, Bool, vec_capacity};
    ghost use Rattle.dc_superpose.specs.Presence.{IsPresence};

    ghost Value = { List Bool };

    ghost view = { λ p. p.flags.items };

    ghost invariant = { λ p. IsPresence p.flags.items p.first (vec_capacity p.flags) };
}

impl Presence {
    /// Flags of so many stations, none of them set.
    pub fn start(alloc: Global, stations: u16) -> Result<Presence, NoMemory>
        ensures { IfOk result (λ p. p ≡ replicate stations false) }
    {
        let mut flags = Vec::with_capacity(alloc, usize::from(stations))?;
        for _ in 0..stations {
            flags.push_reserved(false);
        }
        Ok(Presence { flags, first: 0 })
    }

    /// Whether the flag of a station is set.
    pub fn has(&self, station: u16) -> bool
        requires { station < length self.now }
        ensures { result ≡ get_or self.now station false }
    {
        self.flags[usize::from(station)]
    }

    /// Sets the flag of a station. Reads at most the flags after it. Takes no memory.
    pub fn set(&mut self, station: u16)
        requires { station < length self.old }
        ensures { self.new ≡ set self.old station true }
    {
        self.flags[usize::from(station)] = true;
        if station == self.first {
            self.first = next_clear(self.flags.as_slice(), station);
        }
    }

    /// The least station whose flag is not set.
    pub fn first_missing(&self) -> Option<u16>
        ensures { result ≡ first_clear self.now }
    {
        if usize::from(self.first) < self.flags.len() {
            Some(self.first)
        } else {
            None
        }
    }

    /// Clears all flags. Takes no memory.
    pub fn clear(&mut self)
        ensures { self.new ≡ replicate (length self.old) false }
    {
        clear_all(&mut self.flags);
        self.first = 0;
    }
}

/// The first place from this one on whose flag is not set, or the number of flags.
fn next_clear(flags: &[bool], from: u16) -> u16
    requires most { length flags.now ≤ 65535 }
    requires within { from ≤ length flags.now }
    requires before { (k : ℕ) → k < from → get_or flags.now k false ≡ true }
    ensures within { result ≤ length flags.now }
    ensures before { (k : ℕ) → k < result → get_or flags.now k false ≡ true }
    ensures here { result < length flags.now → get_or flags.now result false ≡ false }
{
    let end = flags.len() as u16;
    for station in from..end {
        if !flags[usize::from(station)] {
            return station;
        }
    }
    end
}

/// Clears each flag.
fn clear_all(flags: &mut [bool])
    ensures { flags.new ≡ replicate (length flags.old) false }
{
    flags.fill(false);
}
