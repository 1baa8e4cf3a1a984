//! The groups of an epoch that are not yet split, the current one on top.

ghost use Rattle.std.specs.Prelude.{◌≡◌, ◌+◌, ◌^◌, ◌<◌, ◌≤◌, [], ◌∷◌, IfOk, drop, slice_get};
ghost use Rattle.dc_spec.specs.Groups.{uneven_limb};
ghost use Rattle.dc_station_rules.specs.Epochs.{Ranged, is_called, leaf_of, mean_of};
ghost use Rattle.dc_average.specs.Stacks.{IsStack, stations_of, stations_in};

use crate::leaf::Leaf;
use dc_field::{Group, NoMemory};
use std::alloc::Global;
use std::marker::Model;

/// A group on its range of numbers; contracts see the record of its fields.
#[derive(Clone, Copy, Debug)]
pub(crate) struct RangedGroup {
    pub(crate) group: Group,
    pub(crate) low: u128,
    pub(crate) high: u128,
}

impl Model for RangedGroup {
    ghost use Rattle.dc_station_rules.specs.Epochs.{Ranged};

    ghost Value = { Ranged };

    ghost view = { λ r. record { group = r.group; low = r.low; high = r.high } };

    ghost inverse = { λ r. record { group = r.group; low = r.low; high = r.high } };
}

impl RangedGroup {
    /// The greatest number that sends again in the word for this group.
    pub(crate) fn mean(&self) -> u128
        requires { 1 ≤ stations_of self.now }
        ensures mean { result ≡ mean_of self.now.group }
        ensures below { result < 256 ^ 15 }
    {
        self.group.mean().unwrap()
    }

    /// Whether a station with this number sends again in the word for this group.
    pub(crate) fn calls(&self, number: u128) -> bool
        requires { 1 ≤ stations_of self.now }
        ensures { result ≡ is_called number (Some self.now) }
    {
        self.low <= number && number <= self.high && number <= self.mean()
    }

    /// The leaf of a group whose values are all equal.
    #[tactic(auto, unfolding(dc_spec::specs::Groups::equal_value))]
    pub(crate) fn leaf(&self) -> Leaf
        requires some { 1 ≤ stations_of self.now }
        requires even { uneven_limb self.now.group ≡ None }
        ensures { result ≡ leaf_of self.now.group self.now.low self.now.high }
    {
        Leaf {
            value: self.group.equal_value().unwrap(),
            times: self.group.count(),
            low: self.low,
            high: self.high,
        }
    }
}

/// Groups of count 1 or more, at most 256 stations in all; contracts see the list, the top first.
#[derive(Drop)]
pub(crate) struct Stack {
    items: Vec<RangedGroup>,
}

impl Model for Stack {
    ghost use Rattle.std.specs.Prelude.{◌≡◌, List, reverse, vec_capacity};
    ghost use Rattle.dc_station_rules.specs.Epochs.{Ranged};
    ghost use Rattle.dc_average.specs.Stacks.{IsStack};

    ghost Value = { List Ranged };

    ghost view = { λ s. reverse s.items.items };

    ghost invariant = { λ s. (vec_capacity s.items ≡ 256) × IsStack (reverse s.items.items) };
}

impl Stack {
    /// No groups, and room for 256.
    pub(crate) fn start(alloc: Global) -> Result<Stack, NoMemory>
        ensures { IfOk result (λ stack. stack ≡ []) }
    {
        let items = Vec::with_capacity(alloc, 256)?;
        Ok(Stack { items })
    }

    /// Removes all groups.
    pub(crate) fn clear(&mut self)
        ensures { self.new ≡ [] }
    {
        self.items.clear();
    }

    /// The top, if there is one.
    pub(crate) fn top(&self) -> Option<RangedGroup>
        ensures top { result ≡ slice_get self.now 0 }
        ensures stack { IsStack self.now }
    {
        self.items.last().copied()
    }

    /// Puts a group on top, in the room that is reserved.
    pub(crate) fn push(&mut self, item: RangedGroup)
        requires some { 1 ≤ stations_of item }
        requires room { stations_of item + stations_in self.old ≤ 256 }
        ensures { self.new ≡ item ∷ self.old }
    {
        self.items.push_reserved(item);
    }

    /// Takes the top off.
    pub(crate) fn pop(&mut self) -> Option<RangedGroup>
        ensures top { result ≡ slice_get self.old 0 }
        ensures rest { self.new ≡ drop 1 self.old }
        ensures stack { IsStack self.old }
    {
        self.items.pop()
    }
}
