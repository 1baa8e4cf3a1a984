//! A breadth-first walk of the honest parts, each from its least station.

ghost use Rattle.std.specs.Prelude.{◌≡◌, ◌+◌, ◌^◌, ◌<◌, ◌≤◌, ◌++◌, ◌∷◌, not, find, ℕ, true, Bool, [], Some, None, replicate, length, slice_index, slice_set, IfOk, OnOk};
ghost use Rattle.std.specs.List.{range_with_len};
ghost use Rattle.dc_graph.specs.Walk.{edge_at, is_found, IsEdgeTable, IsNextTo, IsWalk};

use dc_field::NoMemory;
use std::alloc::Global;

/// What the walk found of a station: the root of its part, and its distance from there.
#[derive(Clone, Copy, Debug)]
pub(crate) struct Found {
    pub(crate) root: u16,
    pub(crate) distance: u16,
}

/// What the walk found of each station, and the stations in the order in which it found them.
#[derive(Drop)]
pub(crate) struct Walk {
    pub(crate) found: Vec<Option<Found>>,
    pub(crate) order: Vec<u16>,
}

impl Walk {
    /// Walks all parts of `n` stations, over a table with a flag for each two of them. The edges of
    /// each station are looked at once.
    pub(crate) fn of(alloc: Global, n: u16, table: &[bool]) -> Result<Walk, NoMemory>
        requires { IsEdgeTable n table.now }
        ensures walk { IfOk result (λ w.
            IsWalk (edge_at n table.now) n n w.order.items w.found.items) }
        ensures whole { IfOk result (λ w. n ≤ length w.order.items) }
    {
        let mut walk = Walk::start(alloc, n)?;
        for head in 0..n {
            walk.begin_where_due(n, table, head)?;
            walk.look_around(n, table, head)?;
        }
        Ok(walk)
    }

    /// No station is found yet.
    fn start(alloc: Global, n: u16) -> Result<Walk, NoMemory>
        ensures { (edge : ℕ → ℕ → Bool) → IfOk result (λ w.
            IsWalk edge n 0 w.order.items w.found.items) }
    {
        let found = nothing_found(alloc, n)?;
        let order = Vec::with_capacity(alloc, usize::from(n))?;
        Ok(Walk { found, order })
    }

    /// Where the edges of all found stations were looked at, finds the least of the others.
    fn begin_where_due(&mut self, n: u16, table: &[bool], head: u16) -> Result<(), NoMemory>
        requires within { head < n }
        requires walk { IsWalk (edge_at n table.now) n head self.old.order.items self.old.found.items }
        requires head { head ≤ length self.old.order.items }
        ensures walk { OnOk result
            (IsWalk (edge_at n table.now) n head self.new.order.items self.new.found.items) }
        ensures head { OnOk result (head < length self.new.order.items) }
    {
        if usize::from(head) < self.order.len() {
            return Ok(());
        }
        match first_missing(n, &self.found) {
            Some(root) => self.put(root, Found { root, distance: 0 }),
            None => Ok(()),
        }
    }

    /// Looks at the edges of the station at a place of the order.
    fn look_around(&mut self, n: u16, table: &[bool], head: u16) -> Result<(), NoMemory>
        requires table { IsEdgeTable n table.now }
        requires walk { IsWalk (edge_at n table.now) n head self.old.order.items self.old.found.items }
        requires head { head < length self.old.order.items }
        ensures walk { OnOk result
            (IsWalk (edge_at n table.now) n (head + 1) self.new.order.items self.new.found.items) }
        ensures head { OnOk result (head < length self.new.order.items) }
    {
        for w in 0..n {
            self.reach(n, table, head, w)?;
        }
        Ok(())
    }

    /// Finds station `w`, where it has an edge with the station at a place of the order and was not
    /// found before.
    fn reach(&mut self, n: u16, table: &[bool], head: u16, w: u16) -> Result<(), NoMemory>
        requires table { IsEdgeTable n table.now }
        requires walk { IsWalk (edge_at n table.now) n head self.old.order.items self.old.found.items }
        requires head { head < length self.old.order.items }
        requires within { w < n }
        ensures walk { OnOk result
            (IsWalk (edge_at n table.now) n head self.new.order.items self.new.found.items) }
        ensures head { OnOk result (head < length self.new.order.items) }
        ensures same { OnOk result
            (slice_index self.new.order.items head ≡ slice_index self.old.order.items head) }
        ensures next { OnOk result
            (edge_at n table.now (slice_index self.old.order.items head) w ≡ true →
            IsNextTo self.new.found.items (slice_index self.old.order.items head) w) }
        ensures kept { OnOk result ((x : ℕ) →
            IsNextTo self.old.found.items (slice_index self.old.order.items head) x →
            IsNextTo self.new.found.items (slice_index self.old.order.items head) x) }
    {
        let u = self.order[usize::from(head)];
        let is_edge = table[usize::from(u) * usize::from(n) + usize::from(w)];
        if !is_edge || self.found[usize::from(w)].is_some() {
            return Ok(());
        }
        match self.found[usize::from(u)] {
            Some(at) => self.put(w, one_further(at)),
            None => Ok(()),
        }
    }

    /// Puts a station at the end of the order.
    fn put(&mut self, v: u16, at: Found) -> Result<(), NoMemory>
        requires { v < length self.old.found.items }
        ensures found { OnOk result (self.new.found.items ≡ slice_set self.old.found.items v (Some at)) }
        ensures order { OnOk result (self.new.order.items ≡ self.old.order.items ++ v ∷ []) }
    {
        self.order.push(v)?;
        self.found[usize::from(v)] = Some(at);
        Ok(())
    }
}

/// A list that has nothing for each of `n` stations.
fn nothing_found(alloc: Global, n: u16) -> Result<Vec<Option<Found>>, NoMemory>
    ensures { IfOk result (λ found. found.items ≡ replicate n None) }
{
    let mut found = Vec::with_capacity(alloc, usize::from(n))?;
    for _ in 0..n {
        found.push(None)?;
    }
    Ok(found)
}

/// The least station that was not found.
fn first_missing(n: u16, found: &[Option<Found>]) -> Option<u16>
    requires { length found.now ≡ n }
    ensures { result ≡ find (λ v. not (is_found found.now v)) (range_with_len 0 n) }
{
    (0..n).find(|v| found[usize::from(*v)].is_none())
}

/// One edge further from the same root.
fn one_further(at: Found) -> Found
    requires { at.distance + 1 < 2 ^ 16 }
    ensures { result ≡ record { root = at.root; distance = at.distance + 1 } }
{
    Found {
        root: at.root,
        distance: at.distance + 1,
    }
}
