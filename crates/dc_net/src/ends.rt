//! Items with two ends, in rising order of the ends.

ghost use Rattle.std.specs.Prelude.{◌≡◌, ◌↔◌, ℕ, map, IsTrue};
ghost use Rattle.dc_graph.specs.Graph.{AreRisingEdges, IsEdgeBefore};
ghost use Rattle.dc_net.specs.Walks.{first_absent};

use dc_keys::PairKey;

/// An item that joins two stations.
pub(crate) trait Ends {
    ghost ends: { Self → ℕ × ℕ };

    /// Its two stations.
    fn ends(&self) -> (u16, u16)
        ensures { result ≡ ends self.now };
}

impl Ends for (u16, u16) {
    ghost ends = { λ e. e };

    fn ends(&self) -> (u16, u16) {
        *self
    }
}

impl Ends for PairKey {
    ghost use Rattle.dc_spec.specs.Pads.{Pair};

    ghost ends = { λ p. (p.u, p.v) };

    fn ends(&self) -> (u16, u16) {
        (self.u, self.v)
    }
}

/// The first of the items whose ends no item of the other list has. Both lists are in rising order
/// of their ends, and each is walked once.
pub(crate) fn first_absent<E: Ends, F: Ends>(items: &[E], others: &[F]) -> Option<(u16, u16)>
    requires items { AreRisingEdges (map E.ends items.now) }
    requires others { AreRisingEdges (map F.ends others.now) }
    ensures { result ≡ first_absent (map E.ends items.now) (map F.ends others.now) }
{
    let mut i = 0;
    let mut j = 0;
    while i < items.len() {
        let ends = items[i].ends();
        if j == others.len() {
            return Some(ends);
        }
        let other = others[j].ends();
        if is_before(ends, other) {
            return Some(ends);
        }
        if is_before(other, ends) {
            j += 1;
        } else {
            i += 1;
        }
    }
    None
}

/// Whether ends come before others: the smaller end is less, or it is the same and the greater end
/// is less.
fn is_before(e: (u16, u16), f: (u16, u16)) -> bool
    ensures { IsTrue result ↔ IsEdgeBefore e f }
{
    e.0 < f.0 || (e.0 == f.0 && e.1 < f.1)
}
