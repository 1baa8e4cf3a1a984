//! The honest stations of a net, in room that is no heap memory.

ghost use Rattle.std.specs.Prelude.{◌≡◌, ◌≤◌, not, filter};
ghost use Rattle.std.specs.List.{range_with_len};
ghost use Rattle.dc_spec.specs.Lists.{is_among};

use arrayvec::ArrayVec;
use dc_graph::Coalition;

/// How many stations a net has at most, as the length of a table.
pub(crate) const STATIONS: usize = 256;

/// The stations that are no members, in rising order.
pub(crate) fn honest_of(coalition: &Coalition, stations: u16) -> ArrayVec<u16, STATIONS>
    requires { stations ≤ 256 }
    ensures { result.items
        ≡ filter (λ i. not (is_among coalition.now i)) (range_with_len 0 stations) }
{
    let mut honest = ArrayVec::new();
    for i in 0..stations {
        if !coalition.holds(i) {
            honest.push(i);
        }
    }
    honest
}
