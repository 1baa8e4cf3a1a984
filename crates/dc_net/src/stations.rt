//! The members of a coalition and the honest stations of a net, in room that is no heap memory.

ghost use Rattle.std.specs.Prelude.{◌≡◌, ◌<◌, ◌≤◌, not, filter, false, slice_index_or, All};
ghost use Rattle.std.specs.List.{range_with_len};
ghost use Rattle.dc_spec.specs.Limits.{most_stations};
ghost use Rattle.dc_net.specs.Stations.{AreFlags};

use arrayvec::ArrayVec;
use dc_field::MOST_STATIONS;

/// How many stations a net has at most, as the length of a table.
pub(crate) const STATIONS: usize = MOST_STATIONS as usize;

/// For each station whether it is a member.
pub(crate) fn member_flags(members: &[u16]) -> [bool; STATIONS]
    requires { All (λ m. m < most_stations) members.now }
    ensures { AreFlags members.now result }
{
    let mut flags = [false; STATIONS];
    for member in members {
        flags[usize::from(*member)] = true;
    }
    flags
}

/// Whether a station is a member, by the flags of the members. The number may be any.
pub(crate) fn is_member(flags: &[bool; STATIONS], station: u16) -> bool
    ensures { result ≡ slice_index_or flags.now station false }
{
    usize::from(station) < STATIONS && flags[usize::from(station)]
}

/// Those of the first stations that are no members, in rising order.
pub(crate) fn honest_of(stations: u16, flags: &[bool; STATIONS]) -> ArrayVec<u16, STATIONS>
    requires { stations ≤ most_stations }
    ensures { result.items ≡
        filter (λ i. not (slice_index_or flags.now i false)) (range_with_len 0 stations) }
{
    let mut honest = ArrayVec::new();
    for station in 0..stations {
        if !is_member(flags, station) {
            honest.push(station);
        }
    }
    honest
}
