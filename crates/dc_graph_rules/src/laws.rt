//! Laws of the key graph and its forest. The functions do nothing; each one's contract is a law.

ghost use Rattle.dc_graph_rules.specs.Laws.{JoinedByWalks, DistanceIsLeast, RootIsLeast, ParentsAreLeastNearer, SumsMeetDemands, RootSumIsPartSum};

/// The test whether two stations are joined is right: a walk along honest edges joins them.
pub fn joined_by_walks()
    ensures { JoinedByWalks }
{}

/// The computed distance is the number of edges of a shortest walk.
pub fn distance_is_least()
    ensures { DistanceIsLeast }
{}

/// The root of a part is its least station.
pub fn root_is_least()
    ensures { RootIsLeast }
{}

/// A parent is the least neighbour one step nearer to the root, and only roots have none.
pub fn parents_are_least_nearer()
    ensures { ParentsAreLeastNearer }
{}

/// The sum below a station of the forest is its own word and the sums below its children.
pub fn sums_meet_demands()
    ensures { SumsMeetDemands }
{}

/// The sum below a root is the sum of its whole part. So where that is zero, the root's own word
/// is minus the sums below its children.
pub fn root_sum_is_part_sum()
    ensures { RootSumIsPartSum }
{}
