use crate::answers::{done, fault_of};
use dc_graph::{Coalition, Graph, GraphFault, MemberFault};
use std::process::Abort;
use std::test::*;

fn refused<R: AllocGlobal + Abort>(rt: &R, n: u16, edges: &[(u16, u16)], due: GraphFault) {
    assert_eq!(rt; fault_of(rt, Graph::new(rt.alloc(), n, edges)), Some(due));
}

fn member_refused<R: AllocGlobal + Abort>(rt: &R, g: &Graph, members: &[u16], place: u32) {
    let due = MemberFault { place };
    assert_eq!(rt;
        fault_of(rt, Coalition::new(rt.alloc(), g, members)),
        Some(due)
    );
}

/// A copy of the graph has this edge at this place.
fn edge_is<R: Abort>(rt: &R, g: &Graph, i: u32, due: (u16, u16)) {
    assert!(rt; i < g.edge_count());
    if i < g.edge_count() {
        assert_eq!(rt; g.edge(i), due);
    }
}

#[test]
fn edges_are_kept_rising(rt: HostRuntime) {
    let made = done(
        &rt,
        Graph::new(rt.alloc(), 4, &[(2, 3), (0, 3), (1, 2), (0, 1)]),
    );
    let g = done(&rt, made.copy(rt.alloc()));
    assert_eq!(rt; (g.stations(), g.edge_count()), (4, 4));
    edge_is(&rt, &g, 0, (0, 1));
    edge_is(&rt, &g, 1, (0, 3));
    edge_is(&rt, &g, 2, (1, 2));
    edge_is(&rt, &g, 3, (2, 3));
    assert_eq!(rt; (g.has(0, 1), g.has(3, 0)), (true, true));
    assert_eq!(rt;
        (g.has(0, 2), g.has(1, 1), g.has(4, 0)),
        (false, false, false)
    );
}

#[test]
fn first_fault_of_a_graph(rt: HostRuntime) {
    refused(&rt, 0, &[(1, 1)], GraphFault::Stations { seen: 0 });
    refused(&rt, 257, &[], GraphFault::Stations { seen: 257 });
    refused(&rt, 3, &[(0, 1), (1, 1)], GraphFault::Ends { place: 1 });
    refused(&rt, 3, &[(2, 0), (0, 5)], GraphFault::Ends { place: 0 });
    refused(&rt, 3, &[(0, 1), (1, 3)], GraphFault::Ends { place: 1 });
    let edges = [(0, 1), (1, 2), (0, 1), (2, 1)];
    refused(&rt, 3, &edges, GraphFault::Repeated { place: 2 });
    let g = done(&rt, Graph::new(rt.alloc(), 256, &[(0, 255)]));
    edge_is(&rt, &g, 0, (0, 255));
}

#[test]
fn members_of_a_coalition(rt: HostRuntime) {
    let g = done(&rt, Graph::new(rt.alloc(), 4, &[]));
    let made = done(&rt, Coalition::new(rt.alloc(), &g, &[3, 1]));
    let c = done(&rt, made.copy(rt.alloc()));
    assert_eq!(rt; (c.holds(1), c.holds(2), c.holds(3)), (true, false, true));
    assert_eq!(rt; c.len(), 2);
    let all = done(&rt, Coalition::new(rt.alloc(), &g, &[0, 1, 2, 3]));
    assert_eq!(rt; all.len(), 4);
    member_refused(&rt, &g, &[0, 4, 0], 1);
    member_refused(&rt, &g, &[2, 0, 2], 2);
}
