//! The nets of trials, and their summaries.

use crate::answers::done;
use dc_edge::{MemorySink, OpenGate};
use dc_net::{run, trial_net};
use dc_view::put_trial;
use std::test::*;

#[test]
fn the_smallest_trial(rt: HostRuntime) {
    let net = done(&rt, trial_net(rt.alloc(), 0, 1, 1));
    let played = done(&rt, run(&rt, rt.alloc(), &net, 1, &OpenGate));
    let mut out = done(&rt, MemorySink::new(rt.alloc(), 200, &[]));
    assert!(rt; put_trial(0, 1, 1, &played, &mut out).is_ok());
    // one station, which has no edge, reserves the field of its first coin, 12
    let due = b"trial 0 1 1\nshort 0\nlong 0\npending 2 1\n\
sum 00000000000000000000000000000000000000000000000000000000000000001000000000000000\n";
    assert!(rt; out.bytes() == due.as_slice());
}

#[test]
fn a_trial_of_64_stations(rt: HostRuntime) {
    let net = done(&rt, trial_net(rt.alloc(), 7, 64, 4));
    let net = net.net();
    assert_eq!(rt; net.graph.stations(), 64);
    // 63 edges with the next station, 62 with the one after it, 60 with the fourth
    assert_eq!(rt; net.graph.edge_count(), 185);
    assert_eq!(rt; net.keys.pairs.as_slice().len(), 185);
    assert_eq!(rt; net.streams.as_slice().len(), 64);
    assert_eq!(rt; net.script.rounds.as_slice().len(), 4);
    for (i, stream) in net.streams.as_slice().iter().enumerate() {
        let longs = match stream {
            Some(stream) => stream.longs.as_slice().len(),
            None => 2,
        };
        assert_eq!(rt; longs, if i % 16 == 0 { 1 } else { 0 });
    }
}
