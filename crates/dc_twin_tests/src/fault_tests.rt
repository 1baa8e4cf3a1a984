//! Nets that have no twin.

use crate::answers::done;
use crate::nets::{Parts, images, net_of, played};
use dc_field::Refusal;
use dc_twin::{TwinFault, twin};
use std::process::Abort;
use std::test::*;
use std::thread::Threads;

/// A row of three stations, the one in the middle is the coalition.
const APART: Parts = Parts {
    stations: 3,
    edges: &[(0, 1), (1, 2)],
    members: &[1],
    words: 2,
    pad: (0, 0),
    streams: &[Some(""), None, Some("")],
    script: None,
};

/// Why the net of these parts has no twin by these images.
fn fault<R: Threads + Sync + AllocGlobal + Abort>(
    rt: &R,
    parts: &Parts,
    perm: &[u16],
) -> Option<TwinFault> {
    let net = net_of(rt, parts);
    let run = played(rt, &net);
    match twin(rt.alloc(), &net, &run, &images(rt, perm)) {
        Ok(_) => None,
        Err(Refusal::Bad(fault)) => Some(fault),
        Err(Refusal::NoMemory) => panic!(rt; "memory"),
    }
}

#[test]
fn no_permutation_of_the_stations(rt: HostRuntime) {
    let count = |have: u32| TwinFault::PermCount { have, need: 3 };
    assert_eq!(rt; fault(&rt, &APART, &[]), Some(count(0)));
    assert_eq!(rt; fault(&rt, &APART, &[0, 1]), Some(count(2)));
    assert_eq!(rt; fault(&rt, &APART, &[0, 1, 2, 0]), Some(count(4)));
    let place = |place: u16| TwinFault::Perm { place };
    assert_eq!(rt; fault(&rt, &APART, &[3, 3, 3]), Some(place(0)));
    assert_eq!(rt; fault(&rt, &APART, &[2, 0, 2]), Some(place(2)));
    assert_eq!(rt; fault(&rt, &APART, &[2, 2, 3]), Some(place(1)));
}

#[test]
fn images_that_are_not_joined(rt: HostRuntime) {
    let due = TwinFault::NotJoined {
        station: 0,
        image: 2,
    };
    assert_eq!(rt; fault(&rt, &APART, &[2, 1, 0]), Some(due));
    let due = TwinFault::NotJoined {
        station: 1,
        image: 2,
    };
    assert_eq!(rt; fault(&rt, &APART, &[0, 2, 1]), Some(due));
    assert_eq!(rt; fault(&rt, &APART, &[0, 1, 2]), None);
}

/// Three honest stations. In the second round the last one receives another word.
const UNLIKE: Parts = Parts {
    stations: 4,
    edges: &[(0, 1), (0, 3)],
    members: &[3],
    words: 2,
    pad: (3, 9),
    streams: &[Some(""), Some(""), Some(""), None],
    script: Some(
        "dcscript 1\nround 0\nsay 3 00000Z00000\nto 0 00000Z00007\nto 1 00000Z00007\nto 2 00000Z00007\n\
round 1\nsay 3 00000Z00000\nto 0 00000Z00007\nto 1 00000Z00007\nto 2 00000Z00008\n",
    ),
};

#[test]
fn stations_that_did_not_receive_alike(rt: HostRuntime) {
    let due = TwinFault::NotAlike {
        round: 1,
        first: 0,
        second: 2,
    };
    assert_eq!(rt; fault(&rt, &UNLIKE, &[1, 0, 2, 3]), Some(due));
    let due = TwinFault::NotJoined {
        station: 0,
        image: 2,
    };
    assert_eq!(rt; fault(&rt, &UNLIKE, &[2, 1, 0, 3]), Some(due));
}
