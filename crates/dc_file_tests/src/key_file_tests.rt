use crate::answers::{done, fault_of};
use dc_field::Bytes;
use dc_graph::Graph;
use dc_keyfile::{
    KeyFault, element, generate, generate_shared, generated_bytes, key_bytes, read_keys,
};
use dc_keys::KeyFile;
use std::process::Abort;
use std::test::*;
use std::thread::Threads;

fn refused<R: Threads + Sync + AllocGlobal + Abort>(rt: &R, b: &[u8], due: KeyFault) {
    assert_eq!(rt; fault_of(rt, read_keys(rt, rt.alloc(), b)), Some(due));
}

/// The generated keys of the edges (0, 1), (0, 2), (1, 2), for the base of zeros.
fn triangle<R: AllocGlobal + Abort>(rt: &R, words: u16) -> KeyFile {
    let g = done(rt, Graph::new(rt.alloc(), 3, &[(1, 2), (0, 1), (0, 2)]));
    if g.edge_count() != 3 || words == 0 || 4096 < words {
        panic!(rt; "three edges and some words");
    }
    done(rt, generate(rt.alloc(), &[0; 32], &g, words))
}

/// The file of the triangle's keys for one word, 408 bytes.
fn triangle_file<R: AllocGlobal + Abort>(rt: &R) -> Bytes {
    let keys = triangle(rt, 1);
    done(rt, key_bytes(rt.alloc(), &keys))
}

/// This file, with two bytes replaced, is refused.
fn altered_refused<R: Threads + Sync + AllocGlobal + Abort>(
    rt: &R,
    file: &Bytes,
    one: (usize, u8),
    other: (usize, u8),
    due: KeyFault,
) {
    let mut bytes = done(rt, file.copy(rt.alloc())).into_vec();
    if let Some(place) = bytes.get_mut(one.0) {
        *place = one.1;
    }
    if let Some(place) = bytes.get_mut(other.0) {
        *place = other.1;
    }
    refused(rt, bytes.as_slice(), due);
}

/// The first bytes of this file are refused.
fn cut_refused<R: Threads + Sync + AllocGlobal + Abort>(
    rt: &R,
    file: &Bytes,
    length: usize,
    need: u64,
) {
    let front = done(rt, file.as_slice().get(..length).ok_or("it is long enough"));
    let at = length as u64;
    refused(rt, front, KeyFault::Truncated { at, need });
}

/// A generated pair of five words has these ends, and two of its pads are these elements.
fn pair_is<R: Abort>(rt: &R, keys: &KeyFile, i: usize, u: u16, v: u16) {
    let pair = done(rt, keys.pairs.as_slice().get(i).ok_or("it is there"));
    let (a, b) = (pair.a.as_slice(), pair.b.as_slice());
    assert_eq!(rt; (pair.u, pair.v), (u, v));
    assert_eq!(rt; (a.len(), b.len(), b.first()), (80, 80, Some(&0)));
    assert_eq!(rt; a.get(7), Some(&element(&[0; 32], u, v, 7).number()));
    assert_eq!(rt; b.get(3), Some(&element(&[0; 32], u, v, 83).number()));
}

#[test]
fn elements_of_the_zero_seed(rt: HostRuntime) {
    assert_eq!(rt; element(&[0; 32], 0, 0, 0).number(), 27641);
    assert_eq!(rt; element(&[0; 32], 0, 0, 1).number(), 54637);
}

#[test]
fn keys_of_a_triangle(rt: HostRuntime) {
    let keys = triangle(&rt, 5);
    assert_eq!(rt; (keys.stations, keys.words), (3, 5));
    assert_eq!(rt; keys.pairs.as_slice().len(), 3);
    pair_is(&rt, &keys, 0, 0, 1);
    pair_is(&rt, &keys, 1, 0, 2);
    pair_is(&rt, &keys, 2, 1, 2);
    let bytes = done(&rt, key_bytes(rt.alloc(), &keys));
    assert_eq!(rt; bytes.as_slice().len(), 1944);
    let read = done(&rt, read_keys(&rt, rt.alloc(), bytes.as_slice()));
    let again = done(&rt, key_bytes(rt.alloc(), &read));
    assert_eq!(rt; again.as_slice(), bytes.as_slice());
}

/// The bytes written while the pads are generated are those of the generated keys.
fn written_alike<R: AllocGlobal + Abort>(rt: &R, stations: u16, edges: &[(u16, u16)]) {
    let g = done(rt, Graph::new(rt.alloc(), stations, edges));
    if 3 < g.edge_count() {
        panic!(rt; "at most three edges");
    }
    let keys = done(rt, generate(rt.alloc(), &[7; 32], &g, 2));
    let due = done(rt, key_bytes(rt.alloc(), &keys));
    let bytes = done(rt, generated_bytes(rt.alloc(), &[7; 32], &g, 2));
    assert_eq!(rt; bytes.as_slice(), due.as_slice());
}

#[test]
fn written_while_generated(rt: HostRuntime) {
    written_alike(&rt, 3, &[(1, 2), (0, 1), (0, 2)]);
    written_alike(&rt, 1, &[]);
}

/// The keys that so many workers generate are those of one.
fn shared_alike<R: AllocGlobal + Threads + Sync + Abort>(
    rt: &R,
    edges: &[(u16, u16)],
    workers: u32,
) {
    let g = done(rt, Graph::new(rt.alloc(), 3, edges));
    if 3 < g.edge_count() || workers == 0 {
        panic!(rt; "at most three edges, and some workers");
    }
    let keys = done(rt, generate(rt.alloc(), &[7; 32], &g, 2));
    let due = done(rt, key_bytes(rt.alloc(), &keys));
    let shared = done(
        rt,
        generate_shared(rt, rt.alloc(), &[7; 32], &g, 2, workers),
    );
    let bytes = done(rt, key_bytes(rt.alloc(), &shared));
    assert_eq!(rt; bytes.as_slice(), due.as_slice());
}

#[test]
fn generated_by_workers(rt: HostRuntime) {
    shared_alike(&rt, &[(0, 1), (0, 2), (1, 2)], 2);
    shared_alike(&rt, &[(0, 1), (0, 2), (1, 2)], 64);
    shared_alike(&rt, &[], 2);
}

#[test]
fn heads(rt: HostRuntime) {
    let no_pairs = b"DCK\x01\x00\x01\x00\x01\x00\x00\x00\x00";
    assert_eq!(rt; fault_of(&rt, read_keys(&rt, rt.alloc(), no_pairs)), None);
    let need = 12;
    refused(&rt, b"", KeyFault::Truncated { at: 0, need });
    refused(
        &rt,
        b"\x01\x00\x01\x03",
        KeyFault::Truncated { at: 4, need },
    );
    let file = b"DCK\x03\x00\x00\x00\x00\x00\x00\x00\x00";
    refused(&rt, file, KeyFault::Version { seen: 3 });
    let file = b"DCK\x01\x5f\x01\x00\x02\x00\x00\x00\x00";
    refused(&rt, file, KeyFault::Stations { seen: 24321 });
    let file = b"DCK\x01\x00\x00\x00\x00\x00\x00\x00\x00";
    refused(&rt, file, KeyFault::Stations { seen: 0 });
    let file = b"DCK\x01\x01\x01\x00\x00\x00\x00\x00\x00";
    refused(&rt, file, KeyFault::Stations { seen: 257 });
}

#[test]
fn sizes(rt: HostRuntime) {
    let file = b"DCK\x01\x00\x01\x00\x00\x00\x00\x00\x00";
    refused(&rt, file, KeyFault::Words { seen: 0 });
    let file = b"DCK\x01\x00\x02\x15\x20\xb1\xd4\x3d\x01\x00";
    refused(&rt, file, KeyFault::Words { seen: 5408 });
    let file = b"DCK\x01\x00\xff\x1f\x02\x00\x00\x00\x77\xa8\x00";
    refused(&rt, file, KeyFault::Words { seen: 7938 });
    let file = b"DCK\x01\x00\x01\x00\x01\x02\x00\x08\xde\x48\xac\xdb";
    let symbols = 1073814464;
    refused(&rt, file, KeyFault::TooLarge { symbols });
    let file = b"DCK\x01\x01\x00\x10\x00\x00\x00\x02\x01";
    let symbols = 67239936;
    refused(&rt, file, KeyFault::TooLarge { symbols });
    let file = b"DCK\x01\x01\x00\x10\x00\x00\x00\x02\x00";
    let (at, need) = (12, 268437516);
    refused(&rt, file, KeyFault::Truncated { at, need });
    let file = b"DCK\x01\x00\x01\x00\x01\x00\x00\x00\x00\x78\x52";
    refused(&rt, file, KeyFault::Rest { at: 12 });
}

#[test]
fn altered_files(rt: HostRuntime) {
    let file = triangle_file(&rt);
    altered_refused(&rt, &file, (2, 107), (3, 2), KeyFault::Magic);
    altered_refused(&rt, &file, (5, 2), (7, 1), KeyFault::Pair { place: 1 });
    let fault = KeyFault::Truncated { at: 408, need: 540 };
    altered_refused(&rt, &file, (11, 4), (12, 1), fault);
    altered_refused(&rt, &file, (11, 2), (3, 1), KeyFault::Rest { at: 276 });
    altered_refused(&rt, &file, (13, 1), (83, 1), KeyFault::Pair { place: 0 });
    altered_refused(&rt, &file, (147, 1), (148, 1), KeyFault::Order { place: 1 });
    altered_refused(&rt, &file, (277, 0), (276, 0), KeyFault::Order { place: 2 });
    let fault = KeyFault::FirstSecondPad { pair: 1 };
    altered_refused(&rt, &file, (215, 1), (279, 1), fault);
    let index = 16;
    let fault = KeyFault::Symbol {
        pair: 1,
        index,
        seen: 65537,
    };
    altered_refused(&rt, &file, (213, 1), (215, 1), fault);
    let fault = KeyFault::Symbol {
        pair: 2,
        index,
        seen: 16777216,
    };
    altered_refused(&rt, &file, (404, 255), (344, 1), fault);
}

#[test]
fn files_that_are_cut(rt: HostRuntime) {
    let file = triangle_file(&rt);
    cut_refused(&rt, &file, 11, 12);
    cut_refused(&rt, &file, 12, 408);
    cut_refused(&rt, &file, 144, 408);
    cut_refused(&rt, &file, 407, 408);
}
