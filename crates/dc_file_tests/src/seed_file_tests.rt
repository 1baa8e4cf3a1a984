use crate::answers::{done, fault_of};
use dc_graph::Graph;
use dc_keyfile::{
    KeyFault, SeedFile, element, expand, generate, generate_seeds, key_bytes, read_keys,
    read_seeds, seed_bytes,
};
use dc_keys::KeyFile;
use std::process::Abort;
use std::test::*;
use std::thread::Threads;

/// The file of the pairs (0, 1), (0, 2), (1, 2) with these seeds, each byte of a seed being this
/// one, for three stations and five words: 120 bytes.
fn triangle<R: AllocGlobal + Abort>(rt: &R, seeds: [u8; 3]) -> Vec<u8> {
    let head = b"DCK\x02\x00\x03\x00\x05\x00\x00\x00\x03";
    let mut bytes = done(rt, Vec::from_slice(rt.alloc(), head));
    put_pair(rt, &mut bytes, [0, 0, 0, 1], seeds[0]);
    put_pair(rt, &mut bytes, [0, 0, 0, 2], seeds[1]);
    put_pair(rt, &mut bytes, [0, 1, 0, 2], seeds[2]);
    bytes
}

/// Puts a pair with the seed of which each byte is this one.
fn put_pair<R: AllocGlobal + Abort>(rt: &R, bytes: &mut Vec<u8>, ends: [u8; 4], seed: u8) {
    done(rt, bytes.extend_from_slice(&ends));
    done(rt, bytes.extend_from_slice(&[seed; 32]));
}

/// The triangle's file with zeros as seeds, with a byte replaced.
fn altered<R: AllocGlobal + Abort>(rt: &R, place: usize, byte: u8) -> Vec<u8> {
    let mut bytes = triangle(rt, [0; 3]);
    if let Some(there) = bytes.get_mut(place) {
        *there = byte;
    }
    bytes
}

/// Both readers refuse these bytes so.
fn refused<R: Threads + Sync + AllocGlobal + Abort>(rt: &R, b: &[u8], due: KeyFault) {
    assert_eq!(rt; fault_of(rt, read_seeds(rt.alloc(), b)), Some(due));
    assert_eq!(rt; fault_of(rt, read_keys(rt, rt.alloc(), b)), Some(due));
}

fn read<R: AllocGlobal + Abort>(rt: &R, b: &[u8]) -> SeedFile {
    done(rt, read_seeds(rt.alloc(), b))
}

/// Two key files have the same bytes.
fn same<R: AllocGlobal + Abort>(rt: &R, one: &KeyFile, other: &KeyFile) {
    let mine = done(rt, key_bytes(rt.alloc(), one));
    let theirs = done(rt, key_bytes(rt.alloc(), other));
    assert_eq!(rt; mine.as_slice(), theirs.as_slice());
}

/// A pair of five words has these ends, and two of its pads are elements of this seed.
fn pair_is<R: Abort>(rt: &R, keys: &KeyFile, i: usize, u: u16, v: u16, seed: u8) {
    let pair = done(rt, keys.pairs.as_slice().get(i).ok_or("it is there"));
    let (a, b) = (pair.a.as_slice(), pair.b.as_slice());
    assert_eq!(rt; (pair.u, pair.v), (u, v));
    assert_eq!(rt; (a.len(), b.len(), b.first()), (80, 80, Some(&0)));
    assert_eq!(rt; a.get(37), Some(&element(&[seed; 32], u, v, 37).number()));
    assert_eq!(rt; b.get(3), Some(&element(&[seed; 32], u, v, 83).number()));
}

#[test]
fn one_seed_for_all_pairs(rt: HostRuntime) {
    let bytes = triangle(&rt, [0; 3]);
    let seeds = read(&rt, bytes.as_slice());
    assert_eq!(rt; (seeds.stations, seeds.words), (3, 5));
    let written = done(&rt, seed_bytes(rt.alloc(), &seeds));
    assert_eq!(rt; written.as_slice(), bytes.as_slice());
    let g = done(&rt, Graph::new(rt.alloc(), 3, &[(1, 2), (0, 1), (0, 2)]));
    if g.edge_count() != 3 {
        panic!(rt; "three edges");
    }
    let made = done(&rt, generate_seeds(rt.alloc(), &[0; 32], &g, 5));
    let spelled = done(&rt, seed_bytes(rt.alloc(), &made));
    assert_eq!(rt; spelled.as_slice(), bytes.as_slice());
    let due = done(&rt, generate(rt.alloc(), &[0; 32], &g, 5));
    same(&rt, &done(&rt, expand(&rt, rt.alloc(), &seeds)), &due);
    let keys = done(&rt, read_keys(&rt, rt.alloc(), bytes.as_slice()));
    same(&rt, &keys, &due);
}

#[test]
fn a_seed_for_each_pair(rt: HostRuntime) {
    let bytes = triangle(&rt, [1, 2, 255]);
    let seeds = read(&rt, bytes.as_slice());
    let keys = done(&rt, expand(&rt, rt.alloc(), &seeds));
    assert_eq!(rt; (keys.stations, keys.words), (3, 5));
    pair_is(&rt, &keys, 0, 0, 1, 1);
    pair_is(&rt, &keys, 1, 0, 2, 2);
    pair_is(&rt, &keys, 2, 1, 2, 255);
}

#[test]
fn refused_files(rt: HostRuntime) {
    let whole = triangle(&rt, [0; 3]);
    let cut = done(&rt, whole.as_slice().get(..119).ok_or("it is long enough"));
    let fault = KeyFault::Truncated { at: 119, need: 120 };
    refused(&rt, cut, fault);
    refused(&rt, altered(&rt, 2, 0).as_slice(), KeyFault::Magic);
    let other = altered(&rt, 3, 3);
    refused(&rt, other.as_slice(), KeyFault::Version { seen: 3 });
    let fault = KeyFault::Stations { seen: 0 };
    refused(&rt, altered(&rt, 5, 0).as_slice(), fault);
    let fault = KeyFault::Words { seen: 8197 };
    refused(&rt, altered(&rt, 6, 32).as_slice(), fault);
    let symbols = 2684355040;
    let fault = KeyFault::TooLarge { symbols };
    refused(&rt, altered(&rt, 8, 1).as_slice(), fault);
    let fault = KeyFault::Pair { place: 1 };
    refused(&rt, altered(&rt, 49, 2).as_slice(), fault);
    let fault = KeyFault::Order { place: 2 };
    refused(&rt, altered(&rt, 85, 0).as_slice(), fault);
    let fault = KeyFault::Rest { at: 84 };
    refused(&rt, altered(&rt, 11, 2).as_slice(), fault);
}

#[test]
fn pads_are_no_seeds(rt: HostRuntime) {
    let pads = b"DCK\x01\x00\x01\x00\x01\x00\x00\x00\x00";
    let fault = KeyFault::Version { seen: 1 };
    assert_eq!(rt; fault_of(&rt, read_seeds(rt.alloc(), pads)), Some(fault));
    assert_eq!(rt; fault_of(&rt, read_keys(&rt, rt.alloc(), pads)), None);
}
