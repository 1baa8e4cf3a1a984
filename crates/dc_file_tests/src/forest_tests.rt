use crate::answers::done;
use dc_field::{Sym, Word, Words};
use dc_graph::{Coalition, Forest, Graph};
use std::process::Abort;
use std::test::*;

fn forest<R: AllocGlobal + Abort>(rt: &R, n: u16, edges: &[(u16, u16)], members: &[u16]) -> Forest {
    let g = done(rt, Graph::new(rt.alloc(), n, edges));
    let c = done(rt, Coalition::new(rt.alloc(), &g, members));
    done(rt, Forest::of(rt.alloc(), &g, &c))
}

/// The parents of the stations, in order; a station without one stands for itself.
fn parents_are<R: Abort>(rt: &R, f: &Forest, due: &[u16]) {
    assert_eq!(rt; usize::from(f.stations()), due.len());
    for v in 0..f.stations() {
        let parent = f.parent(v).unwrap_or(v);
        assert!(rt; due.get(usize::from(v)) == Some(&parent));
    }
}

/// The stations that are joined with station `u`, in order.
fn joined_are<R: Abort>(rt: &R, f: &Forest, u: u16, due: &[bool]) {
    assert_eq!(rt; usize::from(f.stations()), due.len());
    for v in 0..f.stations() {
        if u < f.stations() {
            let joined = f.joined(u, v);
            assert!(rt; due.get(usize::from(v)) == Some(&joined));
        }
    }
}

/// A word whose last symbol is a number.
fn word(number: u32) -> Word {
    let mut w = Word::zero();
    if let Some(x) = Sym::new(number) {
        w.set(15, x);
    }
    w
}

fn words<R: AllocGlobal + Abort>(rt: &R, numbers: &[u32]) -> Words {
    let mut list = Vec::new(rt.alloc());
    for number in numbers {
        done(rt, list.push(word(*number)));
    }
    Words::from_vec(list)
}

/// Demands give these sums, in a list that held other words.
fn sums_are<R: AllocGlobal + Abort>(rt: &R, f: &Forest, demands: &[u32], due: &[u32]) {
    let given = words(rt, demands);
    let mut out = words(rt, demands);
    let n = usize::from(f.stations());
    assert!(rt; given.as_slice().len() == n);
    assert!(rt; out.as_slice().len() == n);
    f.below_sums(&given, &mut out);
    assert_eq!(rt; due.len(), n);
    assert_eq!(rt; out.as_slice().len(), n);
    for (sum, number) in out.as_slice().iter().zip(due.iter()) {
        assert_eq!(rt; *sum.numbers(), *word(*number).numbers());
    }
}

#[test]
fn a_path(rt: HostRuntime) {
    let f = forest(&rt, 4, &[(0, 1), (1, 2), (2, 3)], &[]);
    parents_are(&rt, &f, &[0, 0, 1, 2]);
    joined_are(&rt, &f, 3, &[true, true, true, true]);
    sums_are(&rt, &f, &[1, 2, 3, 65530], &[65536, 65535, 65533, 65530]);
}

#[test]
fn a_square_with_a_member(rt: HostRuntime) {
    let f = forest(&rt, 4, &[(0, 1), (1, 2), (2, 3), (0, 3)], &[1]);
    parents_are(&rt, &f, &[0, 1, 3, 0]);
    joined_are(&rt, &f, 0, &[true, false, true, true]);
    joined_are(&rt, &f, 1, &[false, true, false, false]);
    sums_are(&rt, &f, &[5, 100, 7, 9], &[21, 0, 7, 16]);
}

#[test]
fn two_parts(rt: HostRuntime) {
    let f = forest(&rt, 5, &[(0, 3), (1, 4), (2, 4)], &[]);
    parents_are(&rt, &f, &[0, 1, 4, 0, 1]);
    joined_are(&rt, &f, 2, &[false, true, true, false, true]);
    sums_are(&rt, &f, &[10, 1, 2, 65527, 65534], &[0, 0, 2, 65527, 65536]);
}

#[test]
fn the_least_of_two_nearer_neighbours(rt: HostRuntime) {
    let f = forest(&rt, 4, &[(0, 1), (0, 2), (1, 3), (2, 3)], &[]);
    parents_are(&rt, &f, &[0, 0, 0, 1]);
    sums_are(&rt, &f, &[1, 2, 4, 8], &[15, 10, 4, 8]);
}

#[test]
fn one_station_and_members_alone(rt: HostRuntime) {
    let f = forest(&rt, 1, &[], &[]);
    parents_are(&rt, &f, &[0]);
    sums_are(&rt, &f, &[3], &[3]);
    let g = forest(&rt, 3, &[(0, 1), (1, 2)], &[0, 1, 2]);
    parents_are(&rt, &g, &[0, 1, 2]);
    joined_are(&rt, &g, 0, &[true, false, false]);
    sums_are(&rt, &g, &[3, 4, 5], &[0, 0, 0]);
}

#[test]
fn a_path_of_all_stations(rt: HostRuntime) {
    let mut edges = Vec::new(rt.alloc());
    for v in 1u16..256 {
        done(&rt, edges.push((v - 1, v)));
    }
    let f = forest(&rt, 256, &edges, &[]);
    assert_eq!(rt; f.stations(), 256);
    for v in 1..f.stations() {
        assert!(rt; f.parent(v) == Some(v - 1));
    }
}
