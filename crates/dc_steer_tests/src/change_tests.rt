//! Changes of the pads of two neighbours.

use dc_field::{Sym, Word, Words};
use dc_steer::{PadChanges, first_differing, pad_changes};
use std::process::Abort;
use std::test::*;

/// The word with these numbers at these places, and zeros at the others.
fn word<R: Abort>(rt: &R, places: &[(usize, u32)]) -> Word {
    let mut word = Word::zero();
    for (l, x) in places {
        match Sym::new(*x) {
            Some(symbol) if *l < 16 => word.set(*l, symbol),
            _ => panic!(rt; "a symbol at a place"),
        }
    }
    word
}

/// The words with these numbers at these places.
pub(crate) fn words<R: AllocGlobal + Abort>(rt: &R, each: &[&[(usize, u32)]]) -> Words {
    let mut words = Vec::new(rt.alloc());
    for places in each {
        match words.push(word(rt, places)) {
            Ok(()) => {}
            Err(_) => panic!(rt; "memory"),
        }
    }
    Words::from_vec(words)
}

/// The changes where these words were received and wanted.
fn changes<R: AllocGlobal + Abort>(rt: &R, cu: &Words, cv: &Words, wanted: &Words) -> PadChanges {
    let count = cu.as_slice().len();
    if 4096 < count || cv.as_slice().len() != count {
        panic!(rt; "as many words");
    }
    let p = match first_differing(rt.alloc(), cu, cv) {
        Ok(p) => p,
        Err(_) => panic!(rt; "memory"),
    };
    if 16 * count <= p || wanted.as_slice().len() != count - (p / 16 + 1) {
        panic!(rt; "a difference, and a wanted word for each later round");
    }
    match pad_changes(rt.alloc(), cu, cv, wanted) {
        Ok(changes) => changes,
        Err(_) => panic!(rt; "memory"),
    }
}

/// Asserts which changes are not 0.
pub(crate) fn are<R: Abort>(rt: &R, changes: &[u32], count: usize, due: &[(usize, u32)]) {
    assert_eq!(rt; changes.len(), count);
    for (n, x) in changes.iter().enumerate() {
        let expected = match due.iter().find(|place| place.0 == n) {
            Some(place) => place.1,
            None => 0,
        };
        assert_eq!(rt; *x, expected, "{n}");
    }
}

#[test]
fn the_last_symbol_of_the_first_round_differs(rt: HostRuntime) {
    let smaller = words(&rt, &[&[(15, 2)], &[]]);
    let larger = words(&rt, &[&[(15, 3)], &[]]);
    let wanted = words(&rt, &[&[(0, 7), (15, 9)]]);
    let changes = changes(&rt, &smaller, &larger, &wanted);
    assert_eq!(rt; changes.round, 0);
    assert_eq!(rt; changes.symbol, 15);
    are(&rt, changes.first.as_slice(), 32, &[(16, 14), (31, 18)]);
    are(
        &rt,
        changes.second.as_slice(),
        32,
        &[(1, 65530), (16, 65528)],
    );
}

#[test]
fn symbols_before_the_first_difference_change_first_pads(rt: HostRuntime) {
    let smaller = words(&rt, &[&[(3, 7)], &[(15, 2)], &[]]);
    let larger = words(&rt, &[&[(3, 7)], &[(15, 3)], &[]]);
    let wanted = words(&rt, &[&[(0, 4), (15, 5)]]);
    let changes = changes(&rt, &smaller, &larger, &wanted);
    assert_eq!(rt; changes.round, 1);
    assert_eq!(rt; changes.symbol, 15);
    are(
        &rt,
        changes.first.as_slice(),
        48,
        &[(19, 35), (32, 8), (47, 10)],
    );
    are(
        &rt,
        changes.second.as_slice(),
        48,
        &[(1, 65533), (16, 65532)],
    );
}
