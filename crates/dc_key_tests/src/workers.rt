ghost use Rattle.std.specs.Prelude.{◌≤◌};

use dc_edge::{Gate, OpenGate};
use dc_field::{Sym, Word};
use dc_workers::{Piece, map_words};
use std::process::Abort;
use std::sync::atomic::{AtomicBool, Ordering};
use std::test::*;
use std::thread::Threads;

/// A piece that holds its word.
#[derive(Clone, Copy)]
struct Held {
    held: Word,
}

impl Piece for Held {
    ghost of = { λ p. p.held };

    fn word(&self) -> Word {
        self.held
    }
}

/// So many pieces, each computed by so many workers: the words are those of the pieces, in order.
fn words_are<R: Threads + Sync + AllocGlobal + Abort, G: Gate + Sync>(
    rt: &R,
    count: u32,
    workers: u32,
    gate: &G,
) -> Result<(), Fail>
    requires some { 1 ≤ workers }
    requires most { workers ≤ 64 }
{
    let mut pieces = Vec::new(rt.alloc());
    for number in 0..count {
        let mut held = Word::zero();
        held.set(0, Sym::new(number).ok_or("a symbol")?);
        pieces.push(Held { held })?;
    }
    let words = map_words(rt, rt.alloc(), pieces.as_slice(), workers, gate)
        .ok()
        .ok_or("there is memory")?;
    assert_eq!(rt; words.as_slice().len(), pieces.len());
    for (word, piece) in words.as_slice().iter().zip(pieces.iter()) {
        assert_eq!(rt; *word.numbers(), *piece.held.numbers());
    }
    Ok(())
}

#[test]
fn words_of_pieces_come_in_order(rt: HostRuntime) -> Result<(), Fail> {
    words_are(&rt, 0, 3, &OpenGate)?;
    words_are(&rt, 1, 64, &OpenGate)?;
    words_are(&rt, 7, 1, &OpenGate)?;
    words_are(&rt, 7, 3, &OpenGate)
}

/// A gate at which pieces 0 and 7 wait for each other.
#[derive(Drop)]
struct Meeting {
    first: AtomicBool,
    last: AtomicBool,
    first_saw: AtomicBool,
    last_saw: AtomicBool,
}

impl Gate for Meeting {
    fn pass(&self, piece: usize) {
        if piece == 0 {
            meet(&self.first, &self.last, &self.first_saw);
        }
        if piece == 7 {
            meet(&self.last, &self.first, &self.last_saw);
        }
    }
}

/// Sets a flag and then waits for another one, at most 200,000,000 turns.
fn meet(mine: &AtomicBool, other: &AtomicBool, saw: &AtomicBool) {
    mine.store(true, Ordering::SeqCst);
    for _ in 0..200_000_000u32 {
        if other.load(Ordering::SeqCst) {
            saw.store(true, Ordering::SeqCst);
            return;
        }
    }
}

#[test]
fn two_pieces_run_at_once(rt: HostRuntime) -> Result<(), Fail> {
    let gate = Meeting {
        first: AtomicBool::new(false),
        last: AtomicBool::new(false),
        first_saw: AtomicBool::new(false),
        last_saw: AtomicBool::new(false),
    };
    words_are(&rt, 8, 2, &gate)?;
    assert!(rt; gate.first_saw.load(Ordering::SeqCst));
    assert!(rt; gate.last_saw.load(Ordering::SeqCst));
    Ok(())
}

/// A gate that knows which of three pieces passed it.
#[derive(Drop)]
struct Passed {
    first: AtomicBool,
    second: AtomicBool,
    third: AtomicBool,
}

impl Gate for Passed {
    fn pass(&self, piece: usize) {
        match piece {
            0 => self.first.store(true, Ordering::SeqCst),
            1 => self.second.store(true, Ordering::SeqCst),
            _ => self.third.store(true, Ordering::SeqCst),
        }
    }
}

/// A piece that reports where its word is computed before it passed the gate.
#[derive(Clone, Copy)]
struct Watched<'a> {
    passed: &'a AtomicBool,
    early: &'a AtomicBool,
    held: Word,
}

impl Piece for Watched<'_> {
    ghost of = { λ p. p.held };

    fn word(&self) -> Word {
        if !self.passed.load(Ordering::SeqCst) {
            self.early.store(true, Ordering::SeqCst);
        }
        self.held
    }
}

/// Each of three pieces, computed by so many workers, passes the gate before its word is computed.
fn each_passes_first<R: Threads + Sync + AllocGlobal + Abort>(
    rt: &R,
    workers: u32,
) -> Result<(), Fail>
    requires some { 1 ≤ workers }
    requires most { workers ≤ 64 }
{
    let gate = Passed {
        first: AtomicBool::new(false),
        second: AtomicBool::new(false),
        third: AtomicBool::new(false),
    };
    let early = AtomicBool::new(false);
    let held = Word::zero();
    let pieces = [
        Watched {
            passed: &gate.first,
            early: &early,
            held,
        },
        Watched {
            passed: &gate.second,
            early: &early,
            held,
        },
        Watched {
            passed: &gate.third,
            early: &early,
            held,
        },
    ];
    let words = map_words(rt, rt.alloc(), &pieces, workers, &gate)
        .ok()
        .ok_or("there is memory")?;
    assert_eq!(rt; words.as_slice().len(), 3);
    assert!(rt; !early.load(Ordering::SeqCst));
    assert!(rt; gate.third.load(Ordering::SeqCst));
    Ok(())
}

#[test]
fn pieces_pass_the_gate_first(rt: HostRuntime) -> Result<(), Fail> {
    each_passes_first(&rt, 1)?;
    each_passes_first(&rt, 2)
}
