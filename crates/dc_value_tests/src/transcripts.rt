//! Recorded sessions: what a file is read as, its first fault, and the sums.

use dc_field::{NoMemory, Refusal, Words};
use dc_superpose::{TranscriptFault, read_sums, read_transcript, sums};
use std::process::Abort;
use std::test::Fail;

/// A file of so many stations and rounds with these symbols.
fn file<R: AllocGlobal>(
    rt: &R,
    stations: u8,
    rounds: u8,
    symbols: &[u32],
) -> Result<Vec<u8>, NoMemory> {
    let mut b = Vec::from_slice(rt.alloc(), b"DCT1".as_slice())?;
    b.extend_from_slice(&[0, stations, 0, rounds])?;
    for x in symbols {
        b.extend_from_slice(&x.to_be_bytes())?;
    }
    Ok(b)
}

/// Two stations and one round: a word of 65536s and a word of ones.
fn two_words<R: AllocGlobal>(rt: &R) -> Result<Vec<u8>, NoMemory> {
    let mut symbols = [65536; 32];
    for x in symbols[16..].iter_mut() {
        *x = 1;
    }
    file(rt, 2, 1, &symbols)
}

/// Asserts that words are these, each given by all of its numbers.
fn are<R: Abort>(rt: &R, words: &Words, due: &[[u32; 16]]) {
    assert_eq!(rt; words.as_slice().len(), due.len());
    for (w, numbers) in words.as_slice().iter().zip(due) {
        assert_eq!(rt; w.numbers().as_slice(), numbers.as_slice());
    }
}

/// Asserts what a file is read as, and its sums, both ways.
fn reads<R: AllocGlobal + Abort>(
    rt: &R,
    b: &[u8],
    sizes: (u16, u16),
    words: &[[u32; 16]],
    due: &[[u32; 16]],
) -> Result<(), Fail> {
    let t = read_transcript(rt.alloc(), b).ok().ok_or("it is a file")?;
    assert_eq!(rt; (t.stations, t.rounds), sizes);
    are(rt, &t.words, words);
    are(rt, &sums(rt.alloc(), &t)?, due);
    are(
        rt,
        &read_sums(rt.alloc(), b).ok().ok_or("it is a file")?,
        due,
    );
    Ok(())
}

/// Asserts the first fault of a file, both ways.
fn faults<R: AllocGlobal + Abort>(rt: &R, b: &[u8], due: TranscriptFault) -> Result<(), Fail> {
    match (read_transcript(rt.alloc(), b), read_sums(rt.alloc(), b)) {
        (Err(Refusal::Bad(first)), Err(Refusal::Bad(second))) => {
            assert_eq!(rt; first, due);
            assert_eq!(rt; second, due);
            Ok(())
        }
        _ => Err("another answer")?,
    }
}

/// Asserts the first fault of the file of two words with another byte at a place.
fn faults_with<R: AllocGlobal + Abort>(
    rt: &R,
    place: usize,
    byte: u8,
    due: TranscriptFault,
) -> Result<(), Fail> {
    let mut b = two_words(rt)?;
    if place < b.len() {
        b[place] = byte;
    }
    faults(rt, &b, due)
}

/// Sixteen numbers, falling by one from the first.
fn falling(first: u32) -> [u32; 16] {
    let mut numbers = [0; 16];
    for (l, x) in numbers.iter_mut().enumerate() {
        *x = first.wrapping_sub(l as u32);
    }
    numbers
}

#[test]
fn two_words_are_read_and_cancel(rt: HostRuntime) -> Result<(), Fail> {
    let b = two_words(&rt)?;
    reads(&rt, &b, (2, 1), &[[65536; 16], [1; 16]], &[[0; 16]])
}

#[test]
fn two_rounds_of_two(rt: HostRuntime) -> Result<(), Fail> {
    let mut symbols = [0; 64];
    for (s, x) in symbols.iter_mut().enumerate() {
        *x = 65536 - s as u32;
    }
    let b = file(&rt, 2, 2, &symbols)?;
    let mut sums = [[0; 16]; 2];
    for l in 0..16 {
        sums[0][l] = 65519 - 2 * l as u32;
        sums[1][l] = 65455 - 2 * l as u32;
    }
    let words = [
        falling(65536),
        falling(65520),
        falling(65504),
        falling(65488),
    ];
    reads(&rt, &b, (2, 2), &words, &sums)
}

#[test]
fn first_faults_of_the_header(rt: HostRuntime) -> Result<(), Fail> {
    faults_with(&rt, 0, 0x64, TranscriptFault::Magic)?;
    faults_with(&rt, 5, 0, TranscriptFault::Stations { seen: 0 })?;
    faults_with(&rt, 4, 1, TranscriptFault::Stations { seen: 258 })?;
    faults_with(&rt, 7, 0, TranscriptFault::Words { seen: 0 })?;
    faults_with(&rt, 6, 16, TranscriptFault::Words { seen: 4097 })
}

#[test]
fn first_faults_of_the_words(rt: HostRuntime) -> Result<(), Fail> {
    let need = TranscriptFault::Truncated { at: 136, need: 264 };
    faults_with(&rt, 7, 2, need)?;
    let first = TranscriptFault::Symbol { at: 8, seen: 65537 };
    faults_with(&rt, 11, 1, first)?;
    let high = TranscriptFault::Symbol {
        at: 72,
        seen: 16777217,
    };
    faults_with(&rt, 72, 1, high)?;
    faults_with(&rt, 5, 1, TranscriptFault::Rest { at: 72 })
}

#[test]
fn each_length(rt: HostRuntime) -> Result<(), Fail> {
    let mut b = two_words(&rt)?;
    for n in 0..b.len() {
        let need = if n < 8 { 8 } else { 136 };
        let due = TranscriptFault::Truncated { at: n as u64, need };
        faults(&rt, &b[..n], due)?;
    }
    b.push(0)?;
    faults(&rt, &b, TranscriptFault::Rest { at: 136 })
}
