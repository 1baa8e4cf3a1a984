//! The hub core: what it answers to arrivals in their order, its transcript, and the transcript's file.

use dc_field::{NoMemory, Sym, Word};
use dc_superpose::{
    HubCore, HubFault, HubStep, Transcript, read_transcript, sums, transcript_bytes,
};
use std::process::Abort;
use std::test::Fail;

/// The word whose first symbol and last symbol are these, and 0 between them.
fn ends(first: u32, last: u32) -> Result<Word, Fail> {
    let mut w = Word::zero();
    w.set(0, Sym::new(first).ok_or("a symbol")?);
    w.set(15, Sym::new(last).ok_or("a symbol")?);
    Ok(w)
}

/// Asserts that two words are the same.
fn same<R: Abort>(rt: &R, w: &Word, due: &Word) {
    assert_eq!(rt; w.numbers().as_slice(), due.numbers().as_slice());
}

/// Asserts that a word is accepted and this station is the least that is missing.
fn waits<R: Abort>(
    rt: &R,
    core: &mut HubCore,
    at: (u16, u16),
    w: &Word,
    due: u16,
) -> Result<(), Fail> {
    match core.take(at.0, at.1, w) {
        Ok(HubStep::Waiting { first_missing }) => {
            assert_eq!(rt; first_missing, due);
            Ok(())
        }
        _ => Err("another answer")?,
    }
}

/// Asserts that a word completes its round with this sum.
fn completes<R: Abort>(
    rt: &R,
    core: &mut HubCore,
    at: (u16, u16),
    w: &Word,
    due: &Word,
) -> Result<(), Fail> {
    let answer = core.take(at.0, at.1, w);
    match &answer {
        Ok(HubStep::Complete { sum }) => {
            same(rt, sum, due);
            Ok(())
        }
        _ => Err("another answer")?,
    }
}

/// The fault of a word, as a kind and the number or the first symbol that it has.
fn refused(core: &mut HubCore, at: (u16, u16), w: &Word) -> (u8, u32) {
    let answer = core.take(at.0, at.1, w);
    match &answer {
        Err(HubFault::Station { seen }) => (0, u32::from(*seen)),
        Err(HubFault::Over) => (1, 0),
        Err(HubFault::Old { now }) => (2, u32::from(*now)),
        Err(HubFault::Ahead { now }) => (3, u32::from(*now)),
        Err(HubFault::Repeated { kept }) => (4, kept.numbers()[0]),
        Ok(_) => (5, 0),
    }
}

/// Asserts how many rounds are complete and, where not all are, the least station that is missing.
fn stands<R: Abort>(rt: &R, core: &HubCore, now: u16, missing: Option<u16>) {
    assert_eq!(rt; core.now(), now);
    if core.is_over() {
        assert!(rt; missing.is_none());
    } else {
        assert_eq!(rt; Some(core.first_missing()), missing);
    }
}

/// The transcript of a hub that is over.
fn finished(core: HubCore) -> Result<Transcript, Fail> {
    if !core.is_over() {
        return Err("rounds are missing")?;
    }
    Ok(core.finish())
}

/// Asserts the words of a transcript.
fn has<R: Abort>(rt: &R, t: &Transcript, sizes: (u16, u16), due: &[Word]) {
    assert_eq!(rt; (t.stations, t.rounds), sizes);
    assert_eq!(rt; t.words.as_slice().len(), due.len());
    for (w, word) in t.words.as_slice().iter().zip(due) {
        same(rt, w, word);
    }
}

/// The first of two rounds of two stations, with the refusals of words that are out of turn.
fn first_round<R: Abort>(
    rt: &R,
    core: &mut HubCore,
    a: &Word,
    b: &Word,
    c: &Word,
) -> Result<(), Fail> {
    stands(rt, core, 0, Some(0));
    waits(rt, core, (0, 0), a, 1)?;
    assert_eq!(rt; refused(core, (0, 0), b), (4, 1));
    assert_eq!(rt; refused(core, (1, 1), b), (3, 0));
    stands(rt, core, 0, Some(1));
    completes(rt, core, (1, 0), c, &ends(0, 7)?)
}

/// The second round, and the refusals after it.
fn second_round<R: Abort>(
    rt: &R,
    core: &mut HubCore,
    a: &Word,
    b: &Word,
    c: &Word,
) -> Result<(), Fail> {
    stands(rt, core, 1, Some(0));
    assert_eq!(rt; refused(core, (0, 0), a), (2, 1));
    assert_eq!(rt; refused(core, (2, 1), a), (0, 2));
    waits(rt, core, (1, 1), b, 0)?;
    completes(rt, core, (0, 1), c, &ends(2, 9)?)?;
    stands(rt, core, 2, None);
    assert_eq!(rt; refused(core, (0, 1), a), (1, 0));
    assert_eq!(rt; refused(core, (2, 0), a), (0, 2));
    Ok(())
}

/// Asserts the sums of a transcript.
fn sums_are<R: AllocGlobal + Abort>(rt: &R, t: &Transcript, due: &[Word]) -> Result<(), Fail> {
    for (w, sum) in sums(rt.alloc(), t)?.as_slice().iter().zip(due) {
        same(rt, w, sum);
    }
    Ok(())
}

/// Two stations and two rounds, with each refusal, up to the transcript.
#[test]
fn two_rounds_of_two_stations(rt: HostRuntime) -> Result<(), Fail> {
    let (a, b, c) = (ends(1, 2)?, ends(3, 4)?, ends(65536, 5)?);
    let mut core = HubCore::start(rt.alloc(), 2, 2)?;
    first_round(&rt, &mut core, &a, &b, &c)?;
    second_round(&rt, &mut core, &a, &b, &c)?;
    let t = finished(core)?;
    has(&rt, &t, (2, 2), &[a, c, c, b]);
    sums_are(&rt, &t, &[ends(0, 7)?, ends(2, 9)?])
}

/// The same words of one round in the other order.
#[test]
fn the_other_order(rt: HostRuntime) -> Result<(), Fail> {
    let (a, c) = (ends(1, 2)?, ends(65536, 5)?);
    let mut core = HubCore::start(rt.alloc(), 2, 2)?;
    waits(&rt, &mut core, (1, 0), &c, 0)?;
    completes(&rt, &mut core, (0, 0), &a, &ends(0, 7)?)
}

/// The least missing station, where later ones come first.
#[test]
fn the_least_missing_station(rt: HostRuntime) -> Result<(), Fail> {
    let a = ends(1, 2)?;
    let mut core = HubCore::start(rt.alloc(), 4, 1)?;
    for (station, due) in [(2, 0), (0, 1), (1, 3)] {
        waits(&rt, &mut core, (station, 0), &a, due)?;
    }
    completes(&rt, &mut core, (3, 0), &a, &ends(4, 8)?)
}

/// One station, one round: the file of the session, and what it is read as.
#[test]
fn the_file_of_a_session(rt: HostRuntime) -> Result<(), Fail> {
    let w = ends(1, 2)?;
    let mut core = HubCore::start(rt.alloc(), 1, 1)?;
    completes(&rt, &mut core, (0, 0), &w, &w)?;
    let t = finished(core)?;
    let bytes = transcript_bytes(rt.alloc(), &t)?;
    assert_eq!(&rt; bytes.as_slice(), file_of_one_word(rt.alloc())?.as_slice());
    let read = read_transcript(rt.alloc(), bytes.as_slice())
        .ok()
        .ok_or("it is a file")?;
    has(&rt, &read, (1, 1), &[w]);
    Ok(())
}

/// The file of one station and one round, with the word whose ends are 1 and 2.
fn file_of_one_word(alloc: std::alloc::Global) -> Result<Vec<u8>, NoMemory> {
    let mut due = Vec::from_slice(alloc, b"DCT1\0\x01\0\x01\0\0\0\x01".as_slice())?;
    due.extend_from_slice(&[0; 56])?;
    due.extend_from_slice(&[0, 0, 0, 2])?;
    Ok(due)
}
