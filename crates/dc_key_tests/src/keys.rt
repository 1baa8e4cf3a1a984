use dc_field::{Sym, Syms, Word, Words};
use dc_keys::{KeyFile, PairKey, Pairs, key_word};
use std::alloc::Global;
use std::process::Abort;
use std::test::*;

/// Sixteen symbols for each of so many words, of all kinds. The first of them is multiplied by
/// `head`.
pub(crate) fn pads_of(alloc: Global, words: u16, seed: u32, head: u32) -> Result<Syms, Fail> {
    let mut items = Vec::new(alloc);
    let mut number = seed;
    for place in 0..16 * u32::from(words) {
        number = number.wrapping_mul(48271).wrapping_add(place) % 65537;
        items.push(if place == 0 {
            number.wrapping_mul(head)
        } else {
            number
        })?;
    }
    if items.iter().all(|x| *x < 65537) {
        Ok(Syms::from_vec(items))
    } else {
        Err("these are symbols")?
    }
}

/// A word of symbols of all kinds.
pub(crate) fn word_of(seed: u32) -> Result<Word, Fail> {
    let mut w = Word::zero();
    let mut number = seed;
    for l in 0..16 {
        number = number.wrapping_mul(16807).wrapping_add(65536) % 65537;
        w.set(l, Sym::new(number).ok_or("a symbol")?);
    }
    Ok(w)
}

/// So many symbols, all 0 but for a 1 at a place.
fn one_at(alloc: Global, count: usize, place: usize) -> Result<Syms, Fail> {
    let mut items = vec![in alloc; 0; count]?;
    if let Some(number) = items.get_mut(place) {
        *number = 1;
    }
    if items.iter().all(|x| *x < 65537) {
        Ok(Syms::from_vec(items))
    } else {
        Err("these are symbols")?
    }
}

/// The word of a first symbol and of fifteen that rise by one from another.
fn rising(head: u32, from: u32) -> Result<Word, Fail> {
    let mut w = Word::zero();
    let mut number = head;
    for l in 0..16 {
        w.set(l, Sym::new(number).ok_or("a symbol")?);
        number = from.wrapping_add(l as u32);
    }
    Ok(w)
}

/// The pair of two stations for three words, all pads 0 but for one second pad.
fn pair(alloc: Global, u: u16, v: u16, place: usize) -> Result<PairKey, Fail> {
    let a = one_at(alloc, 48, 48)?;
    let b = one_at(alloc, 48, place)?;
    Ok(PairKey::new(u, v, a, b).ok_or("these are pads")?)
}

/// The key of a pair whose only pad that is not 0 is the second pad 17.
fn key_is<R: AllocGlobal + Abort>(rt: &R, t: u16, due: &Word) -> Result<(), Fail> {
    let pair = pair(rt.alloc(), 0, 1, 17)?;
    let mut items = Vec::new(rt.alloc());
    items.push(rising(11, 12)?)?;
    items.push(rising(31, 32)?)?;
    items.push(rising(9, 9)?)?;
    let received = Words::from_vec(items);
    if pair.a.as_slice().len() <= 16 * usize::from(t)
        || received.as_slice().len() < usize::from(t)
    {
        return Err("too few pads or words".into());
    }
    let key = key_word(&pair, &received, t);
    assert_eq!(rt; *key.numbers(), *due.numbers());
    Ok(())
}

/// Second pad 17 carries a received symbol into the next word, one symbol further on, and from the
/// end of a word into the word after the next.
#[test]
fn a_second_pad_carries_symbols_on(rt: HostRuntime) -> Result<(), Fail> {
    key_is(&rt, 0, &Word::zero())?;
    key_is(&rt, 1, &rising(0, 11)?)?;
    key_is(&rt, 2, &rising(26, 31)?)
}

/// Whether a pair has such pads.
fn is_pair(alloc: Global, count: usize, place: usize) -> Result<bool, Fail> {
    let a = one_at(alloc, count, 0)?;
    let b = one_at(alloc, count, place)?;
    Ok(PairKey::new(0, 1, a, b).is_some())
}

#[test]
fn pads_of_a_pair(rt: HostRuntime) -> Result<(), Fail> {
    assert!(rt; is_pair(rt.alloc(), 48, 1)?);
    assert!(rt; !is_pair(rt.alloc(), 48, 0)?);
    assert!(rt; !is_pair(rt.alloc(), 47, 1)?);
    assert!(rt; !is_pair(rt.alloc(), 0, 0)?);
    Ok(())
}

/// Whether two pairs are those of a key file for three stations and so many words.
fn are_file(alloc: Global, words: u16, one: (u16, u16), other: (u16, u16)) -> Result<bool, Fail> {
    let mut pairs = Vec::new(alloc);
    pairs.push(pair(alloc, one.0, one.1, 17)?)?;
    pairs.push(pair(alloc, other.0, other.1, 18)?)?;
    Ok(KeyFile::new(3, words, Pairs::from_vec(pairs)).is_some())
}

#[test]
fn pairs_of_a_file_rise_by_their_ends(rt: HostRuntime) -> Result<(), Fail> {
    assert!(rt; are_file(rt.alloc(), 3, (0, 1), (0, 2))?);
    assert!(rt; !are_file(rt.alloc(), 3, (0, 2), (0, 1))?);
    assert!(rt; !are_file(rt.alloc(), 3, (0, 1), (0, 1))?);
    assert!(rt; !are_file(rt.alloc(), 3, (0, 1), (2, 1))?);
    assert!(rt; !are_file(rt.alloc(), 3, (0, 1), (1, 3))?);
    assert!(rt; !are_file(rt.alloc(), 2, (0, 1), (0, 2))?);
    assert!(rt; KeyFile::new(3, 0, Pairs::from_vec(Vec::new(rt.alloc()))).is_none());
    Ok(())
}

#[test]
fn a_copy_has_the_same_pads(rt: HostRuntime) -> Result<(), Fail> {
    let mut pairs = Vec::new(rt.alloc());
    pairs.push(pair(rt.alloc(), 0, 2, 17)?)?;
    let file = KeyFile::new(3, 3, Pairs::from_vec(pairs)).ok_or("it is a key file")?;
    let again = file.copy(rt.alloc()).ok().ok_or("there is memory")?;
    assert_eq!(rt; (again.stations, again.words), (3, 3));
    let first = file.pairs.as_slice().first().ok_or("a pair")?;
    let second = again.pairs.as_slice().first().ok_or("a pair")?;
    assert_eq!(rt; (second.u, second.v), (0, 2));
    assert_eq!(rt; second.a.as_slice(), first.a.as_slice());
    assert_eq!(rt; second.b.as_slice(), first.b.as_slice());
    Ok(())
}
