use crate::keys::{pads_of, word_of};
use dc_conv::Mask;
use dc_field::{Word, Words};
use dc_keys::{KeyFile, PairKey, Pairs, SummedPads, key_word};
use std::alloc::Global;
use std::process::Abort;
use std::test::*;

/// The key file of three stations and three pairs with pads of all kinds, for so many words.
pub(crate) fn file_of(alloc: Global, words: u16) -> Result<KeyFile, Fail> {
    let mut pairs = Vec::new(alloc);
    for (u, v, seed) in [(0, 1, 5), (0, 2, 77), (1, 2, 4001)] {
        let first = pads_of(alloc, words, seed, 1)?;
        let second = pads_of(alloc, words, seed + 13, 0)?;
        pairs.push(PairKey::new(u, v, first, second).ok_or("these are pads")?)?;
    }
    Ok(KeyFile::new(3, words, Pairs::from_vec(pairs)).ok_or("it is a key file")?)
}

/// The sum of the keys of a station's pairs: plus as the smaller end, minus as the larger end.
fn signed_sum(file: &KeyFile, me: u16, received: &Words, t: u16) -> Result<Word, Fail> {
    let mut sum = Word::zero();
    for pair in file.pairs.as_slice() {
        if pair.a.as_slice().len() <= 16 * usize::from(t)
            || received.as_slice().len() < usize::from(t)
        {
            return Err("too few pads or words".into());
        }
        let key = key_word(pair, received, t);
        if pair.u == me {
            sum = sum.add(&key);
        }
        if pair.v == me {
            sum = sum.sub(&key);
        }
    }
    Ok(sum)
}

/// Each word of a station's mask is the signed sum of the keys of its pairs.
fn mask_is_sum<R: AllocGlobal + Abort>(rt: &R, file: &KeyFile, me: u16) -> Result<(), Fail> {
    let mut items = Vec::new(rt.alloc());
    for t in 0..u32::from(file.words) {
        items.push(word_of(t)?)?;
    }
    let received = Words::from_vec(items);
    let pads = SummedPads::of(rt.alloc(), file, me)
        .ok()
        .ok_or("there is memory")?;
    let mut mask = Mask::start(rt.alloc(), pads).ok().ok_or("there is memory")?;
    for w in received.as_slice() {
        if mask.second.as_slice().len() / 16 <= usize::from(mask.taken) {
            return Err("too few pads".into());
        }
        let due = signed_sum(file, me, &received, mask.taken)?;
        assert_eq!(rt; *mask.word().numbers(), *due.numbers());
        mask.take(w);
    }
    Ok(())
}

/// The masks of three stations, for a session of so many words.
fn masks_are_sums<R: AllocGlobal + Abort>(rt: &R, words: u16) -> Result<(), Fail> {
    let file = file_of(rt.alloc(), words)?;
    mask_is_sum(rt, &file, 0)?;
    mask_is_sum(rt, &file, 1)?;
    mask_is_sum(rt, &file, 2)
}

#[test]
fn masks_of_sessions_around_a_block(rt: HostRuntime) -> Result<(), Fail> {
    masks_are_sums(&rt, 1)?;
    masks_are_sums(&rt, 32)?;
    masks_are_sums(&rt, 33)
}

#[test]
fn masks_of_a_session_of_two_blocks_and_more(rt: HostRuntime) -> Result<(), Fail> {
    masks_are_sums(&rt, 70)
}
