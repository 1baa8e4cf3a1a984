//! The keys of all stations of a net, where each station receives words of its own.

use crate::keys::word_of;
use crate::masks::file_of;
use dc_conv::Mask;
use dc_fast_keys::NetKeys;
use dc_field::Word;
use dc_keys::SummedPads;
use std::process::Abort;
use std::test::Fail;

/// Asserts that a station's word is the one of its mask, which then takes a word.
fn compares<R: AllocGlobal + Abort>(
    rt: &R,
    keys: &NetKeys,
    station: usize,
    mask: &mut Mask,
    w: &Word,
) -> Result<(), Fail> {
    if keys.words_left() == 0
        || keys.stations() <= station
        || mask.second.as_slice().len() / 16 <= usize::from(mask.taken)
    {
        return Err("no more words".into());
    }
    assert_eq!(rt; *keys.word(station).numbers(), *mask.word().numbers());
    mask.take(w);
    Ok(())
}

/// Asserts the words of all stations in one round, and takes the words that they receive.
fn round<R: AllocGlobal + Abort>(
    rt: &R,
    keys: &mut NetKeys,
    masks: &mut [Mask],
    seed: u32,
) -> Result<(), Fail> {
    let mut received = Vec::new(rt.alloc());
    for station in 0..masks.len() {
        let w = word_of(seed.wrapping_mul(3).wrapping_add((station % 3) as u32))?;
        compares(rt, keys, station, &mut masks[station], &w)?;
        received.push(w)?;
    }
    if keys.words_left() == 0 || keys.stations() != received.len() {
        return Err("no more words".into());
    }
    keys.take(&received);
    Ok(())
}

/// The keys of three stations are those of three masks, for a session of so many words.
fn keys_are_those_of_masks<R: AllocGlobal + Abort>(rt: &R, words: u16) -> Result<(), Fail> {
    let file = file_of(rt.alloc(), words)?;
    let mut pads = Vec::new(rt.alloc());
    let mut masks = Vec::new(rt.alloc());
    for me in 0..3 {
        let of_keys = SummedPads::of(rt.alloc(), &file, me)
            .ok()
            .ok_or("there is memory")?;
        pads.push(of_keys)?;
        let of_mask = SummedPads::of(rt.alloc(), &file, me)
            .ok()
            .ok_or("there is memory")?;
        masks.push(
            Mask::start(rt.alloc(), of_mask)
                .ok()
                .ok_or("there is memory")?,
        )?;
    }
    if pads.len() > 256 || words == 0 || words > 4096 {
        return Err("too many words".into());
    }
    let mut keys = NetKeys::start(rt.alloc(), &pads, words)
        .ok()
        .ok_or("there is memory")?;
    for t in 0..u32::from(words) {
        round(rt, &mut keys, &mut masks, t)?;
    }
    assert_eq!(rt; keys.words_left(), 0);
    Ok(())
}

#[test]
fn keys_of_short_sessions(rt: HostRuntime) -> Result<(), Fail> {
    keys_are_those_of_masks(&rt, 1)?;
    keys_are_those_of_masks(&rt, 2)?;
    keys_are_those_of_masks(&rt, 3)?;
    keys_are_those_of_masks(&rt, 7)
}

#[test]
fn keys_of_long_sessions(rt: HostRuntime) -> Result<(), Fail> {
    keys_are_those_of_masks(&rt, 64)?;
    keys_are_those_of_masks(&rt, 100)
}
