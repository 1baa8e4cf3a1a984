//! Bursts, fragments and the fields of a reservation.

use crate::reading::{byte_number, number, part, short_number, word_of_symbols};
use dc_field::Word;
use dc_reserve::{BadBurst, Burst, BurstStep, fragment, fragment_count, granted};
use std::alloc::{AllocError, Global};
use std::test::*;

/// Field `n` of a line, from 0: fields are separated by a bar.
fn field(line: &str, n: usize) -> Option<&str> {
    Some(line.split('|').nth(n)?)
}

/// The check that a word breaks.
fn bad_burst(text: &str) -> Option<BadBurst> {
    match part(text, 0)? {
        "count" => Some(BadBurst::Count {
            seen: number(part(text, 1)?)?,
        }),
        "limb" => Some(BadBurst::Limb {
            l: byte_number(part(text, 1)?)?,
            seen: number(part(text, 2)?)?,
        }),
        "length" => Some(BadBurst::Length {
            told: short_number(part(text, 1)?)?,
            words: short_number(part(text, 2)?)?,
        }),
        "padding" => Some(BadBurst::Padding {
            at: short_number(part(text, 1)?)?,
        }),
        _ => None,
    }
}

/// The last step of a burst.
fn due(text: &str) -> Option<BurstStep> {
    if part(text, 0)? == "message" {
        return Some(BurstStep::Message {
            length: short_number(part(text, 1)?)?,
        });
    }
    Some(BurstStep::Void {
        why: bad_burst(text)?,
    })
}

/// The last step of a burst of two words, or of the first alone where it ends the burst.
fn last_step(burst: &mut Burst, line: &str) -> Option<BurstStep> {
    burst.restart();
    match burst.take(&word_of_symbols(field(line, 0)?)?) {
        BurstStep::Goes => Some(burst.take(&word_of_symbols(field(line, 1)?)?)),
        step => {
            if field(line, 1)?.is_empty() {
                Some(step)
            } else {
                None
            }
        }
    }
}

/// Whether a burst has the last step of a line.
fn is_as(burst: &mut Burst, line: &str) -> Option<bool> {
    Some(last_step(burst, line)? == due(field(line, 2)?)?)
}

/// The first line, from 0, with another last step.
fn first_wrong(alloc: Global, lines: &str) -> Result<Option<usize>, Fail> {
    let mut burst = Burst::start(alloc).ok().ok_or("out of memory")?;
    for (n, line) in lines.split('\n').enumerate() {
        if is_as(&mut burst, line) != Some(true) {
            return Ok(Some(n));
        }
    }
    Ok(None)
}

/// The words of a burst by their symbols, without the zeros at the end, and its last step.
static BURSTS: &str = "65280 0 29||count 65280
0||count 0
2 0 28 178|2 145|count 2
2 0 28 1|0 241|count 0
2 0 256 252||limb 2 256
2 0 14 186|1 23 65280|limb 2 65280
2 0 2 3||length 2 2
1 0 0 0 0 0 0 0 0 2||padding 8
2 0 14 18 248|1 107 0 0 255|padding 18
1||message 0
1 0 1 121||message 1
2 0 14 5|1 196|message 14";

#[test]
fn bursts_of_two_words(rt: HostRuntime) -> Result<(), Fail> {
    assert_eq!(rt; first_wrong(rt.alloc(), BURSTS)?, None);
    Ok(())
}

#[test]
fn a_burst_begins_again_after_a_void_one(rt: HostRuntime) -> Result<(), Fail> {
    let mut burst = Burst::start(rt.alloc()).ok().ok_or("out of memory")?;
    let void = burst.take(&symbols("300")?);
    assert_eq!(rt;
        void,
        BurstStep::Void {
            why: BadBurst::Count { seen: 300 }
        }
    );
    burst.restart();
    if let BurstStep::Message { length } = burst.take(&symbols("1 0 2 170 187")?) {
        assert_eq!(rt; length, 2);
        assert_eq!(rt; burst.message(), [170, 187].as_slice());
        return Ok(());
    }
    Err("not a burst")?
}

/// The word with these symbols.
fn symbols(text: &str) -> Result<Word, Fail> {
    Ok(word_of_symbols(text).ok_or("not a word")?)
}

fn filled(alloc: Global, n: usize) -> Result<Vec<u8>, AllocError> {
    let bytes = vec![in alloc; 7u8; n]?;
    Ok(bytes)
}

#[test]
fn fragments_of_the_longest_message(rt: HostRuntime) -> Result<(), Fail> {
    assert_eq!(rt; (fragment_count(13), fragment_count(14)), (1, 2));
    assert_eq!(rt; (fragment_count(3838), fragment_count(3839)), (256, 257));
    let bytes = filled(rt.alloc(), 3838)?;
    assert!(rt; bytes.len() == 3838);
    let first = fragment(&bytes, 0);
    assert!(rt; first.numbers() == symbols("256 14 254 7 7 7 7 7 7 7 7 7 7 7 7 7")?.numbers());
    let last = fragment(&bytes, 255);
    assert!(rt; last.numbers() == symbols("1 7 7 7 7 7 7 7 7 7 7 7 7 7 7 7")?.numbers());
    Ok(())
}

#[test]
fn fields_whose_symbol_is_one(rt: HostRuntime) -> Result<(), Fail> {
    let fields = granted(&symbols("0 1 2 65536 0 1 0 0 0 0 0 0 0 0 0 1")?);
    assert!(rt; fields.has(1) && !fields.has(2) && !fields.has(3) && fields.has(15));
    assert!(rt;
        fields.from(0) == Some(1) && fields.from(1) == Some(1) && fields.from(2) == Some(5)
    );
    assert!(rt;
        fields.from(6) == Some(15) && fields.from(15) == Some(15) && fields.from(16).is_none()
    );
    assert_eq!(rt; granted(&Word::zero()).from(0), None);
    Ok(())
}
