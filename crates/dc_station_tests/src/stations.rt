//! Stations take the words of sessions: the phase and the plain word before each word, and what is known after it.

ghost use Rattle.std.specs.Prelude.{◌≡◌, ℕ, ◌+◌, ◌<◌, ◌≤◌, IfOk, IfSome};

use crate::reading::{are_bytes, byte_number, number, part, short_number, word};
use crate::sessions::{
    Session, other_0, other_1, other_2, other_3, other_4, other_5, other_6, other_7, other_8,
    other_9, other_10, other_11, worked_0, worked_1, worked_2, worked_3, worked_4, worked_5,
    worked_6, worked_7, worked_8, worked_9, worked_10, worked_11, worked_12, worked_13, worked_14,
};
use dc_field::{Bytes, Value, Word};
use dc_station::{Entry, Log, Phase, Receiver, Station};
use dc_stream::{Stream, read_stream};
use std::alloc::Global;
use std::test::*;

/// The phase of a word's line.
fn phase(line: &str) -> Option<Phase> {
    match part(line, 0)? {
        "reserve" => Some(Phase::Reserve),
        "burst" => Some(Phase::Burst {
            field: byte_number(part(line, 3)?)?,
            index: short_number(part(line, 4)?)?,
        }),
        "epoch" => Some(Phase::Epoch),
        _ => None,
    }
}

/// Whether a line is that of a word.
fn is_word(line: &str) -> bool {
    phase(line).is_some()
}

/// How many of the lines are those of words, 1 to 4096.
fn words_in(lines: &str) -> Option<u16>
    ensures some { IfSome result (λ words. 1 ≤ words) }
    ensures most { IfSome result (λ words. words ≤ 4096) }
{
    let mut count = 0u16;
    for line in lines.split('\n') {
        if is_word(line) {
            count = count.wrapping_add(1);
        }
    }
    if count < 1 || 4096 < count {
        return None;
    }
    Some(count)
}

/// Whether entry `i` of a log is that of a line.
fn is_entry(log: &Log, i: usize, line: &str) -> Option<bool> {
    if log.len() <= i {
        return Some(false);
    }
    match log.times(i) {
        Some(times) => Some(
            part(line, 1)? == "short"
                && times == short_number(part(line, 2)?)?
                && are_bytes(log.bytes(i), part(line, 3)?.as_bytes()),
        ),
        None => Some(
            part(line, 1)? == "long" && are_bytes(log.bytes(i), part(line, 2)?.as_bytes()),
        ),
    }
}

/// Whether a log has the entries of the lines of a kind, among the first so many lines.
fn is_log(log: &Log, lines: &str, upto: usize, kind: &str) -> Option<bool> {
    let mut i = 0usize;
    for (n, line) in lines.split('\n').enumerate() {
        if n < upto && part(line, 0)? == kind {
            if !is_entry(log, i, line)? {
                return Some(false);
            }
            i = i.wrapping_add(1);
        }
    }
    Some(i == log.len())
}

/// Whether a station has what the lines before this one say, and has as much pending as this line says.
fn knows(station: &Station, lines: &str, n: usize, line: &str) -> Option<bool> {
    let pending = station.pending();
    Some(
        pending.shorts == number(part(line, 1)?)?
            && pending.longs == number(part(line, 2)?)?
            && is_log(station.log(), lines, n, "log")?
            && is_log(station.sent(), lines, n, "sent")?,
    )
}

/// Gives a station the word of a line: whether it was in the phase and sent the plain word of the line.
fn take(station: &mut Station, line: &str) -> Option<bool>
    requires { station.old.taken < station.old.total }
    ensures taken { IfSome result (λ so. station.new.taken ≡ station.old.taken + 1) }
    ensures total { station.new.total ≡ station.old.total }
{
    let phase = phase(line)?;
    let plain = word(part(line, 1)?)?;
    let received = word(part(line, 2)?)?;
    let so = station.phase() == phase && station.plain().numbers() == plain.numbers();
    station.receive(&received);
    Some(so)
}

fn stream(alloc: Global, text: &str) -> Result<Stream, Fail> {
    Ok(
        read_stream(alloc, text.as_bytes())
            .ok()
            .ok_or("not a stream")?,
    )
}

/// A station at its start.
fn station(alloc: Global, text: &str, words: u16) -> Result<Station, Fail>
    requires some { 1 ≤ words }
    requires most { words ≤ 4096 }
    ensures none { IfOk result (λ station. station.taken ≡ 0) }
    ensures all { IfOk result (λ station. station.total ≡ words) }
{
    Ok(
        Station::start(alloc, stream(alloc, text)?, words)
            .ok()
            .ok_or("out of memory")?,
    )
}

/// A receiver at its start.
fn receiver(alloc: Global, words: u16) -> Result<Receiver, Fail>
    requires some { 1 ≤ words }
    requires most { words ≤ 4096 }
    ensures none { IfOk result (λ receiver. receiver.taken ≡ 0) }
    ensures all { IfOk result (λ receiver. receiver.total ≡ words) }
{
    Ok(Receiver::start(alloc, words).ok().ok_or("out of memory")?)
}

/// Gives a station the words of a session: the first line, from 0, that it does not follow. All entries are
/// compared again with what the station has at its end.
fn first_wrong(alloc: Global, session: &Session) -> Result<Option<usize>, Fail> {
    let lines = session.lines;
    let mut left = words_in(lines).ok_or("not 1 to 4096 words")?;
    let mut station = station(alloc, session.stream, left)?;
    for (n, line) in lines.split('\n').enumerate() {
        let so = match part(line, 0) {
            Some("reserve" | "burst" | "epoch") => {
                if left == 0 {
                    return Err("more words than counted")?;
                }
                left -= 1;
                take(&mut station, line)
            }
            Some("pending") => knows(&station, lines, n, line),
            Some("log" | "sent") => Some(true),
            _ => None,
        };
        if so != Some(true) {
            return Ok(Some(n));
        }
    }
    let (log, sent) = station.finish();
    let ends = is_log(&log, lines, usize::MAX, "log") == Some(true)
        && is_log(&sent, lines, usize::MAX, "sent") == Some(true);
    Ok(if ends { None } else { Some(usize::MAX) })
}

/// Fails where a station does not follow a session.
fn follows(alloc: Global, session: &Session) -> Result<(), Fail> {
    match first_wrong(alloc, session)? {
        None => Ok(()),
        Some(_) => Err("a station does not follow the session")?,
    }
}

#[test]
fn stations_in_sessions_worked_by_hand(rt: HostRuntime) -> Result<(), Fail> {
    let alloc = rt.alloc();
    follows(alloc, &worked_0())?;
    follows(alloc, &worked_1())?;
    follows(alloc, &worked_2())?;
    follows(alloc, &worked_3())?;
    follows(alloc, &worked_4())?;
    follows(alloc, &worked_5())?;
    follows(alloc, &worked_6())?;
    follows(alloc, &worked_7())?;
    follows(alloc, &worked_8())?;
    follows(alloc, &worked_9())?;
    follows(alloc, &worked_10())?;
    follows(alloc, &worked_11())?;
    follows(alloc, &worked_12())?;
    follows(alloc, &worked_13())?;
    follows(alloc, &worked_14())?;
    Ok(())
}

#[test]
fn stations_in_other_sessions(rt: HostRuntime) -> Result<(), Fail> {
    let alloc = rt.alloc();
    follows(alloc, &other_0())?;
    follows(alloc, &other_1())?;
    follows(alloc, &other_2())?;
    follows(alloc, &other_3())?;
    follows(alloc, &other_4())?;
    follows(alloc, &other_5())?;
    follows(alloc, &other_6())?;
    follows(alloc, &other_7())?;
    follows(alloc, &other_8())?;
    follows(alloc, &other_9())?;
    follows(alloc, &other_10())?;
    follows(alloc, &other_11())?;
    Ok(())
}

/// A receiver whose log is a message of fifteen zeros, and then the value of the same bytes.
fn alike_entries(alloc: Global) -> Result<Receiver, Fail> {
    let mut receiver = receiver(alloc, 4)?;
    let one = word("00001").ok_or("not a word")?;
    receiver.receive(&one);
    receiver.receive(&word("00002000000000f").ok_or("not a word")?);
    receiver.receive(&one);
    receiver.receive(&one);
    Ok(receiver)
}

#[test]
fn a_value_is_not_a_message_of_its_bytes(rt: HostRuntime) -> Result<(), Fail> {
    let alloc = rt.alloc();
    let receiver = alike_entries(alloc)?;
    assert_eq!(rt; receiver.received(), 4);
    let log = receiver.into_log();
    let bytes = vec![in alloc; 0u8; 15].ok().ok_or("out of memory")?;
    let long = Entry::Long {
        bytes: Bytes::from_vec(bytes),
    };
    let short = Entry::Short {
        value: Value { bytes: [0; 15] },
        times: 1,
    };
    assert!(rt; log.len() == 2);
    assert!(rt; log.is_entry(0, &long) && !log.is_entry(0, &short));
    assert!(rt; log.is_entry(1, &short) && !log.is_entry(1, &long));
    Ok(())
}
