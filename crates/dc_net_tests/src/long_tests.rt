//! Runs of sessions that are long enough for products of polynomials, compared with masks.

ghost use Rattle.std.specs.Prelude.{◌≤◌};

use crate::answers::done;
use crate::check_tests::{Parts, checked, net_of};
use dc_conv::Mask;
use dc_edge::OpenGate;
use dc_field::Word;
use dc_keys::SummedPads;
use dc_net::{CheckedNet, Played, run};
use std::process::Abort;
use std::test::*;
use std::thread::Threads;

/// Eighteen stations in a row.
const ROW: [(u16, u16); 17] = [
    (0, 1),
    (1, 2),
    (2, 3),
    (3, 4),
    (4, 5),
    (5, 6),
    (6, 7),
    (7, 8),
    (8, 9),
    (9, 10),
    (10, 11),
    (11, 12),
    (12, 13),
    (13, 14),
    (14, 15),
    (15, 16),
    (16, 17),
];

/// The script in which everybody receives the sum, for so many rounds.
fn summing<R: AllocGlobal>(rt: &R, words: u16) -> Result<String, Fail> {
    let mut text = format!(in rt.alloc(); "dcscript 2\n")?;
    for round in 0..words {
        text.push_str(&format!(in rt.alloc(); "round {round}\nall\n")?)?;
    }
    Ok(text)
}

/// The script in which the last station deals to each other station a number of that station's own
/// word of the round.
fn dealing<R: AllocGlobal>(rt: &R, words: u16) -> Result<String, Fail> {
    let mut text = format!(in rt.alloc(); "dcscript 2\n")?;
    for round in 0..words {
        text.push_str(&format!(in rt.alloc(); "round {round}\nsay 17 W\n")?)?;
        for station in 0..17u16 {
            let word = format!(in rt.alloc(); "to {station} W\nadd 3 00001 {station} {round} 5\n")?;
            text.push_str(&word)?;
        }
    }
    Ok(text)
}

/// The net of eighteen stations in a row with empty streams, of which the members have none.
fn row_of<R: AllocGlobal + Abort>(
    rt: &R,
    members: &[u16],
    streams: &[bool],
    script: &str,
    words: u16,
) -> CheckedNet {
    let parts = Parts {
        stations: 18,
        edges: &ROW,
        members,
        key_stations: 18,
        key_edges: &ROW,
        key_words: words,
        streams,
        script,
        words,
    };
    done(rt, checked(rt, net_of(rt, &parts)))
}

/// Asserts that a word is that of a mask, which then takes a received word.
fn compares<R: Abort>(rt: &R, mask: &mut Mask, said: &Word, received: &Word) -> Result<(), Fail> {
    if mask.second.as_slice().len() / 16 <= usize::from(mask.taken) {
        return Err("no more words".into());
    }
    assert_eq!(rt; *said.numbers(), *mask.word().numbers());
    mask.take(received);
    Ok(())
}

/// Asserts that the words of a station that sends nothing are its keys, by its mask.
fn says_its_keys<R: AllocGlobal + Abort>(
    rt: &R,
    net: &CheckedNet,
    played: &Played,
    station: u16,
    honest: u16,
) -> Result<(), Fail> {
    let net = net.net();
    let pads = done(rt, SummedPads::of(rt.alloc(), &net.keys, station));
    let mut mask = done(rt, Mask::start(rt.alloc(), pads));
    let place = usize::from(station);
    for round in 0..usize::from(net.words) {
        let said = played.words.as_slice().get(round * 18 + place);
        let received = played
            .delivered
            .as_slice()
            .get(round * usize::from(honest) + place);
        let said = said.ok_or("a word said")?;
        compares(rt, &mut mask, said, received.ok_or("a word received")?)?;
    }
    Ok(())
}

/// Asserts that all honest stations, which are the first ones, say their keys in a run with so many
/// workers.
fn all_say_their_keys<R: Threads + Sync + AllocGlobal + Abort>(
    rt: &R,
    net: &CheckedNet,
    honest: u16,
    workers: u32,
) -> Result<(), Fail>
    requires some { 1 ≤ workers }
    requires most { workers ≤ 64 }
{
    let played = done(rt, run(rt, rt.alloc(), net, workers, &OpenGate));
    for station in 0..honest {
        says_its_keys(rt, net, &played, station, honest)?;
    }
    Ok(())
}

#[test]
fn long_sessions_with_sums(rt: HostRuntime) -> Result<(), Fail> {
    for words in [63u16, 64, 100] {
        let net = row_of(&rt, &[], &[true; 18], summing(&rt, words)?.as_str(), words);
        all_say_their_keys(&rt, &net, 18, 1)?;
        all_say_their_keys(&rt, &net, 18, 3)?;
    }
    Ok(())
}

#[test]
fn long_sessions_with_dealt_words(rt: HostRuntime) -> Result<(), Fail> {
    let mut streams = [true; 18];
    streams[17] = false;
    for words in [64u16, 100] {
        let net = row_of(&rt, &[17], &streams, dealing(&rt, words)?.as_str(), words);
        all_say_their_keys(&rt, &net, 17, 1)?;
        all_say_their_keys(&rt, &net, 17, 3)?;
    }
    Ok(())
}
