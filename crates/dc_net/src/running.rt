//! The run of a net.

ghost use Rattle.std.specs.Prelude.{◌≡◌, ◌+◌, ◌<◌, ◌≤◌, [], IfOk, length, map};
ghost use Rattle.std.specs.List.Sorted.{IsStrictlyIncreasing};
ghost use Rattle.dc_formats.specs.ScriptFile.{IsScript};
ghost use Rattle.dc_station_rules.specs.Stations.{log_of, pending_counts, sent_of};
ghost use Rattle.dc_net_rules.specs.Runs.{honest_stations, script_turn, rounds_of, run_of};
ghost use Rattle.dc_net.specs.Checked.{IsChecked};
ghost use Rattle.dc_net.specs.Run.{IsRecorded, IsPlayable, AreKeyed, seats_after};

use crate::book::Book;
use crate::checked_net::CheckedNet;
use crate::net::Net;
use crate::played::{Logs, Pendings, Played};
use crate::round_keys::{RoundKeys, threads_after};
use crate::seat::Seat;
use crate::seating::{honest_list, seats_of, take_all};
use dc_edge::Gate;
use dc_field::NoMemory;
use dc_workers::map_words;
use std::alloc::Global;
use std::thread::Threads;

/// The run of a net, for 1 to 64 workers: in each round the words of the honest stations are computed
/// by `map_words`, one piece for each, in rising order; in the first of each eight rounds by all
/// workers, and else by one. Beside what `map_words` gives, all memory is taken before the first round
/// and after the last.
pub fn run<R: Threads + Sync, G: Gate + Sync>(
    rt: &R,
    alloc: Global,
    net: &CheckedNet,
    workers: u32,
    gate: &G,
) -> Result<Played, NoMemory>
    requires some { 1 ≤ workers }
    requires most { workers ≤ 64 }
    ensures { IfOk result (λ played. played ≡ run_of net.now) }
{
    let net = net.net();
    let honest = honest_list(alloc, net)?;
    let mut book = Book::start(alloc, net, honest.len())?;
    let mut keys = keys_of(alloc, net, honest.as_slice())?;
    let mut seats = seats_of(alloc, net, honest.len(), &keys, &book.delivered)?;
    play(
        rt, alloc, net, workers, gate, &mut keys, &mut seats, &mut book,
    )?;
    finished(alloc, seats, book)
}

/// The keys of the honest stations before the first round.
fn keys_of(alloc: Global, net: &Net, honest: &[u16]) -> Result<RoundKeys, NoMemory>
    requires checked { IsChecked net.now }
    requires honest { honest.now ≡ honest_stations net.now }
    requires few { length honest.now ≤ 65535 }
    ensures { IfOk result (AreKeyed net.now []) }
{
    let keys = RoundKeys::start(alloc, &net.keys, honest)?;
    Ok(keys)
}

/// Plays all rounds.
fn play<R: Threads + Sync, G: Gate + Sync>(
    rt: &R,
    alloc: Global,
    net: &Net,
    workers: u32,
    gate: &G,
    keys: &mut RoundKeys,
    seats: &mut [Seat],
    book: &mut Book,
) -> Result<(), NoMemory>
    requires some { 1 ≤ workers }
    requires most { workers ≤ 64 }
    requires checked { IsChecked net.now }
    requires keyed { AreKeyed net.now (rounds_of net.now 0) keys.old }
    requires seats { seats.old ≡ seats_after net.now (rounds_of net.now 0) }
    requires recorded { IsRecorded net.now (rounds_of net.now 0) book.old }
    ensures seats { IfOk result (λ _.
        seats.new ≡ seats_after net.now (rounds_of net.now net.now.words)) }
    ensures recorded { IfOk result (λ _.
        IsRecorded net.now (rounds_of net.now net.now.words) book.new) }
{
    for round in 0..net.words {
        play_round(rt, alloc, net, workers, gate, round, keys, seats, book)?;
    }
    Ok(())
}

/// Plays one round: the words of the honest stations, the words of all stations with their sum and
/// what is delivered, and then the keys and each honest station take the words received.
fn play_round<R: Threads + Sync, G: Gate + Sync>(
    rt: &R,
    alloc: Global,
    net: &Net,
    workers: u32,
    gate: &G,
    round: u16,
    keys: &mut RoundKeys,
    seats: &mut [Seat],
    book: &mut Book,
) -> Result<(), NoMemory>
    requires some { 1 ≤ workers }
    requires most { workers ≤ 64 }
    requires checked { IsChecked net.now }
    requires round { round < net.now.words }
    requires keyed { AreKeyed net.now (rounds_of net.now round) keys.old }
    requires seats { seats.old ≡ seats_after net.now (rounds_of net.now round) }
    requires recorded { IsRecorded net.now (rounds_of net.now round) book.old }
    ensures keyed { IfOk result (λ _. AreKeyed net.now (rounds_of net.now (round + 1)) keys.new) }
    ensures seats { IfOk result (λ _.
        seats.new ≡ seats_after net.now (rounds_of net.now (round + 1))) }
    ensures recorded { IfOk result (λ _.
        IsRecorded net.now (rounds_of net.now (round + 1)) book.new) }
{
    note_script(net);
    let threads = threads_after(usize::from(round), workers);
    let honest = map_words(rt, alloc, seats, threads, gate)?;
    book.record(net, round, honest.as_slice(), seats.len());
    let heard = book.delivered.as_slice();
    keys.take(rt, workers, &heard[heard.len() - seats.len()..]);
    take_all(seats, &book.delivered, keys);
    Ok(())
}

/// Gives the prover facts and does nothing: the script keeps the rules of script files, and the members
/// rise.
fn note_script(net: &Net)
    ensures script { IsScript net.now.script }
    ensures members { IsStrictlyIncreasing net.now.coalition }
{
    let script = &net.script;
    let _version = script.version;
    let _ = net.coalition.members();
}

/// What was recorded, and what each honest station has after the last round.
fn finished(alloc: Global, seats: Vec<Seat>, book: Book) -> Result<Played, NoMemory>
    ensures { IfOk result (λ played. played ≡ record {
      words = book.words.words;
      sums = book.sums.words;
      delivered = book.delivered.words;
      logs = map (λ seat. log_of seat.received) seats.entry.items;
      sents = map (λ seat. sent_of seat.stream seat.received) seats.entry.items;
      pending = map (λ seat. pending_counts seat.stream seat.received) seats.entry.items;
    }) }
{
    let mut logs = Vec::with_capacity(alloc, seats.len())?;
    let mut sents = Vec::with_capacity(alloc, seats.len())?;
    let mut pending = Vec::with_capacity(alloc, seats.len())?;
    for seat in seats {
        let ended = seat.finish();
        logs.push_reserved(ended.log);
        sents.push_reserved(ended.sent);
        pending.push_reserved(ended.pending);
    }
    let Book {
        words,
        sums,
        delivered,
        ..
    } = book;
    Ok(Played {
        words: words.into_words(),
        sums: sums.into_words(),
        delivered: delivered.into_words(),
        logs: Logs::from_vec(logs),
        sents: Logs::from_vec(sents),
        pending: Pendings::from_vec(pending),
    })
}
