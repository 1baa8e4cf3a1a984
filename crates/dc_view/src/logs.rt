//! The logs of a run, and the log of a station.

ghost use Rattle.std.specs.Prelude.{◌≡◌, ℕ, ◌≤◌, ◌<◌, List, length, take, slice_index_or};
ghost use Rattle.std.specs.List.{flat_map, enumerate_from};
ghost use Rattle.dc_spec.specs.Entries.{Entry as EntryValue, Stream as StreamValue};
ghost use Rattle.dc_edge.specs.Sink.{Puts};
ghost use Rattle.dc_net_rules.specs.Runs.{honest_stations, run_of};
ghost use Rattle.dc_run_texts.specs.Logs.{honest_text, log_line, logs_text, pending_line, sent_line, station_text};
ghost use Rattle.dc_station.specs.StandsFor.{StandsFor};
ghost use Rattle.dc_station_rules.specs.Stations.{log_of, pending_counts, sent_of};
ghost use Rattle.dc_print.specs.Gathering.{Gathers};

use crate::honest::honest_of;
use dc_edge::{Failed, Sink};
use dc_net::{CheckedNet, Played};
use dc_print::{gather_number, gather_number_line, gather_payload_line};
use dc_station::{Log, Pending, Station};

/// How many bytes are gathered before they are put.
const ROOM: usize = 32768;

/// Puts for each honest station of a net's run its number, its log, its sent entries and the
/// numbers of pending ones. The form of the text is this project's own.
pub fn put_logs<K: Sink>(net: &CheckedNet, run: &Played, out: &mut K) -> Result<(), Failed>
    requires { run.now ≡ run_of net.now }
    ensures { Puts (logs_text net.now run.now) (K.state out.old) (K.state out.new) result }
{
    let net = net.net();
    let honest = honest_of(&net.coalition, net.graph.stations());
    put_honest(run, honest.as_slice(), out)
}

/// Puts the log texts of the honest stations.
fn put_honest<K: Sink>(run: &Played, honest: &[u16], out: &mut K) -> Result<(), Failed>
    requires logs { length honest.now ≤ length run.now.logs }
    requires sents { length honest.now ≤ length run.now.sents }
    requires pending { length honest.now ≤ length run.now.pending }
    ensures { Puts (flat_map (λ h. honest_text run.now h.0 h.1) (enumerate_from 0 honest.now))
        (K.state out.old) (K.state out.new) result }
{
    let mut buffer = [0u8; ROOM];
    let end = gather_honest(&mut buffer, run, honest, out)?;
    out.put(&buffer[..end])
}

/// Puts the number of a station, its log, its sent entries and the numbers of pending ones. The
/// form of the text is this project's own.
pub fn put_station<K: Sink>(i: u16, st: &Station, out: &mut K) -> Result<(), Failed>
    ensures { (stream : StreamValue) (total : ℕ) (words : List (List ℕ)) →
        StandsFor st.now stream total words →
        Puts (station_text i (log_of words) (sent_of stream words) (pending_counts stream words))
        (K.state out.old) (K.state out.new) result }
{
    put_one(i, st.log(), st.sent(), st.pending(), out)
}

/// Puts the log text of one station.
fn put_one<K: Sink>(
    i: u16,
    log: &Log,
    sent: &Log,
    pending: Pending,
    out: &mut K,
) -> Result<(), Failed>
    ensures { Puts (station_text i log.now.entries sent.now.entries (pending.shorts, pending.longs))
        (K.state out.old) (K.state out.new) result }
{
    let mut buffer = [0u8; ROOM];
    let end = gather_station(&mut buffer, 0, i, log, sent, pending, out)?;
    out.put(&buffer[..end])
}

/// Gathers the log texts of the honest stations, from the beginning of a buffer on.
fn gather_honest<K: Sink>(
    buffer: &mut [u8],
    run: &Played,
    honest: &[u16],
    out: &mut K,
) -> Result<usize, Failed>
    requires room { 40 ≤ length buffer.old }
    requires logs { length honest.now ≤ length run.now.logs }
    requires sents { length honest.now ≤ length run.now.sents }
    requires pending { length honest.now ≤ length run.now.pending }
    ensures { Gathers (flat_map (λ h. honest_text run.now h.0 h.1) (enumerate_from 0 honest.now))
        (take 0 buffer.old) buffer.new (K.state out.old) (K.state out.new) result }
{
    let mut end = 0;
    for (j, i) in honest.iter().enumerate() {
        end = gather_place(buffer, end, run, j, *i, out)?;
    }
    Ok(end)
}

/// Gathers the log text of station `i`, which has place `j` among the honest ones.
fn gather_place<K: Sink>(
    buffer: &mut [u8],
    end: usize,
    run: &Played,
    j: usize,
    i: u16,
    out: &mut K,
) -> Result<usize, Failed>
    requires end { end ≤ length buffer.old }
    requires room { 40 ≤ length buffer.old }
    requires logs { j < length run.now.logs }
    requires sents { j < length run.now.sents }
    requires pending { j < length run.now.pending }
    ensures { Gathers (honest_text run.now j i) (take end buffer.old) buffer.new
        (K.state out.old) (K.state out.new) result }
{
    let log = &run.logs.as_slice()[j];
    let sent = &run.sents.as_slice()[j];
    gather_station(buffer, end, i, log, sent, run.pending.as_slice()[j], out)
}

/// Gathers the log text of a station.
fn gather_station<K: Sink>(
    buffer: &mut [u8],
    end: usize,
    i: u16,
    log: &Log,
    sent: &Log,
    pending: Pending,
    out: &mut K,
) -> Result<usize, Failed>
    requires end { end ≤ length buffer.old }
    requires room { 40 ≤ length buffer.old }
    ensures { Gathers
        (station_text i log.now.entries sent.now.entries (pending.shorts, pending.longs))
        (take end buffer.old) buffer.new (K.state out.old) (K.state out.new) result }
{
    let end = gather_number_line(buffer, end, b"station ", u32::from(i), out)?;
    let end = gather_log(buffer, end, log, out)?;
    let end = gather_sent(buffer, end, sent, out)?;
    gather_pending(buffer, end, pending, out)
}

/// Gathers the numbers of pending shorts and longs.
fn gather_pending<K: Sink>(
    buffer: &mut [u8],
    end: usize,
    pending: Pending,
    out: &mut K,
) -> Result<usize, Failed>
    requires end { end ≤ length buffer.old }
    requires room { 40 ≤ length buffer.old }
    ensures { Gathers (pending_line pending.shorts pending.longs) (take end buffer.old) buffer.new
        (K.state out.old) (K.state out.new) result }
{
    let end = gather_number(buffer, end, b"pending ", pending.shorts, out)?;
    gather_number_line(buffer, end, b" ", pending.longs, out)
}

/// Gathers the entries of a log.
fn gather_log<K: Sink>(
    buffer: &mut [u8],
    end: usize,
    log: &Log,
    out: &mut K,
) -> Result<usize, Failed>
    requires end { end ≤ length buffer.old }
    requires room { 40 ≤ length buffer.old }
    ensures { Gathers (flat_map log_line log.now.entries) (take end buffer.old) buffer.new
        (K.state out.old) (K.state out.new) result }
{
    let mut end = end;
    for k in 0..log.len() {
        end = gather_log_line(buffer, end, log, k, out)?;
    }
    Ok(end)
}

/// Gathers the sent entries of a station.
fn gather_sent<K: Sink>(
    buffer: &mut [u8],
    end: usize,
    sent: &Log,
    out: &mut K,
) -> Result<usize, Failed>
    requires end { end ≤ length buffer.old }
    requires room { 40 ≤ length buffer.old }
    ensures { Gathers (flat_map sent_line sent.now.entries) (take end buffer.old) buffer.new
        (K.state out.old) (K.state out.new) result }
{
    let mut end = end;
    for k in 0..sent.len() {
        end = gather_sent_line(buffer, end, sent, k, out)?;
    }
    Ok(end)
}

/// Gathers entry number `k` of a log.
fn gather_log_line<K: Sink>(
    buffer: &mut [u8],
    end: usize,
    log: &Log,
    k: usize,
    out: &mut K,
) -> Result<usize, Failed>
    requires end { end ≤ length buffer.old }
    requires room { 40 ≤ length buffer.old }
    requires entry { k < length log.now.entries }
    ensures { (d : EntryValue) → Gathers (log_line (slice_index_or log.now.entries k d))
        (take end buffer.old) buffer.new (K.state out.old) (K.state out.new) result }
{
    match log.times(k) {
        Some(times) => {
            let end = gather_number(buffer, end, b"log short ", u32::from(times), out)?;
            gather_payload_line(buffer, end, b" ", log.bytes(k), out)
        }
        None => gather_payload_line(buffer, end, b"log long ", log.bytes(k), out),
    }
}

/// Gathers entry number `k` of the sent entries.
fn gather_sent_line<K: Sink>(
    buffer: &mut [u8],
    end: usize,
    sent: &Log,
    k: usize,
    out: &mut K,
) -> Result<usize, Failed>
    requires end { end ≤ length buffer.old }
    requires room { 40 ≤ length buffer.old }
    requires entry { k < length sent.now.entries }
    ensures { (d : EntryValue) → Gathers (sent_line (slice_index_or sent.now.entries k d))
        (take end buffer.old) buffer.new (K.state out.old) (K.state out.new) result }
{
    match sent.times(k) {
        Some(_) => gather_payload_line(buffer, end, b"sent short ", sent.bytes(k), out),
        None => gather_payload_line(buffer, end, b"sent long ", sent.bytes(k), out),
    }
}
