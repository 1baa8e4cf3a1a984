//! The summary of a trial.

ghost use Rattle.std.specs.Prelude.{◌≡◌, ℕ, ◌+◌, ◌<◌, ◌≤◌, ◌++◌, length, codes, decimal, sum_by, slice_index_or};
ghost use Rattle.dc_spec.specs.Entries.{Entry as EntryValue};
ghost use Rattle.dc_spec.specs.Text.{line, word_text as text_of};
ghost use Rattle.dc_spec.specs.Words.{word_sum};
ghost use Rattle.dc_edge.specs.Sink.{Puts};
ghost use Rattle.dc_run_texts.specs.Logs.{pending_line};
ghost use Rattle.dc_run_texts.specs.Trial.{first_log, longs_in, shorts_in, trial_line, trial_text};
ghost use Rattle.dc_print.specs.Filling.{Fills};

use dc_edge::{Failed, Sink};
use dc_field::{Word, word_text};
use dc_net::Played;
use dc_print::fill_bytes;
use dc_station::{Log, Pending};
use itoa::Buffer;

/// More bytes than a summary has.
const ROOM: usize = 512;

/// The most digits of a number.
const DIGITS: usize = 40;

/// Puts the summary of a trial: its numbers, how many shorts and longs the log of the first honest
/// station counts, how many are pending at all stations, and the sum of the words of all rounds. The
/// form of the text is this project's own.
pub fn put_trial<K: Sink>(
    seed: u32,
    stations: u16,
    words: u16,
    run: &Played,
    out: &mut K,
) -> Result<(), Failed>
    ensures { Puts (trial_text seed stations words run.now)
        (K.state out.old) (K.state out.new) result }
{
    let mut buffer = [0u8; ROOM];
    let end = fill_trial(&mut buffer, seed, stations, words, run);
    out.put(&buffer[..end])
}

/// Fills in the summary of a trial.
fn fill_trial(buffer: &mut [u8], seed: u32, stations: u16, words: u16, run: &Played) -> usize
    requires { ROOM ≤ length buffer.old }
    ensures { Fills (trial_text seed stations words run.now) 0 buffer.old buffer.new result }
{
    let end = fill_numbers(buffer, seed, stations, words);
    let end = fill_count_line(buffer, end, b"short ", logged_shorts(run));
    let end = fill_count_line(buffer, end, b"long ", logged_longs(run));
    let end = fill_pending(buffer, end, run.pending.as_slice());
    fill_sum(buffer, end, &words_sum(run.sums.as_slice()))
}

/// Fills in the line of the numbers of a trial, at the beginning.
fn fill_numbers(buffer: &mut [u8], seed: u32, stations: u16, words: u16) -> usize
    requires { 129 ≤ length buffer.old }
    ensures text { Fills (trial_line seed stations words) 0 buffer.old buffer.new result }
    ensures most { result ≤ 129 }
{
    let end = fill_bytes(buffer, 0, b"trial ");
    let end = fill_count(buffer, end, u128::from(seed));
    let end = fill_bytes(buffer, end, b" ");
    let end = fill_count(buffer, end, u128::from(stations));
    let end = fill_bytes(buffer, end, b" ");
    let end = fill_count(buffer, end, u128::from(words));
    fill_bytes(buffer, end, b"\n")
}

/// Fills in the line of how many shorts and longs are pending, all stations together.
fn fill_pending(buffer: &mut [u8], at: usize, pending: &[Pending]) -> usize
    requires { at + 90 ≤ length buffer.old }
    ensures text { Fills
        (pending_line (sum_by (λ p. p.shorts) pending.now) (sum_by (λ p. p.longs) pending.now))
        at buffer.old buffer.new result }
    ensures most { result ≤ at + 90 }
{
    let end = fill_bytes(buffer, at, b"pending ");
    let end = fill_count(buffer, end, pending_shorts(pending));
    let end = fill_bytes(buffer, end, b" ");
    let end = fill_count(buffer, end, pending_longs(pending));
    fill_bytes(buffer, end, b"\n")
}

/// Fills in the line of a sum.
fn fill_sum(buffer: &mut [u8], at: usize, sum: &Word) -> usize
    requires { at + 85 ≤ length buffer.old }
    ensures { Fills (line (codes "sum " ++ text_of sum.now)) at buffer.old buffer.new result }
{
    let end = fill_bytes(buffer, at, b"sum ");
    let end = fill_bytes(buffer, end, &word_text(sum));
    fill_bytes(buffer, end, b"\n")
}

/// Fills in a beginning and a number.
fn fill_count_line(buffer: &mut [u8], at: usize, beginning: &[u8], n: u128) -> usize
    requires beginning { length beginning.now ≤ 7 }
    requires room { at + 48 ≤ length buffer.old }
    ensures text { Fills (line (beginning.now ++ decimal n)) at buffer.old buffer.new result }
    ensures most { result ≤ at + 48 }
{
    let end = fill_bytes(buffer, at, beginning);
    let end = fill_count(buffer, end, n);
    fill_bytes(buffer, end, b"\n")
}

/// Fills in a number, in decimal.
fn fill_count(buffer: &mut [u8], at: usize, n: u128) -> usize
    requires { at + DIGITS ≤ length buffer.old }
    ensures text { Fills (decimal n) at buffer.old buffer.new result }
    ensures most { result ≤ at + DIGITS }
{
    let mut digits = Buffer::new();
    fill_bytes(buffer, at, digits.format(n).as_bytes())
}

/// The sum of any number of words.
fn words_sum(words: &[Word]) -> Word
    ensures { result ≡ word_sum words.now }
{
    let mut total = Word::zero();
    for w in words {
        total = total.add(w);
    }
    total
}

/// How many shorts the first log counts.
fn logged_shorts(run: &Played) -> u128
    ensures { result ≡ sum_by shorts_in (first_log run.now) }
{
    match run.logs.as_slice().first() {
        Some(log) => shorts_of(log),
        None => 0,
    }
}

/// How many longs the first log counts.
fn logged_longs(run: &Played) -> u128
    ensures { result ≡ sum_by longs_in (first_log run.now) }
{
    match run.logs.as_slice().first() {
        Some(log) => longs_of(log),
        None => 0,
    }
}

/// How many shorts the entries of a log count.
fn shorts_of(log: &Log) -> u128
    ensures { result ≡ sum_by shorts_in log.now.entries }
{
    let mut total = 0;
    for k in 0..log.len() {
        total += u128::from(shorts_at(log, k));
    }
    total
}

/// How many longs the entries of a log count.
fn longs_of(log: &Log) -> u128
    ensures { result ≡ sum_by longs_in log.now.entries }
{
    let mut total = 0;
    for k in 0..log.len() {
        total += u128::from(longs_at(log, k));
    }
    total
}

/// How many shorts entry number `k` of a log counts.
fn shorts_at(log: &Log, k: usize) -> u16
    requires { k < length log.now.entries }
    ensures { (d : EntryValue) → result ≡ shorts_in (slice_index_or log.now.entries k d) }
{
    match log.times(k) {
        Some(times) => times,
        None => 0,
    }
}

/// How many longs entry number `k` of a log counts.
fn longs_at(log: &Log, k: usize) -> u16
    requires { k < length log.now.entries }
    ensures { (d : EntryValue) → result ≡ longs_in (slice_index_or log.now.entries k d) }
{
    match log.times(k) {
        Some(_) => 0,
        None => 1,
    }
}

/// How many shorts are pending, all stations together.
fn pending_shorts(pending: &[Pending]) -> u128
    ensures { result ≡ sum_by (λ p. p.shorts) pending.now }
{
    let mut total = 0;
    for counts in pending {
        total += u128::from(counts.shorts);
    }
    total
}

/// How many longs are pending, all stations together.
fn pending_longs(pending: &[Pending]) -> u128
    ensures { result ≡ sum_by (λ p. p.longs) pending.now }
{
    let mut total = 0;
    for counts in pending {
        total += u128::from(counts.longs);
    }
    total
}
