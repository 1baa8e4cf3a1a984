//! The rounds of a run.

ghost use Rattle.std.specs.Prelude.{◌≡◌, ◌+◌, ◌++◌, ◌*◌, ◌≤◌, ◌<◌, length, codes, decimal, zip};
ghost use Rattle.std.specs.List.{flat_map, enumerate_from};
ghost use Rattle.dc_spec.specs.Text.{line, word_text};
ghost use Rattle.dc_edge.specs.Sink.{Puts};
ghost use Rattle.dc_formats.specs.WordLines.{station_word_line, items_of_round};
ghost use Rattle.dc_net_rules.specs.Runs.{honest_stations};
ghost use Rattle.dc_run_texts.specs.View.{delivery_line, round_text};
ghost use Rattle.dc_print.specs.Filling.{Fills};

use crate::honest::{STATIONS, honest_of};
use crate::pieces::{fill_published, fill_received};
use dc_edge::{Failed, Sink};
use dc_field::Word;
use dc_net::{Net, Played};
use dc_print::{LINE_BYTES, fill_bytes, fill_number_line, fill_word_line};
use dc_script::{Delivery, Round, Script};

/// Puts all rounds of a run, two pieces a round.
pub(crate) fn put_script<K: Sink>(
    net: &Net,
    run: &Played,
    script: &Script,
    out: &mut K,
) -> Result<(), Failed>
    requires { length script.now.rounds ≤ length run.now.sums }
    ensures { Puts (flat_map (λ t. round_text net.now run.now t.0 t.1.delivery)
        (enumerate_from 0 script.now.rounds)) (K.state out.old) (K.state out.new) result }
{
    put_rounds(net, run, script.rounds.as_slice(), out)
}

/// Puts the first rounds of a run.
fn put_rounds<K: Sink>(net: &Net, run: &Played, rounds: &[Round], out: &mut K) -> Result<(), Failed>
    requires most { length rounds.now ≤ 65535 }
    requires sums { length rounds.now ≤ length run.now.sums }
    ensures { Puts (flat_map (λ t. round_text net.now run.now t.0 t.1.delivery)
        (enumerate_from 0 rounds.now)) (K.state out.old) (K.state out.new) result }
{
    let honest = honest_of(&net.coalition, net.graph.stations());
    for (r, round) in rounds.iter().enumerate() {
        put_round(net, run, honest.as_slice(), r as u16, round, out)?;
    }
    Ok(())
}

/// Puts a round: its published words, their sum, the kind of delivery, the received words.
fn put_round<K: Sink>(
    net: &Net,
    run: &Played,
    honest: &[u16],
    r: u16,
    round: &Round,
    out: &mut K,
) -> Result<(), Failed>
    requires honest { honest.now ≡ honest_stations net.now }
    requires most { length honest.now ≤ 256 }
    requires sum { r < length run.now.sums }
    ensures { Puts (round_text net.now run.now r round.now.delivery)
        (K.state out.old) (K.state out.new) result }
{
    let stations = usize::from(net.graph.stations());
    let sum = &run.sums.as_slice()[usize::from(r)];
    put_published(r, words_of_round(run.words.as_slice(), stations, r), out)?;
    let heard = words_of_round(run.delivered.as_slice(), honest.len(), r);
    put_received(sum, round, honest, heard, out)
}

/// The words of a round, of so many words a round.
fn words_of_round(words: &[Word], count: usize, r: u16) -> &[Word]
    requires { count ≤ 256 }
    ensures value { result.now ≡ items_of_round count r words.now }
    ensures most { length result.now ≤ count }
{
    let from = words.len().min(count * usize::from(r));
    let to = words.len().min(from + count);
    &words[from..to]
}

/// Puts the number of a round and its published words, as one piece.
fn put_published<K: Sink>(r: u16, words: &[Word], out: &mut K) -> Result<(), Failed>
    requires { length words.now ≤ 256 }
    ensures { Puts (line (codes "round " ++ decimal r)
        ++ flat_map (λ w. station_word_line (codes "word ") w.0 w.1) (enumerate_from 0 words.now))
        (K.state out.old) (K.state out.new) result }
{
    let mut buffer = [0u8; (1 + STATIONS) * LINE_BYTES];
    let end = fill_number_line(&mut buffer, 0, b"round ", r);
    let end = fill_published(&mut buffer, end, words);
    out.put(&buffer[..end])
}

/// Puts the sum of a round, the kind of delivery and the received words, as one piece.
fn put_received<K: Sink>(
    sum: &Word,
    round: &Round,
    honest: &[u16],
    words: &[Word],
    out: &mut K,
) -> Result<(), Failed>
    requires { length words.now ≤ 256 }
    ensures { Puts (line (codes "sum " ++ word_text sum.now) ++ delivery_line round.now.delivery
        ++ flat_map (λ g. station_word_line (codes "got ") g.0 g.1) (zip honest.now words.now))
        (K.state out.old) (K.state out.new) result }
{
    let mut buffer = [0u8; (2 + STATIONS) * LINE_BYTES];
    let end = fill_sum(&mut buffer, sum);
    let end = fill_delivery(&mut buffer, end, round);
    let end = fill_received(&mut buffer, end, honest, words);
    out.put(&buffer[..end])
}

/// Fills in the sum of a round.
fn fill_sum(buffer: &mut [u8], sum: &Word) -> usize
    requires { LINE_BYTES ≤ length buffer.old }
    ensures text { Fills (line (codes "sum " ++ word_text sum.now)) 0 buffer.old buffer.new result }
    ensures most { result ≤ LINE_BYTES }
{
    let end = fill_bytes(buffer, 0, b"sum ");
    fill_word_line(buffer, end, sum)
}

/// Fills in the kind of delivery.
fn fill_delivery(buffer: &mut [u8], at: usize, round: &Round) -> usize
    requires { at + LINE_BYTES ≤ length buffer.old }
    ensures text { Fills (delivery_line round.now.delivery) at buffer.old buffer.new result }
    ensures most { result ≤ at + LINE_BYTES }
{
    match &round.delivery {
        Delivery::Sum => fill_bytes(buffer, at, b"all\n"),
        Delivery::Each { .. } => fill_bytes(buffer, at, b"each\n"),
    }
}
