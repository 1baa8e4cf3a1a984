//! The pads that a coalition knows.

ghost use Rattle.std.specs.Prelude.{◌≡◌, ◌+◌, ◌*◌, ◌-◌, ◌≤◌, ◌<◌, ◌||◌, length, codes, filter, All};
ghost use Rattle.std.specs.List.{flat_map, range_with_len};
ghost use Rattle.dc_spec.specs.Lists.{is_among};
ghost use Rattle.dc_spec.specs.Words.{IsSymbol};
ghost use Rattle.dc_formats.specs.WordLines.{pair_word_line, items_of_round};
ghost use Rattle.dc_edge.specs.Sink.{Puts};
ghost use Rattle.dc_run_texts.specs.View.{pad_lines, pair_lines};
ghost use Rattle.dc_print.specs.Filling.{Fills};
ghost use Rattle.dc_view.specs.Pads.{HasPads, known_lines};

use dc_edge::{Failed, Sink};
use dc_field::{Sym, Word};
use dc_graph::Coalition;
use dc_keys::{KeyFile, PairKey};
use dc_print::{LINE_BYTES, fill_pair_line};

/// How many lines one piece has at most.
const LINES_AT_ONCE: u16 = 256;

/// Puts the pads of each pair that has an end in the coalition.
pub(crate) fn put_keys<K: Sink>(
    coalition: &Coalition,
    keys: &KeyFile,
    out: &mut K,
) -> Result<(), Failed>
    ensures { Puts (flat_map (known_lines coalition.now keys.now.words) keys.now.pairs)
        (K.state out.old) (K.state out.new) result }
{
    put_pairs(coalition, keys.words, keys.pairs.as_slice(), out)
}

/// Puts the pads of each of some pairs that has an end in the coalition.
fn put_pairs<K: Sink>(
    coalition: &Coalition,
    words: u16,
    pairs: &[PairKey],
    out: &mut K,
) -> Result<(), Failed>
    requires most { words ≤ 4096 }
    requires pads { All (HasPads words) pairs.now }
    ensures { Puts (flat_map (known_lines coalition.now words) pairs.now)
        (K.state out.old) (K.state out.new) result }
{
    for pair in pairs {
        put_known_pair(coalition, words, pair, out)?;
    }
    Ok(())
}

/// Puts the pads of a pair where an end of it is in the coalition.
fn put_known_pair<K: Sink>(
    coalition: &Coalition,
    words: u16,
    pair: &PairKey,
    out: &mut K,
) -> Result<(), Failed>
    requires most { words ≤ 4096 }
    requires pads { HasPads words pair.now }
    ensures { Puts (known_lines coalition.now words pair.now)
        (K.state out.old) (K.state out.new) result }
{
    if coalition.holds(pair.u) || coalition.holds(pair.v) {
        put_pair(words, pair, out)
    } else {
        Ok(())
    }
}

/// Puts all first pads of a pair, then all second pads.
fn put_pair<K: Sink>(words: u16, pair: &PairKey, out: &mut K) -> Result<(), Failed>
    requires most { words ≤ 4096 }
    requires pads { HasPads words pair.now }
    ensures { Puts (pair_lines words pair.now) (K.state out.old) (K.state out.new) result }
{
    let ends = (pair.u, pair.v);
    put_pads(b"first ", ends, words, pair.a.as_slice(), out)?;
    put_pads(b"second ", ends, words, pair.b.as_slice(), out)
}

/// Puts the pads of one kind of a pair, a line a round.
fn put_pads<K: Sink>(
    beginning: &[u8],
    ends: (u16, u16),
    words: u16,
    pads: &[u32],
    out: &mut K,
) -> Result<(), Failed>
    requires beginning { length beginning.now ≤ 7 }
    requires most { words ≤ 4096 }
    requires pads { 16 * words ≤ length pads.now }
    requires symbols { All IsSymbol pads.now }
    ensures { Puts (pad_lines beginning.now words ends.0 ends.1 pads.now)
        (K.state out.old) (K.state out.new) result }
{
    let mut r = 0;
    while r < words {
        let next = words.min(r + LINES_AT_ONCE);
        put_rounds_of_pads(beginning, ends, pads, r, next, out)?;
        r = next;
    }
    Ok(())
}

/// Puts the lines of the rounds from `from` to before `to` as one piece.
fn put_rounds_of_pads<K: Sink>(
    beginning: &[u8],
    ends: (u16, u16),
    pads: &[u32],
    from: u16,
    to: u16,
    out: &mut K,
) -> Result<(), Failed>
    requires beginning { length beginning.now ≤ 7 }
    requires rounds { from ≤ to }
    requires most { to ≤ from + LINES_AT_ONCE }
    requires pads { 16 * to ≤ length pads.now }
    requires symbols { All IsSymbol pads.now }
    ensures { Puts (flat_map (λ r. pair_word_line beginning.now ends.0 ends.1 r
        (items_of_round 16 r pads.now)) (range_with_len from (to - from)))
        (K.state out.old) (K.state out.new) result }
{
    let mut buffer = [0u8; LINES_AT_ONCE as usize * LINE_BYTES];
    let end = fill_pads(&mut buffer, beginning, ends, pads, from, to);
    out.put(&buffer[..end])
}

/// Fills in the lines of the rounds from `from` to before `to`.
fn fill_pads(
    buffer: &mut [u8],
    beginning: &[u8],
    ends: (u16, u16),
    pads: &[u32],
    from: u16,
    to: u16,
) -> usize
    requires beginning { length beginning.now ≤ 7 }
    requires rounds { from ≤ to }
    requires room { LINE_BYTES * (to - from) ≤ length buffer.old }
    requires pads { 16 * to ≤ length pads.now }
    requires symbols { All IsSymbol pads.now }
    ensures { Fills (flat_map (λ r. pair_word_line beginning.now ends.0 ends.1 r
        (items_of_round 16 r pads.now)) (range_with_len from (to - from)))
        0 buffer.old buffer.new result }
{
    let mut end = 0;
    for r in from..to {
        let w = pads_of_round(pads, r);
        end = fill_pair_line(buffer, end, beginning, ends, r, &w);
    }
    end
}

/// The sixteen pads of a round as a word.
fn pads_of_round(pads: &[u32], r: u16) -> Word
    requires pads { 16 * r + 16 ≤ length pads.now }
    requires symbols { All IsSymbol pads.now }
    ensures { result ≡ items_of_round 16 r pads.now }
{
    let first = 16 * usize::from(r);
    word_of(&pads[first..first + 16])
}

/// The word of sixteen symbols.
fn word_of(symbols: &[u32]) -> Word
    requires sixteen { length symbols.now ≡ 16 }
    requires symbols { All IsSymbol symbols.now }
    ensures { result ≡ symbols.now }
{
    let mut word = Word::zero();
    for l in 0..16 {
        word.set(l, Sym::new(symbols[l]).unwrap());
    }
    word
}
