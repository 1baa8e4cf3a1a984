//! What key files of both versions share: their head, and the ends of their pairs.

ghost use Rattle.std.specs.Prelude.{◌≡◌, ◌+◌, ◌^◌, ◌<◌, ◌≤◌, length, IfOk};
ghost use Rattle.dc_field.specs.Answers.{Answers};
ghost use Rattle.dc_keyfile.specs.Head.{IsHead, head_of, head_from_bytes, due_length, piece_at, ends_of, are_ends, is_before, is_rising, ends_fault};

use crate::fault::KeyFault;
use dc_field::{MOST_PADS, MOST_STATIONS, MOST_WORDS, Refusal};

/// The numbers of a head.
#[derive(Clone, Copy, Debug)]
pub(crate) struct Head {
    /// The number of stations.
    pub(crate) stations: u16,
    /// The number of words.
    pub(crate) words: u16,
    /// The number of pairs.
    pub(crate) count: u32,
}

/// Tests the first twelve bytes, for this version.
#[tactic(auto, unfolding(crate::specs::Head::head_from_bytes))]
pub(crate) fn read_head(b: &[u8], version: u8) -> Result<Head, Refusal<KeyFault>>
    ensures read { Answers result (head_from_bytes version b.now) }
    ensures limits { IfOk result IsHead }
{
    if b.len() < 12 {
        return Err(Refusal::Bad(KeyFault::Truncated {
            at: b.len() as u64,
            need: 12,
        }));
    }
    if !b.starts_with(b"DCK") {
        return Err(Refusal::Bad(KeyFault::Magic));
    }
    if b[3] != version {
        return Err(Refusal::Bad(KeyFault::Version { seen: b[3] }));
    }
    let stations = u16::from_be_bytes([b[4], b[5]]);
    let words = u16::from_be_bytes([b[6], b[7]]);
    let count = u32::from_be_bytes([b[8], b[9], b[10], b[11]]);
    checked_head(stations, words, count)
}

/// Tests the three numbers of the head.
#[tactic(auto, unfolding(crate::specs::Head::head_of))]
fn checked_head(stations: u16, words: u16, count: u32) -> Result<Head, Refusal<KeyFault>>
    ensures read { Answers result (head_of stations words count) }
    ensures limits { IfOk result IsHead }
{
    if stations == 0 || MOST_STATIONS < stations {
        return Err(Refusal::Bad(KeyFault::Stations { seen: stations }));
    }
    if words == 0 || MOST_WORDS < words {
        return Err(Refusal::Bad(KeyFault::Words { seen: words }));
    }
    let symbols = u64::from(count) * (32 * u64::from(words));
    if (MOST_PADS as u64) < symbols {
        return Err(Refusal::Bad(KeyFault::TooLarge { symbols }));
    }
    Ok(Head {
        stations,
        words,
        count,
    })
}

/// The fault of the ends of the pair at a place, where each pair has so many bytes.
#[tactic(auto, unfolding(crate::specs::Head::ends_fault))]
pub(crate) fn ends_fault(b: &[u8], stations: u16, size: usize, place: usize) -> Option<KeyFault>
    requires places { place < 2 ^ 32 }
    requires ends { 4 ≤ size }
    requires long_enough { due_length size (place + 1) ≤ length b.now }
    ensures { result ≡ ends_fault b.now stations size place }
{
    if !are_ends(stations, ends(pair_piece(b, size, place))) {
        return Some(KeyFault::Pair {
            place: place as u32,
        });
    }
    if !is_rising(b, size, place) {
        return Some(KeyFault::Order {
            place: place as u32,
        });
    }
    None
}

/// The bytes of the pair at a place.
pub(crate) fn pair_piece(b: &[u8], size: usize, place: usize) -> &[u8]
    requires long_enough { due_length size (place + 1) ≤ length b.now }
    ensures value { result.now ≡ piece_at b.now size place }
    ensures whole { length result.now ≡ size }
{
    let at = 12 + size * place;
    &b[at..at + size]
}

/// The two ends of a pair.
pub(crate) fn ends(piece: &[u8]) -> (u16, u16)
    requires { 4 ≤ length piece.now }
    ensures { result ≡ ends_of piece.now }
{
    let u = u16::from_be_bytes([piece[0], piece[1]]);
    let v = u16::from_be_bytes([piece[2], piece[3]]);
    (u, v)
}

/// Whether the ends are two stations, the smaller one first.
fn are_ends(stations: u16, ends: (u16, u16)) -> bool
    ensures { result ≡ are_ends stations ends }
{
    ends.0 < ends.1 && ends.1 < stations
}

/// Whether a pair is the first one or greater than the one before it.
fn is_rising(b: &[u8], size: usize, place: usize) -> bool
    requires ends { 4 ≤ size }
    requires long_enough { due_length size (place + 1) ≤ length b.now }
    ensures { result ≡ is_rising b.now size place }
{
    if place == 0 {
        return true;
    }
    let before = ends(pair_piece(b, size, place - 1));
    let here = ends(pair_piece(b, size, place));
    is_before(before, here)
}

/// Whether ends are less than others: by the smaller end, then by the greater.
fn is_before(before: (u16, u16), after: (u16, u16)) -> bool
    ensures { result ≡ is_before before after }
{
    before.0 < after.0 || (before.0 == after.0 && before.1 < after.1)
}
