//! How received words are judged as a burst, one after the other.

ghost use Rattle.std.specs.Prelude.{◌≡◌, ℕ, true, ◌+◌, ◌-◌, ◌*◌, ◌<◌, ◌≤◌, ◌==◌, [], ◌∷◌, ◌++◌, IfSome, length, not, slice_index, nat_lt, vec_capacity, option_map};
ghost use Rattle.std.specs.List.{find, range_with_len};
ghost use Rattle.dc_spec.specs.Bytes.{short_at};
ghost use Rattle.dc_spec.specs.Values.{word_count, word_limbs};
ghost use Rattle.dc_reserve.specs.Phases.{FitsPhase, IsGoing, Leads, count_allowed, own_fault, burst_fault_of, first_length_fault};

use crate::fragments::fragment_count;
use dc_field::Word;

/// What a word does to a burst.
#[derive(Clone, Copy, Debug, PartialEq, Eq)]
pub enum BurstStep {
    /// More words are needed.
    Goes,
    /// The burst is whole; its message has this many bytes.
    Message { length: u16 },
    /// The word breaks a check.
    Void { why: BadBurst },
}

/// The first check that a word of a burst breaks.
#[derive(Clone, Copy, Debug, PartialEq, Eq)]
pub enum BadBurst {
    /// The count `seen` is not 1 to 256, or not one less than in the word before.
    Count { seen: u32 },
    /// Limb `l`, from 1, is above 255.
    Limb { l: u8, seen: u32 },
    /// A message of `told` bytes, as its length bytes say, needs another number of words than `words`.
    Length { told: u16, words: u16 },
    /// The first byte past the message that is not 0; `at` is its index, from 0, in all bytes of the burst.
    Padding { at: u16 },
}

/// The phase of a burst between two words.
#[derive(Clone, Copy, Debug)]
pub(crate) enum Phase {
    /// Before its first word.
    First,
    /// So many more words are needed.
    Later { left: u16 },
    /// It gave a message of so many bytes.
    Whole { length: u16 },
    /// A word broke a check.
    Broken,
}

/// Judges a word and puts its fifteen bytes after those of the words before.
pub(crate) fn judge(phase: Phase, bytes: &mut Vec<u8>, w: &Word) -> BurstStep
    requires going { IsGoing phase }
    requires fits { FitsPhase phase bytes.old.items }
    requires room { vec_capacity bytes.old ≡ 3840 }
    ensures step { Leads phase bytes.old.items w.now result bytes.new.items }
    ensures room { vec_capacity bytes.new ≡ 3840 }
{
    if let Some(why) = fault(phase, w) {
        return BurstStep::Void { why };
    }
    push_limbs(bytes, w);
    if w.numbers()[0] != 1 {
        return BurstStep::Goes;
    }
    let length = announced_length(bytes);
    match first_stray(bytes, usize::from(length) + 2) {
        Some(at) => BurstStep::Void {
            why: BadBurst::Padding { at: at as u16 },
        },
        None => BurstStep::Message { length },
    }
}

/// The first check that a word breaks by itself.
fn fault(phase: Phase, w: &Word) -> Option<BadBurst>
    ensures { option_map burst_fault_of result ≡ own_fault phase w.now }
{
    let count = w.numbers()[0];
    if !is_allowed(phase, count) {
        return Some(BadBurst::Count { seen: count });
    }
    match first_high(w.numbers()) {
        Some(l) => Some(BadBurst::Limb {
            l: l as u8,
            seen: w.numbers()[l],
        }),
        None => length_fault(phase, w.numbers()),
    }
}

/// Whether a word may have this count.
fn is_allowed(phase: Phase, count: u32) -> bool
    ensures { result ≡ count_allowed phase count }
{
    match phase {
        Phase::First => 1 <= count && count <= 256,
        Phase::Later { left } => count == u32::from(left),
        Phase::Whole { .. } | Phase::Broken => false,
    }
}

/// The first limb above 255.
fn first_high(numbers: &[u32; 16]) -> Option<usize>
    ensures limb { result
        ≡ find (λ l. nat_lt 255 (slice_index numbers.now l)) (range_with_len 1 15) }
    ensures below { IfSome result (λ l. l < 16) }
{
    (1..16).find(|l| 255 < numbers[*l])
}

/// Whether a first word's length needs another number of words than its count says.
fn length_fault(phase: Phase, numbers: &[u32; 16]) -> Option<BadBurst>
    requires count { count_allowed phase (slice_index numbers.now 0) ≡ true }
    requires high { slice_index numbers.now 1 ≤ 255 }
    requires low { slice_index numbers.now 2 ≤ 255 }
    ensures { option_map burst_fault_of result ≡ first_length_fault phase numbers.now }
{
    match phase {
        Phase::First => {
            let told = (numbers[1] * 256 + numbers[2]) as u16;
            let words = numbers[0] as u16;
            if fragment_count(told) == words {
                None
            } else {
                Some(BadBurst::Length { told, words })
            }
        }
        _ => None,
    }
}

/// Puts the limbs of a word after the bytes, in the room that is reserved.
fn push_limbs(bytes: &mut Vec<u8>, w: &Word)
    requires limbs { (l : ℕ) → l < 15 → slice_index w.now (l + 1) ≤ 255 }
    requires fits { length bytes.old.items + 15 ≤ 3840 }
    requires room { vec_capacity bytes.old ≡ 3840 }
    ensures bytes { bytes.new.items ≡ bytes.old.items ++ word_limbs w.now }
    ensures room { vec_capacity bytes.new ≡ 3840 }
{
    for l in 0..15 {
        push_byte(bytes, w.numbers()[l + 1] as u8);
    }
}

/// Puts a byte after the others, in the room that is reserved.
fn push_byte(bytes: &mut Vec<u8>, byte: u8)
    requires fits { length bytes.old.items < 3840 }
    requires room { vec_capacity bytes.old ≡ 3840 }
    ensures bytes { bytes.new.items ≡ bytes.old.items ++ byte ∷ [] }
    ensures room { vec_capacity bytes.new ≡ 3840 }
{
    bytes.push_reserved(byte);
}

/// The length that the first two bytes give.
fn announced_length(bytes: &[u8]) -> u16
    requires { 2 ≤ length bytes.now }
    ensures { result ≡ short_at bytes.now 0 }
{
    u16::from_be_bytes([bytes[0], bytes[1]])
}

/// The first byte from a place on that is not 0.
fn first_stray(bytes: &[u8], start: usize) -> Option<usize>
    requires { start ≤ length bytes.now }
    ensures place { result ≡ find (λ at. not (slice_index bytes.now at == 0)) (range_with_len start (length bytes.now - start)) }
    ensures within { IfSome result (λ at. at < length bytes.now) }
{
    (start..bytes.len()).find(|at| bytes[*at] != 0)
}
