//! The words that a station sends.

ghost use Rattle.std.specs.Prelude.{◌≡◌, ℕ, ◌<◌, ◌≤◌, false, List, All, Some, drop, length};
ghost use Rattle.dc_formats.specs.StreamFile.{IsMessage};
ghost use Rattle.dc_station_rules.specs.Epochs.{epoch_of};
ghost use Rattle.dc_station_rules.specs.Stations.{epoch_word, long_word, mark_word};
ghost use Rattle.dc_average.specs.StandsFor.{StandsFor as EpochStandsFor, is_done};
ghost use Rattle.dc_station.specs.Sending.{fragment_word, value_word};

use dc_average::Epoch;
use dc_field::{Bytes, Sym, Value, Word};
use dc_reserve::{fragment, fragment_count};

/// The word that marks a field.
pub(crate) fn mark_word(field: u8) -> Word
    requires { field < 16 }
    ensures { result ≡ mark_word (Some field) }
{
    let mut word = Word::zero();
    word.set(field as usize, one());
    word
}

/// The symbol 1.
fn one() -> Sym
    ensures { result ≡ 1 }
{
    Sym::new(1).unwrap()
}

/// Fragment `i` of the first of some messages that is not used up, and zeros after its last fragment.
pub(crate) fn long_word(longs: &[Bytes], used: usize, i: u16) -> Word
    requires { All IsMessage longs.now }
    ensures { result ≡ long_word (drop used longs.now) i }
{
    match longs.get(used) {
        Some(message) => fragment_word(message.as_slice(), i),
        None => Word::zero(),
    }
}

/// Fragment `i` of a message, and zeros after its last fragment.
fn fragment_word(message: &[u8], i: u16) -> Word
    requires { length message.now ≤ 3838 }
    ensures { result ≡ fragment_word message.now i }
{
    if i < fragment_count(message.len() as u16) {
        fragment(message, i)
    } else {
        Word::zero()
    }
}

/// A value in its epoch's next word: it alone where it is called for.
pub(crate) fn value_word(epoch: &Epoch, value: &Value) -> Word
    requires { is_done epoch.now ≡ false }
    ensures { (words : List (List ℕ)) → EpochStandsFor epoch.now words →
        result ≡ value_word value.now (epoch_of words) }
{
    if epoch.calls(value) {
        value.to_word(1)
    } else {
        Word::zero()
    }
}
