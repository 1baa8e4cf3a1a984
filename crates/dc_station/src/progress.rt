//! How much of a stream was sent.

ghost use Rattle.std.specs.Prelude.{◌≡◌, ℕ, ◌<◌, ◌≤◌, false, List, [], IfOk, IfSome, IsTrue, ◌↔◌, Some, drop, length, slice_get};
ghost use Rattle.std.specs.List.{list_any};
ghost use Rattle.dc_spec.specs.Entries.{Stream as stream_record};
ghost use Rattle.dc_formats.specs.StreamFile.{IsStream};
ghost use Rattle.dc_station_rules.specs.Epochs.{epoch_of};
ghost use Rattle.dc_station_rules.specs.Stations.{burst_word, epoch_word, first_short, is_leaf_of, mark_word, marked};
ghost use Rattle.dc_average.specs.StandsFor.{StandsFor as EpochStandsFor, is_done};
ghost use Rattle.dc_station.specs.Sending.{Ends, IsWithin, SendsLong, SendsShort, if_any, is_first, is_mark, left, longs_of, one_if, shorts_of};

use crate::log::Log;
use crate::phase::Pending;
use crate::words::{long_word, mark_word, value_word};
use dc_average::{Epoch, Leaf, Leaves};
use dc_field::{NoMemory, Value, Word};
use dc_stream::Stream;
use std::alloc::Global;

/// How much of a stream was sent, and the entries that were. The stream itself is kept elsewhere.
/// Within a cycle the station goes by what was pending when the cycle began.
#[derive(Drop)]
pub(crate) struct Progress {
    /// How many values were sent before the cycle began.
    pub(crate) shorts_used: usize,
    /// How many messages were sent before the cycle began.
    pub(crate) longs_used: usize,
    /// How many coins were used up before the cycle began.
    pub(crate) coins_used: usize,
    /// Whether the cycle sent a value.
    pub(crate) short_sent: bool,
    /// Whether the cycle sent a message.
    pub(crate) long_sent: bool,
    /// The entries that were sent.
    pub(crate) log: Log,
}

impl Progress {
    /// Nothing was sent.
    pub(crate) fn start(alloc: Global, words: u16) -> Result<Progress, NoMemory>
        ensures within { IfOk result (λ p. (stream : stream_record) → IsWithin stream p) }
        ensures left { IfOk result (λ p. (stream : stream_record) → left stream p ≡ stream) }
        ensures room { IfOk result (λ p. p.log.room ≡ words) }
        ensures short { IfOk result (λ p. p.short_sent ≡ false) }
        ensures long { IfOk result (λ p. p.long_sent ≡ false) }
        ensures log { IfOk result (λ p. p.log.entries ≡ []) }
    {
        let log = Log::start(alloc, words)?;
        Ok(Progress {
            shorts_used: 0,
            longs_used: 0,
            coins_used: 0,
            short_sent: false,
            long_sent: false,
            log,
        })
    }

    /// The word at a reservation: it marks the next coin, if a message is pending and a coin is left.
    pub(crate) fn reservation_word(&self, stream: &Stream) -> Word
        ensures { result ≡ mark_word (marked (left stream.now self.now)) }
    {
        match self.mark(stream) {
            Some(field) => mark_word(field),
            None => Word::zero(),
        }
    }

    /// Word `index` of the burst of a field.
    pub(crate) fn burst_word(&self, stream: &Stream, field: u8, index: u16) -> Word
        ensures { result
            ≡ burst_word (marked (left stream.now self.now)) field (left stream.now self.now).longs index }
    {
        if self.marks(stream, field) {
            long_word(stream.longs.as_slice(), self.longs_used, index)
        } else {
            Word::zero()
        }
    }

    /// The next word of an epoch.
    pub(crate) fn epoch_word(&self, stream: &Stream, epoch: &Epoch) -> Word
        requires { is_done epoch.now ≡ false }
        ensures { (words : List (List ℕ)) → EpochStandsFor epoch.now words →
            result ≡ epoch_word (left stream.now self.now).shorts (epoch_of words) }
    {
        match self.first_short(stream) {
            Some(value) => value_word(epoch, &value),
            None => Word::zero(),
        }
    }

    /// Takes the message of the burst of a field: it may be the station's own.
    pub(crate) fn take_message(&mut self, stream: &Stream, field: u8, message: &[u8])
        requires { IsWithin stream.now self.old }
        ensures { SendsLong stream.now self.old (longs_of (left stream.now self.old) field message.now) self.new }
    {
        if self.marks(stream, field) && self.is_first_long(stream, message) {
            self.long_sent = true;
            self.log.put_long(message);
        }
    }

    /// Takes the leaves of a word of an epoch: the station's own value may be among them.
    pub(crate) fn take_leaves(&mut self, stream: &Stream, leaves: &Leaves)
        requires { IsWithin stream.now self.old }
        ensures { SendsShort stream.now self.old
            (shorts_of self.old.short_sent (left stream.now self.old) leaves.now) self.new }
    {
        if self.short_sent {
            return;
        }
        match self.first_short(stream) {
            Some(value) => self.take_leaves_of(stream, &value, leaves),
            None => {}
        }
    }

    /// Takes leaves, where this is the first pending value and not yet sent.
    fn take_leaves_of(&mut self, stream: &Stream, value: &Value, leaves: &Leaves)
        requires within { IsWithin stream.now self.old }
        requires first { slice_get stream.now.shorts self.old.shorts_used ≡ Some value.now }
        requires unsent { self.old.short_sent ≡ false }
        ensures { SendsShort stream.now self.old
            (if_any (list_any (is_leaf_of value.now) leaves.now) value.now) self.new }
    {
        if has_leaf_of(leaves, value) {
            self.short_sent = true;
            self.log.put_short(value, 1);
        }
    }

    /// Ends a cycle: what it sent is no longer pending, and the coin that it marked is used up.
    pub(crate) fn end_cycle(&mut self, stream: &Stream)
        requires { IsWithin stream.now self.old }
        ensures { Ends stream.now self.old self.new }
    {
        gives_limits(stream);
        let coins = one_if(self.mark(stream).is_some());
        let shorts = one_if(self.short_sent);
        let longs = one_if(self.long_sent);
        self.coins_used += coins;
        self.shorts_used += shorts;
        self.longs_used += longs;
        self.short_sent = false;
        self.long_sent = false;
    }

    /// How many values and messages are pending.
    pub(crate) fn pending(&self, stream: &Stream) -> Pending
        requires { IsWithin stream.now self.now }
        ensures shorts { result.shorts
            ≡ length (drop (one_if self.now.short_sent) (left stream.now self.now).shorts) }
        ensures longs { result.longs
            ≡ length (drop (one_if self.now.long_sent) (left stream.now self.now).longs) }
    {
        let shorts = stream.shorts.as_slice().len();
        let longs = stream.longs.as_slice().len();
        Pending {
            shorts: (shorts - self.shorts_used - one_if(self.short_sent)) as u32,
            longs: (longs - self.longs_used - one_if(self.long_sent)) as u32,
        }
    }

    /// The list of sent entries alone.
    pub(crate) fn into_log(self) -> Log
        ensures { result ≡ self.log }
    {
        self.log
    }

    /// The field that the station marks in this cycle.
    fn mark(&self, stream: &Stream) -> Option<u8>
        ensures mark { result ≡ marked (left stream.now self.now) }
        ensures field { IfSome result (λ field. field < 16) }
    {
        if self.has_long(stream) {
            self.next_coin(stream)
        } else {
            None
        }
    }

    /// Whether a message is pending.
    fn has_long(&self, stream: &Stream) -> bool
        ensures { IsTrue result ↔ (self.now.longs_used < length stream.now.longs) }
    {
        self.longs_used < stream.longs.as_slice().len()
    }

    /// The next coin.
    fn next_coin(&self, stream: &Stream) -> Option<u8>
        ensures coin { result ≡ slice_get stream.now.coins self.now.coins_used }
        ensures field { IfSome result (λ field. field < 16) }
    {
        stream.coins.as_slice().get(self.coins_used).copied()
    }

    /// Whether the station marks a field in this cycle.
    fn marks(&self, stream: &Stream, field: u8) -> bool
        ensures { result ≡ is_mark field (marked (left stream.now self.now)) }
    {
        match self.mark(stream) {
            Some(mark) => mark == field,
            None => false,
        }
    }

    /// Whether a message is the first pending one.
    fn is_first_long(&self, stream: &Stream, message: &[u8]) -> bool
        ensures { result ≡ is_first message.now (left stream.now self.now).longs }
    {
        match stream.longs.as_slice().get(self.longs_used) {
            Some(long) => message == long.as_slice(),
            None => false,
        }
    }

    /// The first pending value.
    fn first_short(&self, stream: &Stream) -> Option<Value>
        ensures { result ≡ slice_get stream.now.shorts self.now.shorts_used }
    {
        stream.shorts.as_slice().get(self.shorts_used).copied()
    }
}

/// Does nothing: its clause gives the prover the limits of a stream, so that no count of it overflows.
fn gives_limits(stream: &Stream)
    ensures { IsStream stream.now }
{
    let _ = &stream.shorts;
}

/// One where a flag is set, else none.
fn one_if(so: bool) -> usize
    ensures { result ≡ one_if so }
{
    if so { 1 } else { 0 }
}

/// Whether a leaf of a value is among leaves: the leaf is the value, and its range has the value's number in it.
fn has_leaf_of(leaves: &Leaves, value: &Value) -> bool
    ensures { result ≡ list_any (is_leaf_of value.now) leaves.now }
{
    for i in 0..leaves.len() {
        if is_leaf_of(&leaves.get(i), value) {
            return true;
        }
    }
    false
}

/// Whether a leaf is a value, and its range has the value's number in it.
fn is_leaf_of(leaf: &Leaf, value: &Value) -> bool
    ensures { result ≡ is_leaf_of value.now leaf.now }
{
    leaf.value.bytes.as_slice() == value.bytes.as_slice()
        && leaf.low <= value.number()
        && value.number() <= leaf.high
}
