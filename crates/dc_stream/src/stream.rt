//! What a station sends.

ghost use Rattle.std.specs.Prelude.{◌≡◌, ◌<◌, ◌≤◌, [], ◌∷◌, ◌++◌, IfOk, length};
ghost use Rattle.dc_spec.specs.Limits.{most_coins, most_longs, most_message, most_shorts};
ghost use Rattle.dc_spec.specs.Values.{IsValue};
ghost use Rattle.dc_formats.specs.StreamFile.{IsStream};
ghost use Rattle.dc_formats.specs.TextFile.{AreBytes};

use dc_field::{Bytes, Items, NoMemory, Value};
use std::alloc::Global;
use std::marker::Model;

/// Values of fifteen bytes.
pub type Shorts = Items<Value>;

/// Messages, each of any number of bytes.
pub type Longs = Items<Bytes>;

/// The stream of a station.
#[derive(Debug, Drop)]
pub struct Stream {
    /// At most 4096.
    pub shorts: Shorts,
    /// At most 256, each of at most 3838 bytes.
    pub longs: Longs,
    /// The fields that it marks to reserve, 0 to 15; at most 4096.
    pub coins: Bytes,
}

impl Model for Stream {
    ghost use Rattle.dc_spec.specs.Entries.{Stream as stream_record};
    ghost use Rattle.dc_formats.specs.StreamFile.{IsStream};

    ghost Value = { stream_record };

    ghost view = { λ s. record { shorts = s.shorts; longs = s.longs; coins = s.coins } };

    ghost invariant = { λ s. IsStream (record { shorts = s.shorts; longs = s.longs; coins = s.coins }) };
}

impl Stream {
    /// A stream with no entry.
    pub fn empty(alloc: Global) -> Stream
        ensures { result ≡ record { shorts = []; longs = []; coins = [] } }
    {
        Stream {
            shorts: Shorts::from_vec(Vec::new(alloc)),
            longs: Longs::from_vec(Vec::new(alloc)),
            coins: Bytes::from_vec(Vec::new(alloc)),
        }
    }

    /// The stream with one more short. Out of memory, the stream is dropped.
    pub fn with_short(self, value: Value) -> Result<Stream, NoMemory>
        requires { length self.shorts < most_shorts }
        ensures { IfOk result (λ s. s ≡ record self { shorts = self.shorts ++ value ∷ [] }) }
    {
        note_value(&value);
        let Stream {
            shorts,
            longs,
            coins,
        } = self;
        let mut items = shorts.into_vec();
        items.push(value)?;
        Ok(Stream {
            shorts: Shorts::from_vec(items),
            longs,
            coins,
        })
    }

    /// The stream with one more long, of at most 3838 bytes. Out of memory, the stream is dropped.
    pub fn with_long(self, message: Bytes) -> Result<Stream, NoMemory>
        requires room { length self.longs < most_longs }
        requires message { length message ≤ most_message }
        ensures { IfOk result (λ s. s ≡ record self { longs = self.longs ++ message ∷ [] }) }
    {
        note_bytes(message.as_slice());
        let Stream {
            shorts,
            longs,
            coins,
        } = self;
        let mut items = longs.into_vec();
        items.push(message)?;
        Ok(Stream {
            shorts,
            longs: Longs::from_vec(items),
            coins,
        })
    }

    /// The stream with one more coin, from 0 to 15. Out of memory, the stream is dropped.
    pub fn with_coin(self, field: u8) -> Result<Stream, NoMemory>
        requires room { length self.coins < most_coins }
        requires field { field < 16 }
        ensures { IfOk result (λ s. s ≡ record self { coins = self.coins ++ field ∷ [] }) }
    {
        let Stream {
            shorts,
            longs,
            coins,
        } = self;
        let mut items = coins.into_vec();
        items.push(field)?;
        Ok(Stream {
            shorts,
            longs,
            coins: Bytes::from_vec(items),
        })
    }

    /// A copy of the stream.
    pub fn copy(&self, alloc: Global) -> Result<Stream, NoMemory>
        ensures { IfOk result (λ s. s ≡ self.now) }
    {
        let shorts = self.shorts.copy(alloc)?;
        let longs = self.longs.copy_each(alloc)?;
        let coins = self.coins.copy(alloc)?;
        Ok(Stream {
            shorts,
            longs,
            coins,
        })
    }
}

/// Gives the prover a fact and does nothing: the items of a slice of bytes are bytes.
fn note_bytes(bytes: &[u8])
    ensures { AreBytes bytes.now }
{
    let _ = bytes;
}

/// Gives the prover a fact and does nothing: a value has fifteen bytes.
fn note_value(value: &Value)
    ensures { IsValue value.now }
{
    let _ = value.number();
}
