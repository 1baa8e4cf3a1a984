//! The text of a stream.

ghost use Rattle.std.specs.Prelude.{◌≡◌, ◌++◌, ◌<◌, IfOk, All};
ghost use Rattle.std.specs.List.{flat_map};
ghost use Rattle.dc_spec.specs.Text.{line};
ghost use Rattle.dc_formats.specs.TextFile.{AreBytes, hex_text};
ghost use Rattle.dc_formats.specs.StreamFile.{coin_line, long_line, short_line, stream_text};

use crate::stream::Stream;
use dc_field::{Bytes, NoMemory, Value};
use itoa::Buffer;
use std::alloc::Global;

/// All shorts, then all longs, then all coins, one a line.
pub fn stream_text(alloc: Global, s: &Stream) -> Result<Bytes, NoMemory>
    ensures { IfOk result (λ text. text ≡ stream_text s.now) }
{
    let mut text = Vec::new(alloc);
    put_shorts(alloc, &mut text, s.shorts.as_slice())?;
    put_longs(alloc, &mut text, s.longs.as_slice())?;
    put_coins(&mut text, s.coins.as_slice())?;
    Ok(Bytes::from_vec(text))
}

fn put_shorts(alloc: Global, text: &mut Vec<u8>, shorts: &[Value]) -> Result<(), NoMemory>
    ensures { IfOk result (λ _. text.new.items ≡ text.old.items ++ flat_map short_line shorts.now) }
{
    for value in shorts {
        put_payload(alloc, text, b"short ".as_slice(), value.bytes.as_slice())?;
    }
    Ok(())
}

fn put_longs(alloc: Global, text: &mut Vec<u8>, longs: &[Bytes]) -> Result<(), NoMemory>
    ensures { IfOk result (λ _. text.new.items ≡ text.old.items ++ flat_map long_line longs.now) }
{
    for message in longs {
        put_payload(alloc, text, b"long ".as_slice(), message.as_slice())?;
    }
    Ok(())
}

fn put_coins(text: &mut Vec<u8>, coins: &[u8]) -> Result<(), NoMemory>
    ensures { IfOk result (λ _. text.new.items ≡ text.old.items ++ flat_map coin_line coins.now) }
{
    for coin in coins {
        put_coin(text, *coin)?;
    }
    Ok(())
}

/// Puts a line of payload.
fn put_payload(
    alloc: Global,
    text: &mut Vec<u8>,
    beginning: &[u8],
    payload: &[u8],
) -> Result<(), NoMemory>
    ensures { IfOk result (λ _. text.new.items ≡ text.old.items ++ line (beginning.now ++
        hex_text payload.now)) }
{
    let digits = hex::encode(alloc, payload)?;
    put_line(text, beginning, digits.as_bytes())
}

/// Puts a line of a field.
fn put_coin(text: &mut Vec<u8>, coin: u8) -> Result<(), NoMemory>
    ensures { IfOk result (λ _. text.new.items ≡ text.old.items ++ coin_line coin) }
{
    let mut buffer = Buffer::new();
    put_line(text, b"coin ".as_slice(), buffer.format(coin).as_bytes())
}

/// Puts a line that begins so and goes on so.
fn put_line(text: &mut Vec<u8>, beginning: &[u8], rest: &[u8]) -> Result<(), NoMemory>
    ensures { IfOk result (λ _. text.new.items ≡ text.old.items ++ line (beginning.now ++
        rest.now)) }
{
    text.extend_from_slice(beginning)?;
    text.extend_from_slice(rest)?;
    text.push(b'\n')?;
    Ok(())
}
