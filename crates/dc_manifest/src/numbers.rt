//! The numbers of the fields, each in its range.

ghost use Rattle.std.specs.Prelude.{◌≡◌, Ok, Err};
ghost use Rattle.dc_field.specs.Answers.{Answers};
ghost use Rattle.dc_manifest.specs.declared.fault.ManifestFault.TheVariants.{Range};
ghost use Rattle.dc_manifest.specs.Reading.{within, short, short_pair, each, with_streams, numbers_of};

use crate::fault::ManifestFault;
use crate::values::Values;
use dc_field::{Items, Refusal, Text};
use std::alloc::Global;
use std::marker::Model;

/// A key graph and its coalition as they are given, and the number of words.
#[derive(Drop)]
pub(crate) struct Numbers {
    pub(crate) coalition: Items<u16>,
    pub(crate) edges: Items<(u16, u16)>,
    pub(crate) stations: u16,
    pub(crate) words: u16,
}

impl Model for Numbers {
    ghost use Rattle.dc_manifest.specs.Reading.{GivenNumbers};

    ghost Value = { GivenNumbers };

    ghost view = { λ n. record { coalition = n.coalition; edges = n.edges; stations = n.stations; words = n.words } };
}

/// The numbers of all fields.
#[tactic(auto, unfolding(crate::specs::Reading::numbers_of))]
pub(crate) fn read_numbers(
    alloc: Global,
    values: &Values,
) -> Result<Numbers, Refusal<ManifestFault>>
    ensures { Answers result (numbers_of values.now) }
{
    let coalition = read_shorts(alloc, "coalition", values.coalition.as_slice())?;
    let edges = read_pairs(alloc, "edges", values.edges.as_slice())?;
    let stations = read_short(alloc, "stations", values.stations)?;
    let stations = with_streams(alloc, stations, values.streams.as_slice().len())?;
    let words = read_within(alloc, "words", 1, 4096, values.words)?;
    Ok(Numbers {
        coalition,
        edges,
        stations,
        words,
    })
}

/// The numbers of a field, each below 65536.
fn read_shorts(
    alloc: Global,
    name: &str,
    from: &[i64],
) -> Result<Items<u16>, Refusal<ManifestFault>>
    ensures { Answers result (each (short name.now) from.now) }
{
    let mut numbers = Vec::with_capacity(alloc, from.len())?;
    for number in from {
        numbers.push(read_short(alloc, name, *number)?)?;
    }
    Ok(Items::from_vec(numbers))
}

/// The pairs of a field, each of two numbers below 65536.
fn read_pairs(
    alloc: Global,
    name: &str,
    from: &[(i64, i64)],
) -> Result<Items<(u16, u16)>, Refusal<ManifestFault>>
    ensures { Answers result (each (short_pair name.now) from.now) }
{
    let mut numbers = Vec::with_capacity(alloc, from.len())?;
    for pair in from {
        numbers.push(read_pair(alloc, name, *pair)?)?;
    }
    Ok(Items::from_vec(numbers))
}

/// Two numbers below 65536.
fn read_pair(
    alloc: Global,
    name: &str,
    pair: (i64, i64),
) -> Result<(u16, u16), Refusal<ManifestFault>>
    ensures { Answers result (short_pair name.now pair) }
{
    let u = read_short(alloc, name, pair.0)?;
    let v = read_short(alloc, name, pair.1)?;
    Ok((u, v))
}

/// The number of stations, where there are as many streams.
fn with_streams(alloc: Global, stations: u16, streams: usize) -> Result<u16, Refusal<ManifestFault>>
    ensures { Answers result (with_streams stations streams) }
{
    if streams == usize::from(stations) {
        return Ok(stations);
    }
    out_of_range(alloc, "streams", i64::try_from(streams).unwrap_or(i64::MAX))
}

/// A number below 65536.
fn read_short(alloc: Global, name: &str, number: i64) -> Result<u16, Refusal<ManifestFault>>
    ensures { Answers result (short name.now number) }
{
    read_within(alloc, name, 0, u16::MAX, number)
}

/// A number of `low` to `high`.
fn read_within(
    alloc: Global,
    name: &str,
    low: u16,
    high: u16,
    number: i64,
) -> Result<u16, Refusal<ManifestFault>>
    ensures { Answers result (within name.now low high number) }
{
    match u16::try_from(number) {
        Ok(n) if low <= n && n <= high => Ok(n),
        _ => out_of_range(alloc, name, number),
    }
}

/// The fault of a number that is out of range.
fn out_of_range(alloc: Global, name: &str, seen: i64) -> Result<u16, Refusal<ManifestFault>>
    ensures { Answers result (Err (Range name.now seen)) }
{
    let name = Text::copy_of(alloc, name)?;
    Err(Refusal::Bad(ManifestFault::Range { name, seen }))
}
