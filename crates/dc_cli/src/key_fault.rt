//! The text of a key file's fault.

ghost use Rattle.dc_edge.specs.Sink.{Puts};
ghost use Rattle.dc_cli.specs.KeyFaultText.{key_fault_text, symbol_text};

use crate::pieces::{put_number, put_two_numbers};
use dc_edge::{Failed, Sink};
use dc_keyfile::KeyFault;

/// Puts the name of a fault and its fields.
pub fn put_key_fault<E: Sink>(fault: &KeyFault, err: &mut E) -> Result<(), Failed>
    ensures { Puts (key_fault_text fault.now) (E.state err.old) (E.state err.new) result }
{
    match *fault {
        KeyFault::Truncated { at, need } => {
            put_two_numbers(err, b"truncated at=", at, b" need=", need)
        }
        KeyFault::Magic => err.put(b"magic"),
        KeyFault::Version { seen } => put_number(err, b"version seen=", u64::from(seen)),
        KeyFault::Stations { seen } => put_number(err, b"stations seen=", u64::from(seen)),
        KeyFault::Words { seen } => put_number(err, b"words seen=", u64::from(seen)),
        KeyFault::TooLarge { symbols } => put_number(err, b"too-large symbols=", symbols),
        KeyFault::Pair { place } => put_number(err, b"pair place=", u64::from(place)),
        KeyFault::Order { place } => put_number(err, b"order place=", u64::from(place)),
        KeyFault::Symbol { pair, index, seen } => {
            put_symbol(u64::from(pair), u64::from(index), u64::from(seen), err)
        }
        KeyFault::FirstSecondPad { pair } => {
            put_number(err, b"first-second-pad pair=", u64::from(pair))
        }
        KeyFault::Rest { at } => put_number(err, b"rest at=", at),
    }
}

fn put_symbol<E: Sink>(pair: u64, index: u64, seen: u64, err: &mut E) -> Result<(), Failed>
    ensures { Puts (symbol_text pair index seen) (E.state err.old) (E.state err.new) result }
{
    put_two_numbers(err, b"symbol pair=", pair, b" index=", index)?;
    put_number(err, b" seen=", seen)
}
