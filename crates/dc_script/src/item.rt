//! The lines of a script after the first.

ghost use Rattle.std.specs.Prelude.{◌≡◌, ◌==◌, ◌+◌, Some, None, option_map, position, take, drop};
ghost use Rattle.dc_script.specs.Items.{item_in, entry_in, term_in, cut, cut_at, number_up_to, factor_in, not_zero, factor_after, station_in, round_in};

use crate::entry::Entry;
use crate::term::Term;
use dc_field::{Sym, read_decimal, read_symbol_text, read_word_text};

/// What a line after the first says.
#[derive(Clone, Copy, Debug)]
pub enum Item {
    /// `round R`: a round begins.
    RoundLine(u32),
    /// `say I WORD`: a member says a word.
    SayLine(Entry),
    /// `all`: everybody receives the sum.
    AllLine,
    /// `to I WORD`: a word is dealt to a station.
    ToLine(Entry),
    /// `add L SYM J Q M`: a term is added to the word before.
    AddLine(Term),
}

/// The item of a line; None where the line is none of the forms of this version.
pub(crate) fn read_item(version: u8, text: &[u8]) -> Option<Item>
    ensures { result ≡ item_in version text.now }
{
    if text.starts_with(b"say ") {
        read_entry(&text[4..]).map(Item::SayLine)
    } else if text.starts_with(b"to ") {
        read_entry(&text[3..]).map(Item::ToLine)
    } else if text.starts_with(b"round ") {
        read_decimal(&text[6..]).map(Item::RoundLine)
    } else if text.starts_with(b"add ") {
        if version == 2 {
            read_term(&text[4..]).map(Item::AddLine)
        } else {
            None
        }
    } else if text == b"all".as_slice() {
        Some(Item::AllLine)
    } else {
        None
    }
}

/// A station's number, a blank, and a word in eighty digits.
fn read_entry(rest: &[u8]) -> Option<Entry>
    ensures { result ≡ entry_in rest.now }
{
    if rest.len() < 81 {
        return None;
    }
    let blank = rest.len() - 81;
    if rest[blank] != b' ' {
        return None;
    }
    let number = match read_decimal(&rest[..blank]) {
        Some(number) => number,
        None => return None,
    };
    if 65535 < number {
        return None;
    }
    match read_word_text(&rest[blank + 1..]) {
        Ok(word) => Some(Entry {
            station: number as u16,
            word,
        }),
        Err(_) => None,
    }
}

/// The symbol that gains, the factor, then the station, the round and the symbol that are named.
fn read_term(text: &[u8]) -> Option<Term>
    ensures { result ≡ term_in text.now }
{
    let place = first_blank(text)?;
    let to = read_number(&text[..place], 15)?;
    read_factor(&text[place + 1..], to as u8)
}

/// A term from the factor on.
fn read_factor(text: &[u8], to: u8) -> Option<Term>
    ensures { result ≡ factor_after to (cut text.now) }
{
    let place = first_blank(text)?;
    let factor = read_some_symbol(&text[..place])?;
    read_station(&text[place + 1..], to, factor)
}

/// A term from the station on.
fn read_station(text: &[u8], to: u8, factor: Sym) -> Option<Term>
    ensures { result ≡ station_in to factor (cut text.now) }
{
    let place = first_blank(text)?;
    let station = read_number(&text[..place], 65535)?;
    read_round(&text[place + 1..], to, factor, station as u16)
}

/// A term from the round on.
fn read_round(text: &[u8], to: u8, factor: Sym, station: u16) -> Option<Term>
    ensures { result ≡ round_in to factor station (cut text.now) }
{
    let place = first_blank(text)?;
    let round = read_number(&text[..place], 4095)?;
    let symbol = read_number(&text[place + 1..], 15)?;
    Some(Term {
        to,
        factor,
        station,
        round: round as u16,
        symbol: symbol as u8,
    })
}

/// The place of the first blank.
fn first_blank(text: &[u8]) -> Option<usize>
    ensures { result ≡ position (λ c. c == 32) text.now }
{
    text.iter().position(|c| *c == b' ')
}

/// A number up to a greatest one.
fn read_number(text: &[u8], most: u32) -> Option<u32>
    ensures { result ≡ number_up_to most text.now }
{
    let number = read_decimal(text)?;
    if most < number { None } else { Some(number) }
}

/// A symbol in text that is not 0.
fn read_some_symbol(text: &[u8]) -> Option<Sym>
    ensures { result ≡ factor_in text.now }
{
    not_zero(read_symbol_text(text))
}

/// A symbol that is not 0.
fn not_zero(symbol: Option<Sym>) -> Option<Sym>
    ensures { result ≡ not_zero symbol }
{
    match symbol {
        Some(symbol) => {
            if 0 < symbol.number() {
                Some(symbol)
            } else {
                None
            }
        }
        None => None,
    }
}
