//! The text of a script.

ghost use Rattle.std.specs.Prelude.{◌≡◌, ◌++◌, ◌<◌, ◌≤◌, IfOk, length, codes};
ghost use Rattle.std.specs.List.{flat_map, enumerate_from};
ghost use Rattle.std.specs.Fmt.{decimal};
ghost use Rattle.dc_spec.specs.Text.{line, symbol_text as symbol_digits};
ghost use Rattle.dc_formats.specs.WordLines.{station_word_line};
ghost use Rattle.dc_formats.specs.ScriptFile.{term_line, said_lines, delivery_lines, turn_lines, script_text as text_of};
ghost use Rattle.dc_script.specs.Delivered.{delivered};

use crate::delivery::Delivery;
use crate::round::Round;
use crate::said::Said;
use crate::script::Script;
use crate::term::Term;
use dc_field::{Bytes, NoMemory, Word, symbol_text, word_text};
use itoa::Buffer;
use std::alloc::Global;

/// The head line with the version, then for each round its number, what the members say, and the
/// delivery.
pub fn script_text(alloc: Global, s: &Script) -> Result<Bytes, NoMemory>
    ensures { IfOk result (λ text. text ≡ text_of s.now) }
{
    let mut text = Vec::new(alloc);
    put_numbered(&mut text, b"dcscript ".as_slice(), usize::from(s.version))?;
    put_rounds(&mut text, s.rounds.as_slice())?;
    Ok(Bytes::from_vec(text))
}

/// Puts a line of a beginning and a number.
fn put_numbered(text: &mut Vec<u8>, beginning: &[u8], n: usize) -> Result<(), NoMemory>
    ensures { IfOk result (λ _. text.new.items ≡ text.old.items ++
        line (beginning.now ++ decimal n)) }
{
    text.extend_from_slice(beginning)?;
    put_number(text, n)?;
    text.push(b'\n')?;
    Ok(())
}

/// Puts a number.
fn put_number(text: &mut Vec<u8>, n: usize) -> Result<(), NoMemory>
    ensures { IfOk result (λ _. text.new.items ≡ text.old.items ++ decimal n) }
{
    let mut buffer = Buffer::new();
    text.extend_from_slice(buffer.format(n).as_bytes())?;
    Ok(())
}

/// Puts rounds, numbered from 0.
fn put_rounds(text: &mut Vec<u8>, rounds: &[Round]) -> Result<(), NoMemory>
    ensures { IfOk result (λ _. text.new.items ≡ text.old.items ++
        flat_map (λ t. turn_lines t.0 t.1) (enumerate_from 0 rounds.now)) }
{
    for (r, round) in rounds.iter().enumerate() {
        put_round(text, r, round)?;
    }
    Ok(())
}

/// Puts round `r`.
fn put_round(text: &mut Vec<u8>, r: usize, round: &Round) -> Result<(), NoMemory>
    ensures { IfOk result (λ _. text.new.items ≡ text.old.items ++ turn_lines r round.now) }
{
    put_numbered(text, b"round ".as_slice(), r)?;
    put_words(text, b"say ".as_slice(), round.says.as_slice())?;
    put_delivery(text, &round.delivery)
}

/// Puts the one line `all`, or the lines of each dealt word.
fn put_delivery(text: &mut Vec<u8>, delivery: &Delivery) -> Result<(), NoMemory>
    ensures { IfOk result (λ _. text.new.items ≡ text.old.items ++
        delivery_lines (delivered delivery.now)) }
{
    match delivery {
        Delivery::Sum => {
            text.extend_from_slice(b"all\n")?;
            Ok(())
        }
        Delivery::Each { words } => put_words(text, b"to ".as_slice(), words.as_slice()),
    }
}

/// Puts the lines of each station with its word.
fn put_words(text: &mut Vec<u8>, beginning: &[u8], listed: &[Said]) -> Result<(), NoMemory>
    ensures { IfOk result (λ _. text.new.items ≡
        text.old.items ++ flat_map (said_lines beginning.now) listed.now) }
{
    for said in listed {
        put_said(text, beginning, said)?;
    }
    Ok(())
}

/// Puts the line of a station with its constant word, and the lines of its terms.
fn put_said(text: &mut Vec<u8>, beginning: &[u8], said: &Said) -> Result<(), NoMemory>
    ensures { IfOk result (λ _. text.new.items ≡
        text.old.items ++ said_lines beginning.now said.now) }
{
    put_station_word(text, beginning, said.station, &said.word)?;
    put_terms(text, said.terms.as_slice())
}

/// Puts the line of a station with a word.
fn put_station_word(
    text: &mut Vec<u8>,
    beginning: &[u8],
    station: u16,
    word: &Word,
) -> Result<(), NoMemory>
    ensures { IfOk result (λ _. text.new.items ≡ text.old.items ++
        station_word_line beginning.now station word.now) }
{
    text.extend_from_slice(beginning)?;
    put_number(text, usize::from(station))?;
    text.push(b' ')?;
    text.extend_from_slice(word_text(word).as_slice())?;
    text.push(b'\n')?;
    Ok(())
}

/// Puts the lines of terms.
fn put_terms(text: &mut Vec<u8>, terms: &[Term]) -> Result<(), NoMemory>
    ensures { IfOk result (λ _. text.new.items ≡ text.old.items ++ flat_map term_line terms.now) }
{
    for term in terms {
        put_term(text, term)?;
    }
    Ok(())
}

/// Puts the line of a term: the symbol that gains, the factor, what is named.
fn put_term(text: &mut Vec<u8>, term: &Term) -> Result<(), NoMemory>
    ensures { IfOk result (λ _. text.new.items ≡ text.old.items ++ term_line term.now) }
{
    text.extend_from_slice(b"add ")?;
    put_number(text, usize::from(term.to))?;
    text.push(b' ')?;
    text.extend_from_slice(symbol_text(term.factor).as_slice())?;
    text.push(b' ')?;
    put_named(text, term)?;
    text.push(b'\n')?;
    Ok(())
}

/// Puts the station, the round and the symbol that a term names.
fn put_named(text: &mut Vec<u8>, term: &Term) -> Result<(), NoMemory>
    ensures { IfOk result (λ _. text.new.items ≡ text.old.items ++
        (decimal term.now.station ++ codes " " ++ decimal term.now.round ++ codes " " ++
        decimal term.now.symbol)) }
{
    put_number(text, usize::from(term.station))?;
    text.push(b' ')?;
    put_number(text, usize::from(term.round))?;
    text.push(b' ')?;
    put_number(text, usize::from(term.symbol))
}
