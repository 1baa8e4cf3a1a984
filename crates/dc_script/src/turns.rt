//! The rounds that the lines so far make, and one line more.

ghost use Rattle.std.specs.Prelude.{◌≡◌, ◌++◌, ◌∷◌, [], List, IfOk, IsNone, IfSome, ◌↔◌, ◌-◌, length, take};
ghost use Rattle.dc_field.specs.Answers.{Answers};
ghost use Rattle.dc_field.specs.declared.refusal.Refusal.TheVariants.{Bad};
ghost use Rattle.dc_spec.specs.Scripts.{Said as SaidValue, Turn};
ghost use Rattle.dc_script.specs.declared.fault.ScriptKind.TheVariants.{Order};
ghost use Rattle.dc_script.specs.Delivered.{delivered};
ghost use Rattle.dc_script.specs.Turns.{begun_turn, last_turn, is_undelivered, is_waiting, reported_count, is_above_last, with_round, with_said, with_say, with_all, with_dealt, with_to, plain_said, with_item, terms_after, reported_round, last_said, said_with, is_above_last_term, term_fault, with_term, with_added, with_add};
ghost use Rattle.dc_formats.specs.ScriptFile.{is_before, term_order};

use crate::delivery::Delivery;
use crate::entry::Entry;
use crate::fault::ScriptKind;
use crate::item::Item;
use crate::round::{Round, Rounds};
use crate::said::{Dealt, Said};
use crate::term::{Term, Terms};
use dc_field::{Items, MOST_TERMS, MOST_WORDS, Refusal};
use std::alloc::Global;

/// The rounds with one more line, after so many terms.
pub(crate) fn with_item(
    alloc: Global,
    rounds: Rounds,
    terms: usize,
    item: Item,
) -> Result<Rounds, Refusal<ScriptKind>>
    ensures { Answers result (with_item terms rounds item) }
{
    match item {
        Item::RoundLine(number) => with_round(alloc, rounds, number),
        Item::SayLine(entry) => with_say(alloc, rounds, entry),
        Item::AllLine => with_all(rounds),
        Item::ToLine(entry) => with_to(alloc, rounds, entry),
        Item::AddLine(term) => with_add(rounds, terms, term),
    }
}

/// How many terms there are after a line, up to the limit.
pub(crate) fn terms_after(terms: usize, item: &Item) -> usize
    ensures { result ≡ terms_after terms item.now }
{
    match item {
        Item::AddLine(_) => { if terms < MOST_TERMS { terms + 1 } else { terms } }
        _ => terms,
    }
}

/// The rounds with one more, of this number.
fn with_round(alloc: Global, rounds: Rounds, number: u32) -> Result<Rounds, Refusal<ScriptKind>>
    ensures { Answers result (with_round rounds number) }
{
    if is_waiting(&rounds) {
        return Err(Refusal::Bad(ScriptKind::Missing));
    }
    let mut items = rounds.into_vec();
    if number as usize != items.len() {
        return Err(Refusal::Bad(ScriptKind::Round {
            told: number,
            due: reported_count(items.len()),
        }));
    }
    if usize::from(MOST_WORDS) <= items.len() {
        return Err(Refusal::Bad(ScriptKind::TooMany));
    }
    items.push(begun_round(alloc))?;
    Ok(Rounds::from_vec(items))
}

/// A count as a fault reports it: at most the greatest `u32`.
fn reported_count(count: usize) -> u32
    ensures { result ≡ reported_count count }
{
    if count < u32::MAX as usize {
        count as u32
    } else {
        u32::MAX
    }
}

/// A round of which only the number is known.
fn begun_round(alloc: Global) -> Round
    ensures { result ≡ begun_turn }
{
    Round {
        says: Dealt::from_vec(Vec::new(alloc)),
        delivery: Delivery::Each {
            words: Dealt::from_vec(Vec::new(alloc)),
        },
    }
}

/// Whether the last round has no delivery yet.
pub(crate) fn is_waiting(rounds: &Rounds) -> bool
    ensures { result ≡ is_waiting rounds.now }
{
    match rounds.as_slice().last() {
        Some(round) => is_undelivered(&round.delivery),
        None => false,
    }
}

/// Whether nothing is delivered yet.
fn is_undelivered(delivery: &Delivery) -> bool
    ensures { result ≡ is_undelivered (delivered delivery.now) }
{
    match delivery {
        Delivery::Sum => false,
        Delivery::Each { words } => words.as_slice().len() == 0,
    }
}

/// Whether a station is greater than the last of a list.
fn is_above_last(station: u16, entries: &[Said]) -> bool
    ensures { result ≡ is_above_last station entries.now }
{
    match entries.last() {
        Some(last) => last.station < station,
        None => true,
    }
}

/// The refusal of a station that is not greater than the one before.
fn out_of_order(station: u16) -> Refusal<ScriptKind>
    ensures { result ≡ Bad (Order station) }
{
    Refusal::Bad(ScriptKind::Order { station })
}

/// The rounds without the last one, and the last one.
fn split_last(rounds: Rounds) -> Option<(Rounds, Round)>
    ensures none { IsNone result ↔ (length rounds ≡ 0) }
    ensures some { IfSome result (λ p. (p.0 ≡ take (length rounds - 1) rounds) × (p.1 ≡
        last_turn rounds)) }
{
    let mut items = rounds.into_vec();
    let last = items.pop()?;
    Some((Rounds::from_vec(items), last))
}

/// The items with one more at the end.
fn put_back<T: Drop>(items: Items<T>, item: T) -> Result<Items<T>, Refusal<ScriptKind>>
    ensures { Answers result (Ok (items ++ item ∷ [])) }
{
    let mut items = items.into_vec();
    items.push(item)?;
    Ok(Items::from_vec(items))
}

/// A word without terms.
fn plain_said(alloc: Global, entry: Entry) -> Said
    ensures { result ≡ plain_said entry }
{
    Said {
        station: entry.station,
        word: entry.word,
        terms: Terms::from_vec(Vec::new(alloc)),
    }
}

/// The rounds with one more word said in the last one.
fn with_say(alloc: Global, rounds: Rounds, entry: Entry) -> Result<Rounds, Refusal<ScriptKind>>
    ensures { Answers result (with_say rounds entry) }
{
    if !is_waiting(&rounds) {
        return Err(Refusal::Bad(ScriptKind::Misplaced));
    }
    match split_last(rounds) {
        Some((before, last)) => with_said(alloc, before, last, entry),
        None => Err(Refusal::Bad(ScriptKind::Misplaced)),
    }
}

/// One more word said in a round.
fn with_said(
    alloc: Global,
    before: Rounds,
    last: Round,
    entry: Entry,
) -> Result<Rounds, Refusal<ScriptKind>>
    ensures { (turns : List Turn) → before ≡ take (length turns - 1) turns →
        Answers result (with_said turns last entry) }
{
    let Round { says, delivery } = last;
    if !is_above_last(entry.station, says.as_slice()) {
        return Err(out_of_order(entry.station));
    }
    let says = put_back(says, plain_said(alloc, entry))?;
    put_back(before, Round { says, delivery })
}

/// The rounds of which the last one delivers the sum.
fn with_all(rounds: Rounds) -> Result<Rounds, Refusal<ScriptKind>>
    ensures { Answers result (with_all rounds) }
{
    if !is_waiting(&rounds) {
        return Err(Refusal::Bad(ScriptKind::Misplaced));
    }
    match split_last(rounds) {
        Some((before, last)) => {
            let Round { says, delivery } = last;
            drop(delivery);
            put_back(
                before,
                Round {
                    says,
                    delivery: Delivery::Sum,
                },
            )
        }
        None => Err(Refusal::Bad(ScriptKind::Misplaced)),
    }
}

/// The rounds with one more word dealt in the last one.
fn with_to(alloc: Global, rounds: Rounds, entry: Entry) -> Result<Rounds, Refusal<ScriptKind>>
    ensures { Answers result (with_to rounds entry) }
{
    match split_last(rounds) {
        Some((before, last)) => with_dealt(alloc, before, last, entry),
        None => Err(Refusal::Bad(ScriptKind::Misplaced)),
    }
}

/// One more word dealt in a round.
fn with_dealt(
    alloc: Global,
    before: Rounds,
    last: Round,
    entry: Entry,
) -> Result<Rounds, Refusal<ScriptKind>>
    ensures { (turns : List Turn) → before ≡ take (length turns - 1) turns →
        Answers result (with_dealt turns last last.delivery entry) }
{
    let Round { says, delivery } = last;
    match delivery {
        Delivery::Sum => Err(Refusal::Bad(ScriptKind::Misplaced)),
        Delivery::Each { words } => {
            if !is_above_last(entry.station, words.as_slice()) {
                return Err(out_of_order(entry.station));
            }
            let words = put_back(words, plain_said(alloc, entry))?;
            let delivery = Delivery::Each { words };
            put_back(before, Round { says, delivery })
        }
    }
}

/// The rounds with one more term of the last word, after so many terms.
fn with_add(rounds: Rounds, terms: usize, term: Term) -> Result<Rounds, Refusal<ScriptKind>>
    ensures { Answers result (with_add terms rounds term) }
{
    match split_last(rounds) {
        Some((before, last)) => with_added(before, last, terms, term),
        None => Err(Refusal::Bad(ScriptKind::Misplaced)),
    }
}

/// One more term of the last word of a round: of the last one that is dealt, where there is one.
fn with_added(
    before: Rounds,
    last: Round,
    terms: usize,
    term: Term,
) -> Result<Rounds, Refusal<ScriptKind>>
    ensures { (turns : List Turn) → before ≡ take (length turns - 1) turns →
        Answers result (with_added terms turns last last.delivery term) }
{
    let number = before.as_slice().len();
    let Round { says, delivery } = last;
    match delivery {
        Delivery::Sum => Err(Refusal::Bad(ScriptKind::Misplaced)),
        Delivery::Each { words } => {
            if words.as_slice().len() == 0 {
                let says = with_term(number, terms, says, term)?;
                let delivery = Delivery::Each { words };
                put_back(before, Round { says, delivery })
            } else {
                let words = with_term(number, terms, words, term)?;
                let delivery = Delivery::Each { words };
                put_back(before, Round { says, delivery })
            }
        }
    }
}

/// The words of which the last one has one more term, in a round of this number.
fn with_term(
    round: usize,
    terms: usize,
    listed: Dealt,
    term: Term,
) -> Result<Dealt, Refusal<ScriptKind>>
    ensures { Answers result (with_term round terms listed term) }
{
    let (before, last) = match split_last_said(listed) {
        Some(parts) => parts,
        None => return Err(Refusal::Bad(ScriptKind::Misplaced)),
    };
    match term_fault(round, terms, last.terms.as_slice(), &term) {
        Some(kind) => Err(Refusal::Bad(kind)),
        None => put_back(before, said_with(last, term)?),
    }
}

/// The words without the last one, and the last one.
fn split_last_said(listed: Dealt) -> Option<(Dealt, Said)>
    ensures none { IsNone result ↔ (length listed ≡ 0) }
    ensures some { IfSome result (λ p. (p.0 ≡ take (length listed - 1) listed) × (p.1 ≡
        last_said listed)) }
{
    let mut items = listed.into_vec();
    let last = items.pop()?;
    Some((Dealt::from_vec(items), last))
}

/// A word with one more term.
fn said_with(said: Said, term: Term) -> Result<Said, Refusal<ScriptKind>>
    ensures { Answers result (Ok (said_with said term)) }
{
    let Said {
        station,
        word,
        terms,
    } = said;
    let terms = put_back(terms, term)?;
    Ok(Said {
        station,
        word,
        terms,
    })
}

/// The fault of a term in a round of this number, after so many terms, of which these are of its
/// word.
fn term_fault(round: usize, terms: usize, of_word: &[Term], term: &Term) -> Option<ScriptKind>
    ensures { result ≡ term_fault round terms of_word.now term.now }
{
    if round < usize::from(term.round) {
        return Some(ScriptKind::Late {
            told: term.round,
            round: reported_round(round),
        });
    }
    if !is_above_last_term(term, of_word) {
        return Some(ScriptKind::Unordered);
    }
    if MOST_TERMS <= terms {
        return Some(ScriptKind::Terms);
    }
    None
}

/// A round as a fault reports it: at most the greatest `u16`.
fn reported_round(round: usize) -> u16
    ensures { result ≡ reported_round round }
{
    if round < u16::MAX as usize {
        round as u16
    } else {
        u16::MAX
    }
}

/// Whether a term is greater than the last of a list.
fn is_above_last_term(term: &Term, terms: &[Term]) -> bool
    ensures { result ≡ is_above_last_term term.now terms.now }
{
    match terms.last() {
        Some(last) => is_before(last, term),
        None => true,
    }
}

/// Whether a term is before another one: by the symbol that gains, then by the station, the round
/// and the symbol that are named.
fn is_before(first: &Term, second: &Term) -> bool
    ensures { result ≡ is_before (term_order first.now) (term_order second.now) }
{
    if first.to != second.to {
        return first.to < second.to;
    }
    if first.station != second.station {
        return first.station < second.station;
    }
    if first.round != second.round {
        return first.round < second.round;
    }
    first.symbol < second.symbol
}
