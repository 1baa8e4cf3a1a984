ghost use Rattle.std.specs.Prelude.{ℕ, ◌≡◌};
ghost use Rattle.dc_formats.specs.ScriptFile.{IsTurn, turn_terms};

use crate::answers::{done, fault_of};
use dc_field::{Bytes, Sym, Word, Words};
use dc_graph::{Coalition, Graph};
use dc_script::{
    Dealt, Delivery, Round, Said, Script, ScriptFault, ScriptKind, Term, Terms, quiet, read_script,
    rule_word, rule_word_over, script_text,
};
use itoa::Buffer;
use std::alloc::Global;
use std::process::Abort;
use std::test::*;

/// A text in which W stands for eighty zeros.
fn filled<R: AllocGlobal + Abort>(rt: &R, text: &str) -> Bytes {
    let mut bytes = Vec::new(rt.alloc());
    for c in text.as_bytes() {
        if *c == b'W' {
            done(rt, bytes.extend_from_slice([b'0'; 80].as_slice()));
        } else {
            done(rt, bytes.push(*c));
        }
    }
    Bytes::from_vec(bytes)
}

fn refused<R: AllocGlobal + Abort>(rt: &R, text: &str, line: u32, kind: ScriptKind) {
    let bytes = filled(rt, text);
    let due = ScriptFault { line, kind };
    assert_eq!(rt;
        fault_of(rt, read_script(rt.alloc(), bytes.as_slice())),
        Some(due)
    );
}

/// A script is read, copied and written as the same bytes.
fn kept<R: AllocGlobal + Abort>(rt: &R, bytes: &[u8]) {
    let script = done(rt, read_script(rt.alloc(), bytes));
    let copy = done(rt, script.copy(rt.alloc()));
    written(rt, &copy, bytes);
}

fn text_kept<R: AllocGlobal + Abort>(rt: &R, text: &str) {
    let bytes = filled(rt, text);
    kept(rt, bytes.as_slice());
}

fn written<R: AllocGlobal + Abort>(rt: &R, script: &Script, due: &[u8]) {
    let text = done(rt, script_text(rt.alloc(), script));
    assert_eq!(rt; text.as_slice(), due);
}

/// The script of the worked session: station 2 says the zero word twice and deals two words, then
/// the zero word to both.
const WORKED: &str =
    "dcscript 1\nround 0\nsay 2 W\nto 0 000000000000000000000000000000000000000000000000000000000000000000000000000\
00002\nto 1 00000000000000000000000000000000000000000000000000000000000000000000000000000003\nround 1\nsay 2 W\nto 0 W\nto 1 W\n";

fn dealt_is<R: Abort>(rt: &R, dealt: &Dealt, i: usize, station: u16, last: u32) {
    let said = done(rt, dealt.as_slice().get(i).ok_or("it is there"));
    assert_eq!(rt; said.station, station);
    assert_eq!(rt;
        (said.word.get(0).number(), said.word.get(15).number()),
        (0, last)
    );
}

#[test]
fn worked_script(rt: HostRuntime) {
    let bytes = filled(&rt, WORKED);
    kept(&rt, bytes.as_slice());
    let script = done(&rt, read_script(rt.alloc(), bytes.as_slice()));
    let rounds = script.rounds.as_slice();
    assert_eq!(rt; rounds.len(), 2);
    let first = done(&rt, rounds.first().ok_or("it is there"));
    assert_eq!(rt; first.says.as_slice().len(), 1);
    dealt_is(&rt, &first.says, 0, 2, 0);
    match &first.delivery {
        Delivery::Each { words } => {
            assert_eq!(rt; words.as_slice().len(), 2);
            dealt_is(&rt, words, 0, 0, 2);
            dealt_is(&rt, words, 1, 1, 3);
        }
        Delivery::Sum => panic!(rt; "words are dealt"),
    }
}

#[test]
fn scripts(rt: HostRuntime) {
    kept(&rt, b"dcscript 1\n");
    text_kept(
        &rt,
        "dcscript 1\nround 0\nall\nround 1\nsay 1 W\nsay 65535 W\nall\n",
    );
    text_kept(&rt, "dcscript 1\nround 0\nto 0 W\nto 10 W\n");
}

/// A round in which nobody says a word and all receive the sum.
fn silent_round(alloc: Global) -> Round
    ensures turn { (r : ℕ) → IsTurn r result }
    ensures no_terms { turn_terms result ≡ 0 }
{
    Round {
        says: Dealt::from_vec(Vec::new(alloc)),
        delivery: Delivery::Sum,
    }
}

#[test]
fn scripts_that_are_made(rt: HostRuntime) {
    let alloc = rt.alloc();
    let script = Script::empty(alloc, 2);
    let script = done(&rt, script.with_round(silent_round(alloc)));
    let script = done(&rt, script.with_round(silent_round(alloc)));
    written(&rt, &script, b"dcscript 2\nround 0\nall\nround 1\nall\n");
}

#[test]
fn first_lines(rt: HostRuntime) {
    refused(&rt, "", 1, ScriptKind::Header);
    refused(&rt, "dcscript 3\n", 1, ScriptKind::Header);
    refused(&rt, "dcscript 1", 1, ScriptKind::NotText);
    refused(&rt, "dcscript\t1\n", 1, ScriptKind::NotText);
    refused(&rt, "dcscript 1\nround 0\nall", 3, ScriptKind::NotText);
}

#[test]
fn forms(rt: HostRuntime) {
    refused(&rt, "dcscript 1\n\n", 2, ScriptKind::Form);
    refused(&rt, "dcscript 1\nround 00\n", 2, ScriptKind::Form);
    refused(&rt, "dcscript 1\nround 4294967296\n", 2, ScriptKind::Form);
    refused(
        &rt,
        "dcscript 1\nround 0\nsay 65536 W\n",
        3,
        ScriptKind::Form,
    );
    refused(&rt, "dcscript 1\nround 0\nsay 1 W0\n", 3, ScriptKind::Form);
    refused(&rt, "dcscript 1\nround 0\nsay  W\n", 3, ScriptKind::Form);
    refused(&rt, "dcscript 1\nround 0\nall \n", 3, ScriptKind::Form);
}

#[test]
fn missing_and_order(rt: HostRuntime) {
    refused(
        &rt,
        "dcscript 1\nround 0\nround 7\n",
        3,
        ScriptKind::Missing,
    );
    refused(
        &rt,
        "dcscript 1\nround 0\nsay 3 W\n",
        4,
        ScriptKind::Missing,
    );
    let (told, due) = (4294967295, 1);
    let text = "dcscript 1\nround 0\nall\nround 4294967295\n";
    refused(&rt, text, 4, ScriptKind::Round { told, due });
    let kind = ScriptKind::Order { station: 4 };
    refused(&rt, "dcscript 1\nround 0\nsay 4 W\nsay 4 W\n", 4, kind);
    refused(
        &rt,
        "dcscript 1\nround 0\nsay 1 W\nto 5 W\nto 4 W\n",
        5,
        kind,
    );
}

#[test]
fn misplaced(rt: HostRuntime) {
    let kind = ScriptKind::Misplaced;
    refused(&rt, "dcscript 1\nsay 0 W\n", 2, kind);
    refused(&rt, "dcscript 1\nto 0 W\n", 2, kind);
    refused(&rt, "dcscript 1\nround 0\nall\nsay 0 W\n", 4, kind);
    refused(&rt, "dcscript 1\nround 0\nto 0 W\nsay 0 W\n", 4, kind);
    refused(&rt, "dcscript 1\nround 0\nto 0 W\nall\n", 4, kind);
    refused(&rt, "dcscript 1\nround 0\nall\nto 0 W\n", 4, kind);
}

/// So many rounds that deliver the sum.
fn rounds<R: AllocGlobal + Abort>(rt: &R, count: u32) -> Bytes {
    let mut bytes = done(rt, Vec::from_slice(rt.alloc(), b"dcscript 1\n"));
    for r in 0..count {
        let mut buffer = Buffer::new();
        done(rt, bytes.extend_from_slice(b"round ".as_slice()));
        done(rt, bytes.extend_from_slice(buffer.format(r).as_bytes()));
        done(rt, bytes.extend_from_slice(b"\nall\n".as_slice()));
    }
    Bytes::from_vec(bytes)
}

#[test]
fn most_rounds(rt: HostRuntime) {
    let bytes = rounds(&rt, 4096);
    kept(&rt, bytes.as_slice());
    let bytes = rounds(&rt, 4097);
    let due = ScriptFault {
        line: 8194,
        kind: ScriptKind::TooMany,
    };
    assert_eq!(rt;
        fault_of(&rt, read_script(rt.alloc(), bytes.as_slice())),
        Some(due)
    );
}

#[test]
fn quiet_coalition(rt: HostRuntime) {
    let alloc = rt.alloc();
    let g = done(&rt, Graph::new(alloc, 256, &[(0, 2)]));
    let c = done(&rt, Coalition::new(alloc, &g, &[3, 1]));
    assert!(rt; c.holds(3));
    let script = done(&rt, quiet(alloc, &c, 256, 2));
    let due = filled(
        &rt,
        "dcscript 1\nround 0\nsay 1 W\nsay 3 W\nall\nround 1\nsay 1 W\nsay 3 W\nall\n",
    );
    written(&rt, &script, due.as_slice());
}

/// A script of version 2 in which a word that is said has a term, and one that is dealt has three.
const RULED: &str =
    "dcscript 2\nround 0\nsay 2 W\nadd 15 10000 0 0 15\nall\nround 1\nsay 2 W\nto 0 W\nto 1 W\n\
add 0 00001 255 1 15\nadd 0 0ffff 65535 0 0\nadd 15 00001 0 1 0\n";

#[test]
fn scripts_with_rules(rt: HostRuntime) {
    text_kept(&rt, RULED);
    text_kept(&rt, "dcscript 2\n");
    text_kept(&rt, "dcscript 2\nround 0\nsay 1 W\nall\n");
}

fn term_refused<R: AllocGlobal + Abort>(rt: &R, rest: &str, line: u32, kind: ScriptKind) {
    let mut text = filled(rt, "dcscript 2\nround 0\nsay 2 W\n").into_vec();
    done(rt, text.extend_from_slice(rest.as_bytes()));
    let due = ScriptFault { line, kind };
    assert_eq!(rt;
        fault_of(rt, read_script(rt.alloc(), text.as_slice())),
        Some(due)
    );
}

#[test]
fn forms_of_terms(rt: HostRuntime) {
    refused(
        &rt,
        "dcscript 1\nround 0\nsay 2 W\nadd 0 00001 0 0 0\n",
        4,
        ScriptKind::Form,
    );
    term_refused(&rt, "add 16 00001 0 0 0\n", 4, ScriptKind::Form);
    term_refused(&rt, "add 0 00000 0 0 0\n", 4, ScriptKind::Form);
    term_refused(&rt, "add 0 10001 0 0 0\n", 4, ScriptKind::Form);
    term_refused(&rt, "add 0 0000F 0 0 0\n", 4, ScriptKind::Form);
    term_refused(&rt, "add 0 00001 65536 0 0\n", 4, ScriptKind::Form);
    term_refused(&rt, "add 0 00001 0 4096 0\n", 4, ScriptKind::Form);
    term_refused(&rt, "add 0 00001 0 0 16\n", 4, ScriptKind::Form);
    term_refused(&rt, "add 0 00001 0 0\n", 4, ScriptKind::Form);
    term_refused(&rt, "add 0 00001 0 0 0 \n", 4, ScriptKind::Form);
}

#[test]
fn places_of_terms(rt: HostRuntime) {
    let misplaced = ScriptKind::Misplaced;
    refused(&rt, "dcscript 2\nadd 0 00001 0 0 0\n", 2, misplaced);
    refused(
        &rt,
        "dcscript 2\nround 0\nadd 0 00001 0 0 0\n",
        3,
        misplaced,
    );
    refused(
        &rt,
        "dcscript 2\nround 0\nall\nadd 0 00001 0 9 0\n",
        4,
        misplaced,
    );
    let (told, round) = (1, 0);
    term_refused(
        &rt,
        "add 1 00001 0 0 0\nadd 0 00001 0 1 0\n",
        5,
        ScriptKind::Late { told, round },
    );
    term_refused(
        &rt,
        "add 1 00001 0 0 0\nadd 1 00002 0 0 0\n",
        5,
        ScriptKind::Unordered,
    );
    term_refused(
        &rt,
        "add 1 00001 0 0 0\nadd 0 00001 1 0 1\n",
        5,
        ScriptKind::Unordered,
    );
}

/// A word of zeros but for its symbol 15.
fn last_symbol<R: Abort>(rt: &R, number: u32) -> Word {
    let mut word = Word::zero();
    word.set(15, done(rt, Sym::new(number).ok_or("it is a symbol")));
    word
}

/// The rule takes back symbol 15 of station 0 in the same round: minus 1 times it is added.
#[test]
fn word_of_rule(rt: HostRuntime) {
    let alloc = rt.alloc();
    let factor = done(&rt, Sym::new(65536).ok_or("it is a symbol"));
    let term = Term {
        to: 15,
        factor,
        station: 0,
        round: 0,
        symbol: 15,
    };
    let said = Said {
        station: 2,
        word: last_symbol(&rt, 2),
        terms: Terms::from_vec(done(&rt, Vec::from_slice(alloc, &[term]))),
    };
    let words = Words::from_vec(done(&rt, Vec::from_slice(alloc, &[last_symbol(&rt, 7)])));
    let due = last_symbol(&rt, 65532);
    assert_eq!(rt;
        rule_word(&said, &words, 3).numbers().as_slice(),
        due.numbers().as_slice()
    );
    let over = rule_word_over(&said, words.as_slice(), 3);
    assert_eq!(rt; over.numbers().as_slice(), due.numbers().as_slice());
}
