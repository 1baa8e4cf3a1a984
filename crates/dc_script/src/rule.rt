//! The word of a rule.

ghost use Rattle.std.specs.Prelude.{◌≡◌, ◌+◌, ◌*◌, ◌%◌, ◌<◌, All, length, slice_index, slice_set};
ghost use Rattle.dc_spec.specs.Words.{IsWord};
ghost use Rattle.dc_spec.specs.Scripts.{term_value, rule_word};
ghost use Rattle.dc_script.specs.Rules.{with_terms};

use crate::said::Said;
use crate::term::Term;
use dc_field::{Sym, Word, Words};

/// The word of a rule: to each symbol of the constant word the terms for that symbol are added,
/// each its factor times the symbol that it names. `words` are the words of a session of `n`
/// stations, those of a round by station, and round after round. The rule is this project's own.
pub fn rule_word(s: &Said, words: &Words, n: u16) -> Word
    requires named { All (λ term. term.round * n + term.station < length words.now) s.now.terms }
    requires places { All (λ term. (term.to < 16) × (term.symbol < 16)) s.now.terms }
    ensures { result ≡ rule_word s.now words.now n }
{
    rule_word_over(s, words.as_slice(), n)
}

/// As `rule_word`, over words that stand in a slice.
pub fn rule_word_over(s: &Said, words: &[Word], n: u16) -> Word
    requires named { All (λ term. term.round * n + term.station < length words.now) s.now.terms }
    requires places { All (λ term. (term.to < 16) × (term.symbol < 16)) s.now.terms }
    ensures { result ≡ rule_word s.now words.now n }
{
    with_terms(s.word, s.terms.as_slice(), words, n)
}

/// A word to which terms are added.
#[tactic(auto, using(crate::proofs::RuleWords::no_terms, crate::proofs::RuleWords::one_more_term))]
fn with_terms(constant: Word, terms: &[Term], words: &[Word], n: u16) -> Word
    requires named { All (λ term. term.round * n + term.station < length words.now) terms.now }
    requires places { All (λ term. (term.to < 16) × (term.symbol < 16)) terms.now }
    ensures { result ≡ with_terms constant terms.now words.now n }
{
    note_word(&constant);
    let mut word = constant;
    for term in terms {
        add_term(&mut word, term, words, n);
    }
    word
}

/// Gives the prover a fact and does nothing: a word is sixteen symbols.
fn note_word(word: &Word)
    ensures { IsWord word.now }
{
    let _ = word.numbers();
}

/// Adds one term.
fn add_term(word: &mut Word, term: &Term, words: &[Word], n: u16)
    requires named { term.now.round * n + term.now.station < length words.now }
    requires places { (term.now.to < 16) × (term.now.symbol < 16) }
    ensures { word.new ≡ slice_set word.old term.now.to
        ((slice_index word.old term.now.to + term_value n words.now term.now % 65537) % 65537) }
{
    let to = usize::from(term.to);
    let sum = word.get(to).add(value_of(term, words, n));
    word.set(to, sum);
}

/// What a term adds: its factor times the symbol that it names.
fn value_of(term: &Term, words: &[Word], n: u16) -> Sym
    requires named { term.now.round * n + term.now.station < length words.now }
    requires place { term.now.symbol < 16 }
    ensures { result ≡ term_value n words.now term.now % 65537 }
{
    let place = usize::from(term.round) * usize::from(n) + usize::from(term.station);
    let named = words[place].get(usize::from(term.symbol));
    term.factor.mul(named)
}
