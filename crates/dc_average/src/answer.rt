//! What a word shows of the current group.

ghost use Rattle.std.specs.Prelude.{◌≡◌, ◌+◌, ◌<◌, ◌≤◌, IfOk, IfSome};
ghost use Rattle.dc_spec.specs.Groups.{uneven_limb};
ghost use Rattle.dc_station_rules.specs.Epochs.{split_by, equal_or_fault, mean_of, two_parts};
ghost use Rattle.dc_average.specs.Stacks.{stations_of};
ghost use Rattle.dc_average.specs.Answers.{IsOfSome, stations_of_answer, answer_result_of, leaf_result_of};

use crate::ask::BadWord;
use crate::leaf::Leaf;
use crate::stack::RangedGroup;
use dc_field::{Group, Word};

/// A group is one leaf, or it is split.
#[derive(Clone, Copy, Debug)]
pub(crate) enum Answer {
    /// All stations sent again, and their values are equal.
    Alike {
        leaf: Leaf,
    },
    /// Those that sent again, and the rest.
    Split {
        left: RangedGroup,
        right: RangedGroup,
    },
}

/// What its word shows of a group: its stations sent again where their numbers are at most the mean.
#[tactic(auto, unfolding(dc_station_rules::specs::Epochs::split_by))]
pub(crate) fn answer_to(whole: &RangedGroup, w: &Word) -> Result<Answer, BadWord>
    requires { 1 ≤ stations_of whole.now }
    ensures answer { answer_result_of result
        ≡ split_by whole.now.group whole.now.low whole.now.high w.now }
    ensures counts { IfOk result (λ answer. stations_of_answer answer ≡ stations_of whole.now) }
    ensures some { IfOk result IsOfSome }
{
    let left = match Group::of_word(w) {
        Ok(left) => left,
        Err(fault) => return Err(BadWord::Group { fault }),
    };
    let right = match whole.group.minus(&left) {
        Ok(right) => right,
        Err(fault) => return Err(BadWord::Split { fault }),
    };
    if right.count() == 0 {
        return match alike(whole) {
            Ok(leaf) => Ok(Answer::Alike { leaf }),
            Err(why) => Err(why),
        };
    }
    Ok(split(whole, left, right))
}

/// A group whose stations all sent again.
fn alike(whole: &RangedGroup) -> Result<Leaf, BadWord>
    requires { 1 ≤ stations_of whole.now }
    ensures { leaf_result_of result
        ≡ equal_or_fault whole.now.group whole.now.low whole.now.high (uneven_limb whole.now.group) }
{
    match first_uneven(&whole.group) {
        Some(i) => Err(BadWord::Uneven {
            l: i as u8 + 1,
            seen: whole.group.limb(i + 1),
        }),
        None => Ok(whole.leaf()),
    }
}

/// The place of the first limb that the count does not divide.
#[tactic(auto, unfolding(dc_spec::specs::Groups::first_limb_where))]
fn first_uneven(group: &Group) -> Option<usize>
    requires { 1 ≤ group.now.count }
    ensures place { result ≡ uneven_limb group.now }
    ensures found { IfSome result (λ i. i < 15) }
{
    (0..15).find(|i| group.limb(*i + 1) % group.count() != 0)
}

/// A group in two parts: the left range ends at the mean, the right one begins after it.
fn split(whole: &RangedGroup, left: Group, right: Group) -> Answer
    requires left { 1 ≤ left.count }
    requires right { 1 ≤ right.count }
    requires whole { left.count + right.count ≡ stations_of whole.now }
    ensures parts { answer_result_of (Ok result)
        ≡ Ok (two_parts (mean_of whole.now.group) whole.now.low whole.now.high left right) }
    ensures counts { stations_of_answer result ≡ stations_of whole.now }
    ensures some { IsOfSome result }
{
    let mean = whole.mean();
    Answer::Split {
        left: RangedGroup {
            group: left,
            low: whole.low,
            high: whole.high.min(mean),
        },
        right: RangedGroup {
            group: right,
            low: whole.low.max(mean + 1),
            high: whole.high,
        },
    }
}
