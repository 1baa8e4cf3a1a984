//! An epoch: it takes words one after the other, and gives leaves.

ghost use Rattle.std.specs.Prelude.{◌≡◌, ℕ, ◌+◌, ◌<◌, ◌≤◌, false, List, [], ◌∷◌, ◌++◌, IfNone, IfOk, IfSome, length, map, slice_get};
ghost use Rattle.dc_spec.specs.Groups.{group_of};
ghost use Rattle.dc_station_rules.specs.Epochs.{Ranged, split_by, request_after, calls, epoch_of, leaves_at};
ghost use Rattle.dc_average.specs.Stacks.{IsStack, stations_of, stations_in};
ghost use Rattle.dc_average.specs.Items.{a_group, from_open, leaves_in};
ghost use Rattle.dc_average.specs.StandsFor.{StandsFor, is_done};
ghost use Rattle.dc_average.specs.Answers.{IsOfSome, StepLeadsTo, LeftBy, stations_of_answer, is_nothing, root_tree, step_with, answer_result_of, asked_of};

use crate::answer::{Answer, answer_to};
use crate::ask::{Ask, BadWord, Step};
use crate::leaf::Leaves;
use crate::stack::{RangedGroup, Stack};
use dc_field::{Group, NoMemory, Value, Word};
use std::alloc::Global;
use std::marker::Model;

/// The greatest number of a value.
const LAST_NUMBER: u128 = (1 << 120) - 1;

/// An epoch. Contracts see whether its root was received, and the groups that wait for their words.
#[derive(Drop)]
pub struct Epoch {
    begun: bool,
    stack: Stack,
}

impl Model for Epoch {
    ghost use Rattle.std.specs.Prelude.{◌≡◌, false, []};
    ghost use Rattle.dc_average.specs.StandsFor.{State};

    ghost Value = { State };

    ghost view = { λ e. record { begun = e.begun; waiting = e.stack } };

    ghost invariant = { λ e. e.begun ≡ false → e.stack ≡ [] };
}

impl Epoch {
    /// An epoch before its root, with room for 256 groups.
    pub fn start(alloc: Global) -> Result<Epoch, NoMemory>
        ensures { IfOk result (λ epoch. StandsFor epoch []) }
    {
        let stack = Stack::start(alloc)?;
        Ok(Epoch {
            begun: false,
            stack,
        })
    }

    /// Begins a new epoch, before its root, whatever was taken.
    pub fn restart(&mut self)
        ensures { StandsFor self.new [] }
    {
        self.begun = false;
        self.stack.clear();
    }

    /// What the next word is asked for.
    pub fn ask(&self) -> Ask
        ensures ask { (words : List (List ℕ)) → StandsFor self.now words →
            asked_of result ≡ request_after (epoch_of words) }
        ensures over { is_nothing result ≡ is_done self.now }
    {
        if !self.begun {
            return Ask::Root;
        }
        match self.stack.top() {
            Some(top) => Ask::AtMost { mean: top.mean() },
            None => Ask::Over,
        }
    }

    /// Whether a station that sent this value in the root sends it in the next word.
    pub fn calls(&self, v: &Value) -> bool
        requires { is_done self.now ≡ false }
        ensures { (words : List (List ℕ)) → StandsFor self.now words →
            result ≡ calls v.now (epoch_of words) }
    {
        if !self.begun {
            return true;
        }
        match self.stack.top() {
            Some(top) => top.calls(v.number()),
            None => false,
        }
    }

    /// Takes a word, and fills `out` with the leaves that it gives, at most 256; those that were in it are removed.
    pub fn take(&mut self, w: &Word, out: &mut Leaves) -> Step
        requires { is_done self.old ≡ false }
        ensures stands { (words : List (List ℕ)) → StandsFor self.old words →
            StandsFor self.new (words ++ w.now ∷ []) }
        ensures step { (words : List (List ℕ)) → StandsFor self.old words →
            StepLeadsTo result (epoch_of (words ++ w.now ∷ [])) }
        ensures leaves { (words : List (List ℕ)) → StandsFor self.old words →
            out.new ≡ leaves_at words w.now }
    {
        out.clear();
        if self.begun {
            resolve(&mut self.stack, w, out)
        } else {
            self.begun = true;
            begin(&mut self.stack, w, out)
        }
    }
}

/// Takes the root.
fn begin(stack: &mut Stack, w: &Word, out: &mut Leaves) -> Step
    requires stack { stack.old ≡ [] }
    requires out { out.old ≡ [] }
    ensures { LeftBy (root_tree (group_of w.now)) [] stack.new out.new result }
{
    match Group::of_word(w) {
        Ok(group) => {
            if group.count() > 0 {
                stack.push(RangedGroup {
                    group,
                    low: 0,
                    high: LAST_NUMBER,
                });
            }
            settle(stack, out)
        }
        Err(fault) => Step::Void {
            why: BadWord::Group { fault },
        },
    }
}

/// Takes a word for the current group.
fn resolve(stack: &mut Stack, w: &Word, out: &mut Leaves) -> Step
    requires stack { 1 ≤ length stack.old }
    requires out { out.old ≡ [] }
    ensures { (whole : Ranged) (rest : List Ranged) → stack.old ≡ whole ∷ rest →
        LeftBy (split_by whole.group whole.low whole.high w.now) rest stack.new out.new result }
{
    let whole = stack.pop().unwrap();
    match answer_to(&whole, w) {
        Ok(answer) => grow(stack, &answer, out),
        Err(why) => {
            stack.clear();
            Step::Void { why }
        }
    }
}

/// Puts an answer in the place of the group that it is for.
fn grow(stack: &mut Stack, answer: &Answer, out: &mut Leaves) -> Step
    requires room { stations_of_answer answer.now + stations_in stack.old ≤ 256 }
    requires some { IsOfSome answer.now }
    requires out { out.old ≡ [] }
    ensures { LeftBy (answer_result_of (Ok answer.now)) stack.old stack.new out.new result }
{
    match answer {
        Answer::Alike { leaf } => {
            out.push(*leaf);
            settle(stack, out)
        }
        Answer::Split { left, right } => {
            stack.push(*right);
            stack.push(*left);
            settle(stack, out)
        }
    }
}

/// Moves the leaves of the groups of one station on top from the stack to the list.
fn settle(stack: &mut Stack, out: &mut Leaves) -> Step
    requires { length out.old + stations_in stack.old ≤ 256 }
    ensures stack { stack.new ≡ from_open (map a_group stack.old) }
    ensures leaves { out.new ≡ out.old ++ leaves_in (map a_group stack.old) }
    ensures step { result ≡ step_with stack.new }
{
    while let Some(top) = single_on(stack) {
        stack.pop();
        out.push(top.leaf());
    }
    match stack.top() {
        Some(_) => Step::Went,
        None => Step::Ended,
    }
}

/// The top, if it is of one station.
fn single_on(stack: &Stack) -> Option<RangedGroup>
    ensures some { IfSome result (λ top. (slice_get stack.now 0 ≡ Some top) × (stations_of top ≡ 1)) }
    ensures none { IfNone result (stack.now ≡ from_open (map a_group stack.now)) }
    ensures leaves { IfNone result (leaves_in (map a_group stack.now) ≡ []) }
{
    match stack.top() {
        Some(top) => {
            if top.group.count() == 1 {
                Some(top)
            } else {
                None
            }
        }
        None => None,
    }
}
