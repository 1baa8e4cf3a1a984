//! A group: the sum of the values that stations send in one word, as a count of stations and fifteen limbs.

ghost use Rattle.std.specs.Prelude.{◌≡◌, ◌+◌, ◌-◌, ◌*◌, ◌/◌, ◌%◌, ◌^◌, ◌<◌, ◌≤◌, ◌==◌, ◌||◌, ℕ, IfOk, IfSome, OnOk, length, map, nat_lt, not, slice_index};
ghost use Rattle.std.specs.List.{range_with_len};
ghost use Rattle.dc_spec.specs.Groups.{Group as group_record, divided, equal_value, first_limb_where, group_of, limb, mean, minus, total};
ghost use Rattle.dc_spec.specs.Values.{number_of};
ghost use Rattle.dc_field.specs.GroupAnswers.{told_group, told_rest};
ghost use Rattle.dc_field.specs.IsGroup.{IsGroup};

use crate::value::Value;
use crate::word::Word;
use std::marker::Model;

/// A count from 0 to 256 and fifteen limbs, each at most 255 times the count; seen by contracts as the record of both.
#[derive(Clone, Copy, Debug)]
pub struct Group {
    count: u16,
    limbs: [u16; 15],
}

impl Model for Group {
    ghost use Rattle.dc_spec.specs.Groups.{Group as group_record};
    ghost use Rattle.dc_field.specs.IsGroup.{IsGroup};

    ghost Value = { group_record };

    ghost view = { λ g. record { count = g.count; limbs = g.limbs } };

    ghost invariant = { λ g. IsGroup (record { count = g.count; limbs = g.limbs }) };

    ghost inverse = { λ g. record { count = g.count; limbs = g.limbs } };
}

/// The first fault of a word that is not a group.
#[derive(Clone, Copy, Debug, PartialEq, Eq)]
pub enum BadGroup {
    /// The count is above 256.
    Count { seen: u32 },
    /// This limb, from 1, is above 255 times the count.
    Limb { l: u8, seen: u32 },
}

/// The first fault of a group that is not a part of a whole.
#[derive(Clone, Copy, Debug, PartialEq, Eq)]
pub enum BadSplit {
    /// The part's count is 0 or above that of the whole.
    Count { whole: u16, part: u16 },
    /// The part has more of this limb, from 1, than the whole, or leaves more than 255 for each of the rest.
    Limb { l: u8, whole: u16, part: u16 },
}

impl Group {
    /// The group that a word carries: symbol 0 is the count, symbols 1 to 15 are the limbs.
    #[tactic(auto, unfolding(dc_spec::specs::Groups::group_of))]
    pub fn of_word(w: &Word) -> Result<Group, BadGroup>
        ensures { told_group result ≡ group_of w.now }
    {
        let numbers = w.numbers();
        let count = numbers[0];
        if count > 256 {
            return Err(BadGroup::Count { seen: count });
        }
        let limbs = &numbers[1..];
        match first_high(limbs, 255 * count) {
            Some(i) => Err(BadGroup::Limb {
                l: i as u8 + 1,
                seen: limbs[i],
            }),
            None => Ok(Group {
                count: count as u16,
                limbs: narrowed(limbs),
            }),
        }
    }

    pub fn count(&self) -> u16
        ensures value { result ≡ self.now.count }
        ensures group { IsGroup self.now }
    {
        self.count
    }

    /// Limb number `l`, from 1.
    pub fn limb(&self, l: usize) -> u16
        requires first { 1 ≤ l }
        requires last { l ≤ 15 }
        ensures { result ≡ limb self.now (l - 1) }
    {
        self.limbs[l - 1]
    }

    /// The limbs as the digits of one number.
    pub fn total(&self) -> u128
        ensures { result ≡ total self.now }
    {
        number_from(&self.limbs)
    }

    /// The total divided by the count and rounded down; none at count 0.
    pub fn mean(&self) -> Option<u128>
        ensures mean { result ≡ mean self.now }
        ensures below { IfSome result (λ m. m < 256 ^ 15) }
    {
        if self.count == 0 {
            None
        } else {
            Some(self.total() / u128::from(self.count))
        }
    }

    /// The whole without a part.
    #[tactic(auto, unfolding(dc_spec::specs::Groups::minus, dc_spec::specs::Values::fifteen))]
    pub fn minus(&self, part: &Group) -> Result<Group, BadSplit>
        ensures rest { told_rest result ≡ minus self.now part.now }
        ensures some { OnOk result (1 ≤ part.now.count) }
        ensures count { IfOk result (λ rest. rest.count + part.now.count ≡ self.now.count) }
        ensures total { IfOk result (λ rest. total rest + total part.now ≡ total self.now) }
    {
        if part.count == 0 || part.count > self.count {
            return Err(BadSplit::Count {
                whole: self.count,
                part: part.count,
            });
        }
        let count = self.count - part.count;
        match first_unfit(&self.limbs, &part.limbs, 255 * count) {
            Some(i) => Err(BadSplit::Limb {
                l: i as u8 + 1,
                whole: self.limbs[i],
                part: part.limbs[i],
            }),
            None => Ok(Group {
                count,
                limbs: differences(&self.limbs, &part.limbs),
            }),
        }
    }

    /// The value that all stations of the group sent, if they may all have sent the same.
    #[tactic(auto, unfolding(dc_spec::specs::Groups::equal_value, dc_spec::specs::Values::fifteen))]
    pub fn equal_value(&self) -> Option<Value>
        ensures { result ≡ equal_value self.now }
    {
        if self.count == 0 {
            return None;
        }
        match first_uneven(&self.limbs, self.count) {
            Some(_) => None,
            None => Some(Value {
                bytes: quotients(&self.limbs, self.count),
            }),
        }
    }
}

/// The number that limbs spell as digits in base 256.
fn number_from(limbs: &[u16; 15]) -> u128
    requires { (i : ℕ) → slice_index limbs.now i ≤ 255 * 256 }
    ensures { result ≡ number_of limbs.now }
{
    let mut number = 0u128;
    for limb in limbs {
        number = number * 256 + u128::from(*limb);
    }
    number
}

/// The place of the first limb above a bound.
#[tactic(auto, unfolding(dc_spec::specs::Groups::first_limb_where))]
fn first_high(limbs: &[u32], bound: u32) -> Option<usize>
    requires { length limbs.now ≡ 15 }
    ensures place { result ≡ first_limb_where (λ i. nat_lt bound (slice_index limbs.now i)) }
    ensures found { IfSome result (λ i. i < 15) }
{
    (0..15).find(|i| bound < limbs[*i])
}

/// The place of the first limb that a part has more of than the whole, or that leaves more than a bound.
#[tactic(auto, unfolding(dc_spec::specs::Groups::first_limb_where))]
fn first_unfit(whole: &[u16; 15], part: &[u16; 15], bound: u16) -> Option<usize>
    ensures place { result
        ≡ first_limb_where (λ i. nat_lt (slice_index whole.now i) (slice_index part.now i)
        || nat_lt bound (slice_index whole.now i - slice_index part.now i)) }
    ensures found { IfSome result (λ i. i < 15) }
{
    (0..15).find(|i| whole[*i] < part[*i] || bound < whole[*i] - part[*i])
}

/// The place of the first limb that a count does not divide.
#[tactic(auto, unfolding(dc_spec::specs::Groups::first_limb_where))]
fn first_uneven(limbs: &[u16; 15], count: u16) -> Option<usize>
    requires { 0 < count }
    ensures { result ≡ first_limb_where (λ i. not (slice_index limbs.now i % count == 0)) }
{
    (0..15).find(|i| limbs[*i] % count != 0)
}

/// The limbs as sixteen-bit numbers.
fn narrowed(limbs: &[u32]) -> [u16; 15]
    requires count { length limbs.now ≡ 15 }
    requires small { (i : ℕ) → slice_index limbs.now i < 2 ^ 16 }
    ensures { result ≡ limbs.now }
{
    let mut narrow = [0u16; 15];
    for i in 0..15 {
        narrow[i] = limbs[i] as u16;
    }
    narrow
}

/// The limbs of a whole minus those of a part.
fn differences(whole: &[u16; 15], part: &[u16; 15]) -> [u16; 15]
    requires { (i : ℕ) → slice_index part.now i ≤ slice_index whole.now i }
    ensures { result
        ≡ map (λ i. slice_index whole.now i - slice_index part.now i) (range_with_len 0 15) }
{
    let mut rest = [0u16; 15];
    for i in 0..15 {
        rest[i] = whole[i] - part[i];
    }
    rest
}

/// The limbs divided by a count.
fn quotients(limbs: &[u16; 15], count: u16) -> [u8; 15]
    requires some { 0 < count }
    requires small { (i : ℕ) → slice_index limbs.now i ≤ 255 * count }
    ensures { result ≡ map (λ i. slice_index limbs.now i / count) (range_with_len 0 15) }
{
    let mut bytes = [0u8; 15];
    for i in 0..15 {
        bytes[i] = (limbs[i] / count) as u8;
    }
    bytes
}
