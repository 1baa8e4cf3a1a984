//! A value: fifteen bytes, which are also one number.

ghost use Rattle.std.specs.Prelude.{◌≡◌, ◌∷◌, ◌*◌, ◌^◌, ◌<◌, ◌≤◌, SomeIff, length, map, slice_index};
ghost use Rattle.std.specs.List.{range_with_len};
ghost use Rattle.dc_spec.specs.Values.{IsValue, contended_word, number_of, value_of};

use crate::sym::Sym;
use crate::word::Word;
use std::marker::Model;

/// Fifteen bytes, seen by contracts as their list.
#[derive(Clone, Copy, Debug, PartialEq, Eq)]
pub struct Value {
    /// The most significant byte first.
    pub bytes: [u8; 15],
}

impl Model for Value {
    ghost use Rattle.std.specs.Prelude.{ℕ, List};

    ghost Value = { List ℕ };

    ghost view = { λ v. v.bytes };

    ghost inverse = { λ l. record { bytes = l } };
}

impl Value {
    /// The word of `count` stations that all send this value.
    pub fn to_word(&self, count: u16) -> Word
        requires { count ≤ 256 }
        ensures { result ≡ contended_word self.now count }
    {
        let count = u32::from(count);
        let mut word = Word::zero();
        word.set(0, symbol(count));
        put_limbs(&mut word, &self.bytes, count);
        word
    }

    /// The bytes as one number.
    pub fn number(&self) -> u128
        ensures number { result ≡ number_of self.now }
        ensures value { IsValue self.now }
        ensures below { result < 256 ^ 15 }
    {
        number_from(&self.bytes)
    }

    /// The value with this number, where there is one.
    pub fn of_number(x: u128) -> Option<Value>
        ensures { SomeIff result (x < 256 ^ 15) (value_of x) }
    {
        if x < 1 << 120 {
            Some(Value { bytes: digits(x) })
        } else {
            None
        }
    }
}

/// Sets symbols 1 to 15 to the count times each byte.
fn put_limbs(word: &mut Word, bytes: &[u8; 15], count: u32)
    requires count { count ≤ 256 }
    requires sixteen { length word.old ≡ 16 }
    ensures { word.new ≡ slice_index word.old 0 ∷ map (λ byte. count * byte) bytes.now }
{
    for l in 1..16 {
        word.set(l, symbol(count * u32::from(bytes[l - 1])));
    }
}

/// The symbol with a number that is known to be one.
fn symbol(x: u32) -> Sym
    requires { x < 65537 }
    ensures { result ≡ x }
{
    Sym::new(x).unwrap()
}

/// The number that bytes spell, the most significant first.
fn number_from(bytes: &[u8; 15]) -> u128
    ensures number { result ≡ number_of bytes.now }
    ensures value { IsValue bytes.now }
    ensures below { result < 256 ^ 15 }
{
    let mut number = 0u128;
    for byte in bytes {
        number = number * 256 + u128::from(*byte);
    }
    number
}

/// The last fifteen digits of a number in base 256.
fn digits(x: u128) -> [u8; 15]
    ensures { result ≡ value_of x }
{
    let mut bytes = [0u8; 15];
    for i in 0..15 {
        bytes[i] = ((x >> (8 * (14 - i))) % 256) as u8;
    }
    bytes
}
