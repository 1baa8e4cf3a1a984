//! Words read from text.

ghost use Rattle.std.specs.Prelude.{◌≡◌, ◌+◌, ◌<◌, ◌≤◌, List, ℕ, All, IfOk, IsTrue, Ok, length, map, position, is_none};
ghost use Rattle.dc_spec.specs.Words.{IsWord};
ghost use Rattle.dc_spec.specs.Text.{word_text};
ghost use Rattle.dc_field.specs.WordInText.{count_of, digit_in, numbers_of, symbol_at, word_of_text};

use crate::word::Word;

/// The first fault of a text that is not a word.
#[derive(Clone, Copy, Debug, PartialEq, Eq)]
pub enum WordFault {
    /// There are not eighty characters.
    Length {
        /// How many there are.
        seen: u64,
    },
    /// A character is not a lower-case hexadecimal digit.
    Digit {
        /// Which of the eighty, from 0.
        place: u8,
    },
    /// The number of five digits is above 65536.
    Symbol {
        /// Which of the sixteen, from 0.
        symbol: u8,
        /// The number that is there.
        seen: u32,
    },
}

/// The word that eighty digits spell: five lower-case hexadecimal digits a symbol.
pub fn read_word_text(b: &[u8]) -> Result<Word, WordFault>
    // What is read, or the first fault: the length, a character, a symbol.
    ensures exact { result ≡ word_of_text b.now }
    // What is read is spelled so.
    ensures found { IfOk result (λ w. b.now ≡ word_text w) }
    // What is spelled so is read.
    ensures only { (w : List ℕ) → IsWord w → b.now ≡ word_text w → result ≡ Ok w }
{
    read_text(b)
}

/// As `read_word_text`.
fn read_text(b: &[u8]) -> Result<Word, WordFault>
    ensures { result ≡ word_of_text b.now }
{
    if b.len() != 80 {
        return Err(WordFault::Length {
            seen: b.len() as u64,
        });
    }
    let digits = digits_of(b);
    if let Some(place) = first_no_digit(b, &digits) {
        return Err(WordFault::Digit { place: place as u8 });
    }
    match Word::of_numbers(numbers_of(&digits)) {
        Ok(w) => Ok(w),
        Err(fault) => Err(WordFault::Symbol {
            symbol: fault.symbol,
            seen: fault.seen,
        }),
    }
}

/// The digits of eighty characters, as numbers.
fn digits_of(b: &[u8]) -> [u8; 80]
    requires { length b.now ≡ 80 }
    ensures { result ≡ map count_of b.now }
{
    let mut digits = [0u8; 80];
    for i in 0..80 {
        digits[i] = count_of(b[i]);
    }
    digits
}

/// A lower-case hexadecimal digit as a number, and 16 for any other character.
pub(crate) fn count_of(c: u8) -> u8
    ensures { result ≡ count_of c }
{
    match c {
        b'0'..=b'9' => c - b'0',
        b'a'..=b'f' => c - b'a' + 10,
        _ => 16,
    }
}

/// The place of the first character that is not a digit. All are read again only where there is one.
fn first_no_digit(b: &[u8], digits: &[u8; 80]) -> Option<usize>
    requires { digits.now ≡ map count_of b.now }
    ensures { result ≡ position (λ c. is_none (digit_in c)) b.now }
{
    if greatest(digits) < 16 {
        return None;
    }
    b.iter().position(|c| count_of(*c) == 16)
}

/// The greatest of the numbers.
fn greatest(digits: &[u8; 80]) -> u8
    ensures { All (λ d. d ≤ result) digits.now }
{
    let mut most = 0;
    for d in digits {
        most = most.max(*d);
    }
    most
}

/// The sixteen numbers of eighty digits.
fn numbers_of(digits: &[u8; 80]) -> [u32; 16]
    ensures { result ≡ numbers_of digits.now }
{
    let mut numbers = [0u32; 16];
    for l in 0..16 {
        numbers[l] = symbol_at(digits, 5 * l);
    }
    numbers
}

/// The number of five digits.
fn symbol_at(digits: &[u8; 80], at: usize) -> u32
    requires { at + 5 ≤ 80 }
    ensures { result ≡ symbol_at digits.now at }
{
    let high = 65536 * u32::from(digits[at]) + 4096 * u32::from(digits[at + 1]);
    let middle = 256 * u32::from(digits[at + 2]) + 16 * u32::from(digits[at + 3]);
    high + middle + u32::from(digits[at + 4])
}
