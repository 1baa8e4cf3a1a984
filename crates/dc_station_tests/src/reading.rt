//! The parts of a line of a test's text.

use dc_field::{Sym, Word, read_decimal, read_word_text};

/// Part `n` of a line, from 0: parts are separated by one space.
pub(crate) fn part(line: &str, n: usize) -> Option<&str> {
    line.split(' ').nth(n)
}

/// The number that decimal digits spell.
pub(crate) fn number(text: &str) -> Option<u32> {
    read_decimal(text.as_bytes())
}

/// A number below 65536.
pub(crate) fn short_number(text: &str) -> Option<u16> {
    u16::try_from(number(text)?).ok()
}

/// A number below 256.
pub(crate) fn byte_number(text: &str) -> Option<u8> {
    u8::try_from(number(text)?).ok()
}

/// The number that at most thirty hexadecimal digits spell.
pub(crate) fn hex_number(text: &str) -> Option<u128> {
    if text.is_empty() || 30 < text.len() {
        return None;
    }
    let mut number = 0u128;
    for digit in text.as_bytes().iter() {
        let digit = char::from(*digit).to_digit(16)?;
        number = number.wrapping_mul(16).wrapping_add(u128::from(digit));
    }
    Some(number)
}

/// The word with these digits and zeros after them: five hexadecimal digits a symbol.
pub(crate) fn word(text: &str) -> Option<Word> {
    let mut digits = [48u8; 80];
    for (i, digit) in text.as_bytes().iter().enumerate() {
        if 80 <= i {
            return None;
        }
        digits[i] = *digit;
    }
    read_word_text(&digits).ok()
}

/// The word with these symbols, in decimal digits, and zeros after them.
pub(crate) fn word_of_symbols(text: &str) -> Option<Word> {
    let mut word = Word::zero();
    for (l, symbol) in text.split(' ').enumerate() {
        if 16 <= l {
            return None;
        }
        word.set(l, Sym::new(number(symbol)?)?);
    }
    Some(word)
}

/// Whether these are the bytes that hexadecimal digits spell, two for each.
pub(crate) fn are_bytes(bytes: &[u8], digits: &[u8]) -> bool {
    if digits.len() % 2 != 0 || digits.len() / 2 != bytes.len() {
        return false;
    }
    let letters = b"0123456789abcdef";
    for (i, byte) in bytes.iter().enumerate() {
        let high = letters[usize::from(*byte / 16)];
        let low = letters[usize::from(*byte % 16)];
        if digits[2 * i] != high || digits[2 * i + 1] != low {
            return false;
        }
    }
    true
}
