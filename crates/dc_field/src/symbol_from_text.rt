//! A symbol read from text.

ghost use Rattle.std.specs.Prelude.{◌≡◌, ◌<◌, ℕ, IfSome, Some, length, map, position, is_none};
ghost use Rattle.dc_spec.specs.Words.{IsSymbol};
ghost use Rattle.dc_spec.specs.Text.{symbol_text};
ghost use Rattle.dc_field.specs.WordInText.{count_of, digit_in, symbol_at};
ghost use Rattle.dc_field.specs.SymbolInText.{symbol_of_text};

use crate::sym::Sym;
use crate::word_from_text::count_of;

/// The symbol that five lower-case hexadecimal digits spell. None where the text is not five such
/// digits, or their number is above 65536.
pub fn read_symbol_text(b: &[u8]) -> Option<Sym>
    ensures exact { result ≡ symbol_of_text b.now }
    ensures found { IfSome result (λ x. b.now ≡ symbol_text x) }
    ensures only { (x : ℕ) → IsSymbol x → b.now ≡ symbol_text x → result ≡ Some x }
{
    read_symbol(b)
}

/// As `read_symbol_text`.
fn read_symbol(b: &[u8]) -> Option<Sym>
    ensures { result ≡ symbol_of_text b.now }
{
    if b.len() != 5 {
        return None;
    }
    match first_no_digit(b) {
        Some(_) => None,
        None => Sym::new(number_of(b)),
    }
}

/// The place of the first character that is not a digit.
fn first_no_digit(b: &[u8]) -> Option<usize>
    ensures { result ≡ position (λ c. is_none (digit_in c)) b.now }
{
    b.iter().position(|c| count_of(*c) == 16)
}

/// The number of five digits.
fn number_of(b: &[u8]) -> u32
    requires { length b.now ≡ 5 }
    ensures { result ≡ symbol_at (map count_of b.now) 0 }
{
    let high = 65536 * u32::from(count_of(b[0])) + 4096 * u32::from(count_of(b[1]));
    let middle = 256 * u32::from(count_of(b[2])) + 16 * u32::from(count_of(b[3]));
    high + middle + u32::from(count_of(b[4]))
}
