//! Numbers in text.

ghost use Rattle.std.specs.Prelude.{◌≡◌, ◌^◌, ◌<◌, ℕ, IfSome, Some};
ghost use Rattle.std.specs.Fmt.{decimal};
ghost use Rattle.dc_field.specs.NumberInText.{number_in};

use itoa::Buffer;

/// The number that a text spells in decimal, without a sign and without leading zeros: the text
/// has to be what the number is written as. None too where it is above `2^32 - 1`.
pub fn read_decimal(b: &[u8]) -> Option<u32>
    ensures exact { result ≡ number_in b.now }
    ensures found { IfSome result (λ n. b.now ≡ decimal n) }
    ensures only { (n : ℕ) → n < 2 ^ 32 → b.now ≡ decimal n → result ≡ Some n }
{
    let text = match std::str::from_utf8(b) {
        Ok(text) => text,
        Err(_) => return None,
    };
    let number = match text.parse::<u32>() {
        Ok(number) => number,
        Err(_) => return None,
    };
    let mut buffer = Buffer::new();
    if buffer.format(number).as_bytes() == b {
        Some(number)
    } else {
        None
    }
}
