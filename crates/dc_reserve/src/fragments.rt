//! The fragments of a message.

ghost use Rattle.std.specs.Prelude.{◌≡◌, ◌+◌, ◌-◌, ◌*◌, ◌<◌, ◌≤◌, length, slice_index};
ghost use Rattle.dc_station_rules.specs.Bursts.{burst_bytes, fragment, fragment_count};

use dc_field::{Sym, Word};

/// How many fragments a message of `m` bytes has: fifteen bytes each, two of them for the length.
pub fn fragment_count(m: u16) -> u16
    ensures { result ≡ fragment_count m }
{
    (u32::from(m) + 2).div_ceil(15) as u16
}

/// Fragment number `i` of a message, from 0: symbol 0 is how many fragments are left, this one
/// included, the other symbols are fifteen bytes.
pub fn fragment(bytes: &[u8], i: u16) -> Word
    requires message { length bytes.now ≤ 3838 }
    requires below { i < fragment_count (length bytes.now) }
    ensures { result ≡ fragment bytes.now i }
{
    let count = fragment_count(bytes.len() as u16);
    let mut word = Word::zero();
    word.set(0, symbol(count - i));
    for l in 1..16 {
        let byte = burst_byte(bytes, 15 * i as usize + l - 1);
        word.set(l, symbol(u16::from(byte)));
    }
    word
}

/// Byte number `k` that the fragments carry: two length bytes, the message, zeros.
fn burst_byte(bytes: &[u8], k: usize) -> u8
    requires { length bytes.now ≤ 3838 }
    ensures { result ≡ slice_index (burst_bytes bytes.now) k }
{
    if k == 0 {
        return (bytes.len() / 256) as u8;
    }
    if k == 1 {
        return (bytes.len() % 256) as u8;
    }
    if k - 2 < bytes.len() { bytes[k - 2] } else { 0 }
}

/// The symbol with a small number.
fn symbol(x: u16) -> Sym
    ensures { result ≡ x }
{
    Sym::new(u32::from(x)).unwrap()
}
