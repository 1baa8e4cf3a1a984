//! Which received words are added to which sums.

ghost use Rattle.std.specs.Prelude.{◌≡◌, ◌≤◌, ◌<◌, ◌^◌, ℕ};
ghost use Rattle.dc_fast_keys.specs.Walk.{level};

/// How often 2 divides a number, at most `most` times.
pub(crate) fn level_of(most: usize, n: usize) -> usize
    requires { most ≤ 12 }
    ensures value { result ≡ level most n }
    ensures small { result ≤ most }
{
    if most == 0 || n % 2 != 0 {
        0
    } else {
        level_of(most - 1, n / 2) + 1
    }
}

/// 2^level.
pub(crate) fn power_of(level: usize) -> usize
    requires { level ≤ 12 }
    ensures value { result ≡ 2 ^ level }
    ensures small { result ≤ 4096 }
{
    1 << level
}

/// A number of levels that is above each level whose power is below a number of words.
pub(crate) fn levels_of(words: usize) -> usize
    requires { words ≤ 4096 }
    ensures enough { (level : ℕ) → 2 ^ level < words → level < result }
    ensures most { result ≤ 12 }
{
    for level in 0..12 {
        if words <= power_of(level) {
            return level;
        }
    }
    12
}
