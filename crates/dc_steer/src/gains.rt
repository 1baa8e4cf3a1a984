//! What the sums of a run gain.

ghost use Rattle.std.specs.Prelude.{◌≡◌, ◌+◌, length, drop, IfOk};
ghost use Rattle.dc_spec.specs.Words.{IsWord, AreWords, word_sub};
ghost use Rattle.dc_steer.specs.Gains.{gains as gains_of};

use dc_field::{NoMemory, Word, Words};
use std::alloc::Global;

/// What turns the sums of a run from round `from` on into wanted words: for each of these rounds the
/// wanted word minus the sum.
pub(crate) fn gains(
    alloc: Global,
    sums: &[Word],
    from: usize,
    wanted: &[Word],
) -> Result<Words, NoMemory>
    requires { from + length wanted.now ≡ length sums.now }
    ensures value { IfOk result (λ ws. ws ≡ gains_of (drop from sums.now) wanted.now) }
    ensures words { IfOk result (λ _. AreWords wanted.now) }
{
    let mut gains = Vec::with_capacity(alloc, wanted.len())?;
    for k in 0..wanted.len() {
        gains.push_reserved(gain(&sums[from + k], &wanted[k]));
    }
    Ok(Words::from_vec(gains))
}

/// A wanted word minus a sum.
fn gain(sum: &Word, wanted: &Word) -> Word
    ensures value { result ≡ word_sub wanted.now sum.now }
    ensures word { IsWord wanted.now }
{
    let _ = wanted.numbers();
    wanted.sub(sum)
}
