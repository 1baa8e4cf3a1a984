//! The changes of the pads of a pair.

ghost use Rattle.std.specs.Prelude.{◌≡◌, ◌+◌, ◌*◌, ◌/◌, ◌<◌, ◌≤◌, length, IfOk};
ghost use Rattle.dc_key_rules.specs.PairKeys.{symbols};
ghost use Rattle.dc_steering_rules.specs.Steerings.{first_difference as difference_of};
ghost use Rattle.dc_steer.specs.Changes.{changes_for};

use crate::differences::first_difference;
use crate::first_pads::first_changes;
use crate::flattening::symbols_of;
use crate::second_pads::second_changes;
use dc_field::{NoMemory, Syms, Words};
use std::alloc::Global;
use std::marker::Model;

/// Where two neighbours first received different symbols, and how the pads of their pair change.
/// Contracts see the protocol's record of a steering.
#[derive(Drop)]
pub struct PadChanges {
    /// The round of the first difference.
    pub round: u16,
    /// The place of the first difference in the word of that round, 0 to 15.
    pub symbol: u8,
    /// What is added to each first pad, modulo 65537: `16 * T` symbols in a session of T words.
    pub first: Syms,
    /// What is added to each second pad; `16 * T` symbols.
    pub second: Syms,
}

impl Model for PadChanges {
    ghost use Rattle.dc_steering_rules.specs.Steerings.{Steering};

    ghost Value = { Steering };

    ghost view = { λ c. record { round = c.round; symbol = c.symbol; first = c.first; second = c.second } };
}

/// The number of the first symbol in which two lists of as many words differ, and the number of their
/// symbols where they are the same.
pub fn first_differing(alloc: Global, cu: &Words, cv: &Words) -> Result<usize, NoMemory>
    requires { length cv.now ≡ length cu.now }
    ensures { IfOk result (λ p. p ≡ difference_of (symbols cu.now) (symbols cv.now)) }
{
    let cu = symbols_of(alloc, cu.as_slice())?;
    let cv = symbols_of(alloc, cv.as_slice())?;
    Ok(first_difference(&cu, &cv))
}

/// The changes of the pads of two neighbours, the smaller of which received `cu` and the larger `cv`,
/// with which each word of the sum after the round of their first difference changes by the wanted
/// word of that round. Both received 1 to 4096 words and not the same; there is a wanted word for
/// each later round. The rule is this project's own.
pub fn pad_changes(
    alloc: Global,
    cu: &Words,
    cv: &Words,
    wanted: &Words,
) -> Result<PadChanges, NoMemory>
    requires most { length cu.now ≤ 4096 }
    requires as_many { length cv.now ≡ length cu.now }
    requires differ { difference_of (symbols cu.now) (symbols cv.now) < 16 * length cu.now }
    requires wanted { difference_of (symbols cu.now) (symbols cv.now) / 16 + 1 + length wanted.now
        ≡ length cu.now }
    ensures { IfOk result (λ changes. changes ≡ changes_for cu.now cv.now wanted.now) }
{
    let cu = symbols_of(alloc, cu.as_slice())?;
    let cv = symbols_of(alloc, cv.as_slice())?;
    let wanted = symbols_of(alloc, wanted.as_slice())?;
    let p = first_difference(&cu, &cv);
    let second = second_changes(alloc, &cu, &cv, &wanted, p)?;
    let first = first_changes(alloc, &cu, &second)?;
    Ok(PadChanges {
        round: (p / 16) as u16,
        symbol: (p % 16) as u8,
        first: Syms::from_vec(first),
        second: Syms::from_vec(second),
    })
}
