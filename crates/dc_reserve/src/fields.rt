//! The fields that a reservation word grants.

ghost use Rattle.std.specs.Prelude.{◌≡◌, ℕ, ◌-◌, ◌<◌, ◌==◌, ◌≤◌, IfSome, nat_le, slice_index};
ghost use Rattle.std.specs.List.{find, range_with_len};
ghost use Rattle.dc_station_rules.specs.Cycles.{granted};
ghost use Rattle.dc_reserve.specs.Fields.{fields_of, has_field};

use dc_field::Word;
use std::marker::Model;

/// A set of fields, seen by contracts as sixteen flags.
#[derive(Clone, Copy, Debug)]
pub struct Fields {
    flags: [bool; 16],
}

impl Model for Fields {
    ghost use Rattle.std.specs.Prelude.{Bool, List};

    ghost Value = { List Bool };

    ghost view = { λ f. f.flags };

    ghost inverse = { λ l. record { flags = l } };
}

/// The fields whose symbol is exactly 1.
pub fn granted(w: &Word) -> Fields
    ensures flags { (field : ℕ) → field < 16 →
        has_field result field ≡ (slice_index w.now field == 1) }
    ensures fields { fields_of result ≡ granted w.now }
{
    let numbers = w.numbers();
    let mut flags = [false; 16];
    for field in 0..16 {
        flags[field] = numbers[field] == 1;
    }
    Fields { flags }
}

impl Fields {
    /// Whether field `f` is one of them.
    pub fn has(&self, f: u8) -> bool
        requires { f < 16 }
        ensures { result ≡ has_field self.now f }
    {
        self.flags[f as usize]
    }

    /// The least of them at or above `f`.
    pub fn from(&self, f: u8) -> Option<u8>
        ensures least { result ≡ find (λ field. nat_le f field) (fields_of self.now) }
        ensures field { IfSome result (λ field. field < 16) }
    {
        first_from(&self.flags, f)
    }
}

/// The first flag that is set, from a place on.
fn first_from(flags: &[bool; 16], f: u8) -> Option<u8>
    ensures first { result ≡ find (has_field flags.now) (range_with_len f (16 - f)) }
    ensures field { IfSome result (λ field. field < 16) }
{
    (f..16).find(|field| flags[*field as usize])
}
