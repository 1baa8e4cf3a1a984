//! A symbol: a number below 65537, with sum modulo 65537.

ghost use Rattle.std.specs.Prelude.{◌≡◌, ◌+◌, ◌-◌, ◌*◌, ◌%◌, ◌<◌, IfSome, SomeIff};
ghost use Rattle.dc_spec.specs.Symbols.{symbol_inverse};
ghost use Rattle.dc_spec.specs.Words.{IsSymbol};

use std::marker::Model;

/// A number from 0 to 65536, seen by contracts as that number.
#[derive(Clone, Copy, Debug)]
pub struct Sym {
    number: u32,
}

impl Model for Sym {
    ghost use Rattle.std.specs.Prelude.{ℕ};
    ghost use Rattle.dc_spec.specs.Words.{IsSymbol};

    ghost Value = { ℕ };

    ghost view = { λ s. s.number };

    ghost invariant = { λ s. IsSymbol s.number };

    ghost inverse = { λ n. record { number = n } };
}

impl Sym {
    /// The symbol with this number, where there is one.
    pub fn new(x: u32) -> Option<Sym>
        ensures { SomeIff result (IsSymbol x) x }
    {
        if x < 65537 {
            Some(Sym { number: x })
        } else {
            None
        }
    }

    pub fn number(self) -> u32
        ensures value { result ≡ self }
        ensures symbol { IsSymbol result }
    {
        self.number
    }

    /// The sum modulo 65537.
    pub fn add(self, o: Sym) -> Sym
        ensures { result ≡ (self + o) % 65537 }
    {
        Sym {
            number: (self.number + o.number) % 65537,
        }
    }

    /// The difference modulo 65537.
    pub fn sub(self, o: Sym) -> Sym
        ensures { result ≡ (self + (65537 - o)) % 65537 }
    {
        Sym {
            number: (self.number + (65537 - o.number)) % 65537,
        }
    }

    /// What added to the symbol gives 0 modulo 65537.
    pub fn neg(self) -> Sym
        ensures { result ≡ (65537 - self) % 65537 }
    {
        Sym {
            number: (65537 - self.number) % 65537,
        }
    }

    /// The product modulo 65537.
    pub fn mul(self, o: Sym) -> Sym
        ensures { result ≡ (self * o) % 65537 }
    {
        let product = u64::from(self.number) * u64::from(o.number);
        Sym {
            number: (product % 65537) as u32,
        }
    }

    /// The symbol that gives 1 when this one is multiplied by it, and None exactly at 0. It is the
    /// power 65535, since each symbol but 0 has the power 65536 equal to 1. It is computed in the
    /// same steps for every symbol, without a table.
    pub fn inv(self) -> Option<Sym>
        ensures value { SomeIff result (0 < self) (symbol_inverse self) }
        ensures inverts { IfSome result (λ x. (self * x) % 65537 ≡ 1) }
    {
        let power = last_power(self);
        if self.number == 0 { None } else { Some(power) }
    }
}

/// The power 65535 of a symbol. Each step takes the exponent to twice the exponent and one more.
#[tactic(auto, unfolding(dc_spec::specs::Symbols::power_below))]
fn last_power(x: Sym) -> Sym
    ensures { result ≡ symbol_inverse x }
{
    let mut power = Sym { number: 1 };
    for _ in 0..16u8 {
        power = power.mul(power).mul(x);
    }
    power
}
