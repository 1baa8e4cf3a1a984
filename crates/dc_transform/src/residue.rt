//! Sums and products of residues modulo 65537.

ghost use Rattle.std.specs.Prelude.{◌≡◌, ◌+◌, ◌*◌, ◌%◌, ◌<◌, ◌≤◌};
ghost use Rattle.dc_transform_rules.specs.Residues.{plus, times, minus_one};

/// The sum of two residues.
#[tactic(auto, unfolding(dc_transform_rules::specs::Residues::plus))]
pub(crate) fn sum_of(x: u32, y: u32) -> u32
    requires x { x < 65537 }
    requires y { y < 65537 }
    ensures value { result ≡ plus x y }
    ensures small { result < 65537 }
{
    reduced_once(x + y)
}

/// The difference of two residues.
#[tactic(auto, unfolding(dc_transform_rules::specs::Residues::plus, dc_transform_rules::specs::Residues::times))]
pub(crate) fn difference_of(x: u32, y: u32) -> u32
    requires x { x < 65537 }
    requires y { y < 65537 }
    ensures value { result ≡ plus x (times minus_one y) }
    ensures small { result < 65537 }
{
    reduced_once(x + 65537 - y)
}

/// The product of two residues of which the second is not 65536, so that it fits 32 bits.
#[tactic(auto, unfolding(dc_transform_rules::specs::Residues::times))]
pub(crate) fn product_of(x: u32, c: u32) -> u32
    requires x { x < 65537 }
    requires c { c < 65536 }
    ensures value { result ≡ times c x }
    ensures small { result < 65537 }
{
    reduced(x * c)
}

/// The product of any two residues.
#[tactic(auto, unfolding(dc_transform_rules::specs::Residues::times))]
pub(crate) fn wide_product_of(x: u32, c: u32) -> u32
    requires x { x < 65537 }
    requires c { c < 65537 }
    ensures value { result ≡ times c x }
    ensures small { result < 65537 }
{
    let product = u64::from(x) * u64::from(c);
    reduced_once((product & 0xffff) as u32 + 65537 - (product >> 16) as u32)
}

/// What a number leaves modulo 65537. Since 2^16 is -1, its high 16 bits count as negative.
fn reduced(n: u32) -> u32
    ensures { result ≡ n % 65537 }
{
    reduced_once((n & 0xffff) + 65537 - (n >> 16))
}

/// What a number below 2 * 65537 leaves modulo 65537.
fn reduced_once(n: u32) -> u32
    requires { n < 131074 }
    ensures { result ≡ n % 65537 }
{
    if n >= 65537 { n - 65537 } else { n }
}
