//! What the calls of this crate ask of their lists, as tests.

ghost use Rattle.std.specs.Prelude.{◌≡◌, ◌<◌, ◌≤◌, ◌^◌, ◌↔◌, IsTrue, length, slice_index, EachIndex};
ghost use Rattle.dc_spec.specs.Symbols.{AreSymbols};
ghost use Rattle.dc_transform_rules.specs.Transforms.{size};

/// Whether each number is below 65537.
pub fn are_symbols(numbers: &[u32]) -> bool
    ensures { IsTrue result ↔ AreSymbols numbers.now }
{
    each_is_small(numbers)
}

/// As `are_symbols`, by the places of the list.
fn each_is_small(numbers: &[u32]) -> bool
    ensures { IsTrue result ↔ EachIndex numbers.now (λ k. slice_index numbers.now k < 65537) }
{
    numbers.iter().all(|x| *x < 65537)
}

/// Whether a list is 2^depth rows of `width` numbers.
pub fn has_rows(numbers: &[u32], width: usize, depth: usize) -> bool
    requires width { width ≤ 65536 }
    requires depth { depth ≤ 16 }
    ensures { IsTrue result ↔ (length numbers.now ≡ size width depth) }
{
    numbers.len() == width * number_of_rows(depth)
}

/// 2^depth.
fn number_of_rows(depth: usize) -> usize
    requires { depth ≤ 16 }
    ensures value { result ≡ 2 ^ depth }
    ensures small { result ≤ 65536 }
{
    1 << depth
}
