//! Laws of runs. The functions do nothing; each one's contract is a law.

ghost use Rattle.dc_net_rules.specs.Laws.{SumsAreAlike, AlikeAsComputed};

/// Where the script delivers the sum in every round, all honest stations receive alike.
pub fn sums_are_alike()
    ensures { SumsAreAlike }
{}

/// The test whether all honest stations receive alike is right.
#[tactic(auto, using(crate::proofs::Alike::alike_is_computed))]
pub fn alike_as_computed()
    ensures { AlikeAsComputed }
{}
