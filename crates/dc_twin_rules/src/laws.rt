//! Laws of twins. The functions do nothing; each one's contract is a law.

ghost use Rattle.dc_twin_rules.specs.Laws.{AdmitsAsComputed, TwinMovesStreams, TwinKeepsRounds, TwinIsNet, TwinIsAlike, TwinKeepsView, TwinAdmitsInverse, TwinOfTwin};

/// The test whether a net admits a permutation is right.
#[tactic(auto, using(crate::proofs::Admitting::admits_is_computed))]
pub fn admits_as_computed()
    ensures { AdmitsAsComputed }
{}

/// In a twin the image of a station has the stream of that station.
pub fn twin_moves_streams()
    ensures { TwinMovesStreams }
{}

/// Where all honest stations receive alike, each round of a twin is that round of its net.
pub fn twin_keeps_rounds()
    ensures { TwinKeepsRounds }
{}

/// A twin is a net of the files too.
pub fn twin_is_net()
    ensures { TwinIsNet }
{}

/// Where all honest stations of a net receive alike, those of a twin do.
pub fn twin_is_alike()
    ensures { TwinIsAlike }
{}

/// Where all honest stations receive alike, the view of a twin is that of its net.
pub fn twin_keeps_view()
    ensures { TwinKeepsView }
{}

/// A twin admits the inverse permutation.
pub fn twin_admits_inverse()
    ensures { TwinAdmitsInverse }
{}

/// The twin of a twin by the inverse permutation is the first net.
pub fn twin_of_twin()
    ensures { TwinOfTwin }
{}
