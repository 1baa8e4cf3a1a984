//! Key files of seeds: in place of the pads of a pair, the seed that they are generated from.

use dc_field::Items;
use std::marker::Model;

/// A pair of stations with the seed of its pads: its pads are generated with this seed as the base.
#[derive(Clone, Copy, Debug)]
pub struct SeedPair {
    /// The smaller end.
    pub u: u16,
    /// The larger end.
    pub v: u16,
    /// The seed.
    pub seed: [u8; 32],
}

/// A list of pairs with their seeds. In a key file they are in rising order of their ends.
pub type SeedPairs = Items<SeedPair>;

/// The pairs that share pads in a session, each once, in rising order of their ends, with a seed
/// each. All pads that the seeds give are together at most 2^26 symbols. The limits are this
/// project's own.
#[derive(Drop)]
pub struct SeedFile {
    /// The number of stations of the session, 1 to 256.
    pub stations: u16,
    /// The number of words (one a round) of the session, 1 to 4096.
    pub words: u16,
    /// The pairs, each with its smaller end first.
    pub pairs: SeedPairs,
}

impl Model for SeedPair {
    ghost use Rattle.dc_spec.specs.Pads.{SeedPair as Seeded};

    ghost Value = { Seeded };

    ghost view = { λ p. record { u = p.u; v = p.v; seed = p.seed } };

    ghost inverse = { λ p. record { u = p.u; v = p.v; seed = p.seed } };
}

impl Model for SeedFile {
    ghost use Rattle.dc_spec.specs.Pads.{Seeds};
    ghost use Rattle.dc_formats.specs.SeedFile.{IsSeeds};

    ghost Value = { Seeds };

    ghost view = { λ f. record { stations = f.stations; words = f.words; pairs = f.pairs } };

    ghost invariant = { λ f. IsSeeds (record { stations = f.stations; words = f.words; pairs = f.pairs }) };
}

/// Asks of a value that it may be sent to another thread and shared with it.
fn needs_threads<T: Send + Sync>(_value: &T) {}

/// A key file of seeds may be sent to another thread and shared with it.
fn seed_file_meets_threads(f: &SeedFile) {
    needs_threads(f);
}
