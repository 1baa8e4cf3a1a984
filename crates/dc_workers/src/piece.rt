//! A piece of a round's work.

ghost use Rattle.std.specs.Prelude.{◌≡◌};

use dc_field::Word;

/// Something that has one word. `of` is that word.
pub trait Piece {
    ghost use Rattle.std.specs.Prelude.{ℕ, List};

    ghost of: { Self → List ℕ };

    /// The word.
    fn word(&self) -> Word
        ensures { result ≡ Self.of self.now };
}
