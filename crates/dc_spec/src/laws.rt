//! Laws of symbols, and of words in bytes. The functions do nothing; each one's contract is a law.

ghost use Rattle.dc_spec.specs.Laws.{InverseInverts, BytesSpellWords, BytesSpellNumbers};

/// The inverse of a symbol inverts it.
pub fn inverse_inverts()
    ensures { InverseInverts }
{}

/// A word of sixteen symbols and a number of two bytes are read from their bytes.
pub fn bytes_spell_words()
    ensures words { BytesSpellWords }
    ensures numbers { BytesSpellNumbers }
{}
