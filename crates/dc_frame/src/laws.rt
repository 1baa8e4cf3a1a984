//! The law of frames.

ghost use Rattle.dc_frame.specs.Laws.{FramesAreRead};

use dc_spec::bytes_spell_words;

/// Does nothing. Its contract is the law that what is read of written frames is these frames.
pub fn frames_are_read()
    ensures { FramesAreRead }
{
    bytes_spell_words();
}
