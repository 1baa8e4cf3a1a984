//! Laws of the formats. These functions do nothing: each one's contract is a law that callers get by a
//! call.

ghost use Rattle.dc_formats.specs.Laws.{TextFilesTellLines, TranscriptsTellContent, KeyFilesTellContent, SeedFilesTellContent, StreamsTellContent, ScriptsTellContent, ImagesTellContent, WantedWordsTellContent, FramesTellContent, StreamsAreText, ScriptsAreText, ImagesAreText, WantedWordsAreText, TranscriptsAreShort, TranscriptsAreWithin, KeyFilesAreWithin, SeedFilesAreWithin, StreamsAreWithin, ScriptsAreWithin, ImagesAreWithin, WantedWordsAreWithin, TextFilesHaveLines, EndedLinesAreFile};

/// A text file can be cut into lines in one way.
#[tactic(auto, using(crate::proofs::TextLaws::lines_tell))]
pub fn text_files_tell_lines()
    ensures { TextFilesTellLines }
{}

/// Cutting a text file at its line feeds gives its lines, and lines that all have their end make up their file.
#[tactic(auto, using(crate::proofs::FileLines::lines_of_text_file, crate::proofs::FileLines::text_file_of_lines))]
pub fn text_files_are_their_lines()
    ensures cut { TextFilesHaveLines }
    ensures joined { EndedLinesAreFile }
{}

/// The bytes of a transcript tell the numbers of stations and rounds and all words.
#[tactic(auto, using(crate::proofs::BinaryLaws::transcript_tells))]
pub fn transcripts_tell_content()
    ensures { TranscriptsTellContent }
{}

/// The bytes of a key file tell the numbers of stations and words, the pairs and all pads.
#[tactic(auto, using(crate::proofs::BinaryLaws::keys_tell))]
pub fn key_files_tell_content()
    ensures { KeyFilesTellContent }
{}

/// The bytes of a key file of seeds tell the numbers of stations and words, and the pairs with their
/// seeds.
#[tactic(auto, using(crate::proofs::BinaryLaws::seeds_tell))]
pub fn seed_files_tell_content()
    ensures { SeedFilesTellContent }
{}

/// The bytes of a stream file tell its shorts, longs and coins.
#[tactic(auto, using(crate::proofs::TextLaws::stream_tells))]
pub fn streams_tell_content()
    ensures { StreamsTellContent }
{}

/// The bytes of a script file tell its version, and for each round who says what, and what is
/// delivered, each word with its terms.
#[tactic(auto, using(crate::proofs::ScriptLaws::script_tells))]
pub fn scripts_tell_content()
    ensures { ScriptsTellContent }
{}

/// The bytes of a file of images tell the list.
#[tactic(auto, using(crate::proofs::TextLaws::images_tell))]
pub fn images_tell_content()
    ensures { ImagesTellContent }
{}

/// The bytes of a file of wanted words tell the words.
#[tactic(auto, using(crate::proofs::TextLaws::wanted_tell))]
pub fn wanted_words_tell_content()
    ensures { WantedWordsTellContent }
{}

/// The bytes of frames sent one after the other tell the frames.
#[tactic(auto, using(crate::proofs::BinaryLaws::frames_tell))]
pub fn frames_tell_content()
    ensures { FramesTellContent }
{}

/// No line of these files holds anything but printable characters.
#[tactic(auto, using(crate::proofs::SpelledLines::stream_is_text, crate::proofs::SpelledLines::script_is_text, crate::proofs::SpelledLines::images_are_text, crate::proofs::SpelledLines::wanted_is_text))]
pub fn spelled_texts_are_text_files()
    ensures streams { StreamsAreText }
    ensures scripts { ScriptsAreText }
    ensures images { ImagesAreText }
    ensures wanted_words { WantedWordsAreText }
{}

/// No file of these formats is longer than its read limit, a script where a net can have its
/// rounds. A transcript has at most half of its limit and eight bytes.
#[tactic(auto, using(crate::proofs::Sizes::transcript_size, crate::proofs::Sizes::keys_size, crate::proofs::Sizes::seeds_size, crate::proofs::Sizes::stream_size, crate::proofs::ScriptSizes::script_size, crate::proofs::Sizes::images_size, crate::proofs::Sizes::wanted_size, crate::proofs::Sizes::transcript_short))]
pub fn spelled_files_are_within_limits()
    ensures transcripts { TranscriptsAreWithin }
    ensures key_files { KeyFilesAreWithin }
    ensures seed_files { SeedFilesAreWithin }
    ensures streams { StreamsAreWithin }
    ensures scripts { ScriptsAreWithin }
    ensures images { ImagesAreWithin }
    ensures wanted_words { WantedWordsAreWithin }
    ensures short_transcripts { TranscriptsAreShort }
{}
