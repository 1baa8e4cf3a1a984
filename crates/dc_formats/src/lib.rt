//! The texts and file formats as functions from contents to bytes.
#![tactic(auto)]

mod laws;

pub use laws::{
    frames_tell_content, images_tell_content, key_files_tell_content, scripts_tell_content,
    seed_files_tell_content, spelled_files_are_within_limits, spelled_texts_are_text_files,
    streams_tell_content, text_files_are_their_lines, text_files_tell_lines,
    transcripts_tell_content, wanted_words_tell_content,
};
