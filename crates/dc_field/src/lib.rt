//! Symbols, words, values, groups, numbers in text, and the list types that contracts see as plain lists.
#![tactic(auto)]

mod bytes_of_word;
mod group;
mod items;
mod limits;
mod list_fault;
mod number;
mod refusal;
mod sym;
mod symbol_from_text;
mod syms;
mod text;
mod text_of_word;
mod value;
mod word;
mod word_from_bytes;
mod word_from_text;

pub use bytes_of_word::word_bytes;
pub use group::{BadGroup, BadSplit, Group};
pub use items::{Bytes, Items, TryClone, Words};
pub use limits::{
    KEY_FILE_LIMIT, MANIFEST_LIMIT, MOST_COINS, MOST_LONGS, MOST_MESSAGE, MOST_PADS, MOST_SHORTS,
    MOST_STATIONS, MOST_TERMS, MOST_WORDS, PERMUTATION_LIMIT, SCRIPT_LIMIT, STREAM_LIMIT,
    TRANSCRIPT_LIMIT, WANTED_WORDS_LIMIT, limits_are_those_of_specifications,
};
pub use list_fault::{ListFault, ListKind};
pub use number::read_decimal;
pub use refusal::{NoMemory, Refusal};
pub use sym::Sym;
pub use symbol_from_text::read_symbol_text;
pub use syms::Syms;
pub use text::Text;
pub use text_of_word::{symbol_text, word_text};
pub use value::Value;
pub use word::Word;
pub use word_from_bytes::{SymFault, read_word, read_word_bytes};
pub use word_from_text::{WordFault, read_word_text};
