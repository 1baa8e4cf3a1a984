//! The limits of a session and of its files, each written once for all code.

ghost use Rattle.std.specs.Prelude.{◌≡◌};
ghost use Rattle.dc_spec.specs.Limits.{most_stations, most_words, most_pads, most_message, most_shorts, most_longs, most_coins, most_terms, transcript_limit, manifest_limit, key_file_limit, stream_limit, script_limit, permutation_limit, wanted_words_limit};

/// How many stations a net has at most.
pub const MOST_STATIONS: u16 = 256;

/// How many words, one a round, a session has at most.
pub const MOST_WORDS: u16 = 4096;

/// How many first and second pads a key file has at most, all pairs together.
pub const MOST_PADS: usize = 1 << 26;

/// How many bytes a message has at most.
pub const MOST_MESSAGE: usize = 3838;

/// How many values a stream has at most.
pub const MOST_SHORTS: usize = 4096;

/// How many messages a stream has at most.
pub const MOST_LONGS: usize = 256;

/// How many coins a stream has at most.
pub const MOST_COINS: usize = 4096;

/// How many terms the rules of a script have at most, all words together.
pub const MOST_TERMS: usize = 524288;

/// How many bytes of a transcript are read at most.
pub const TRANSCRIPT_LIMIT: u64 = 134217728;

/// How many bytes of a manifest are read at most.
pub const MANIFEST_LIMIT: u64 = 1048576;

/// How many bytes of a key file are read at most.
pub const KEY_FILE_LIMIT: u64 = 269484032;

/// How many bytes of a stream are read at most.
pub const STREAM_LIMIT: u64 = 4194304;

/// How many bytes of a script are read at most.
pub const SCRIPT_LIMIT: u64 = 134217728;

/// How many bytes of a permutation are read at most.
pub const PERMUTATION_LIMIT: u64 = 4096;

/// How many bytes of wanted words are read at most.
pub const WANTED_WORDS_LIMIT: u64 = 1048576;

/// Each limit of the code is the one that the specifications name. A call does nothing.
pub fn limits_are_those_of_specifications()
    ensures stations { MOST_STATIONS ≡ most_stations }
    ensures words { MOST_WORDS ≡ most_words }
    ensures pads { MOST_PADS ≡ most_pads }
    ensures message { MOST_MESSAGE ≡ most_message }
    ensures shorts { MOST_SHORTS ≡ most_shorts }
    ensures longs { MOST_LONGS ≡ most_longs }
    ensures coins { MOST_COINS ≡ most_coins }
    ensures terms { MOST_TERMS ≡ most_terms }
    ensures transcript { TRANSCRIPT_LIMIT ≡ transcript_limit }
    ensures manifest { MANIFEST_LIMIT ≡ manifest_limit }
    ensures key_file { KEY_FILE_LIMIT ≡ key_file_limit }
    ensures stream { STREAM_LIMIT ≡ stream_limit }
    ensures script { SCRIPT_LIMIT ≡ script_limit }
    ensures permutation { PERMUTATION_LIMIT ≡ permutation_limit }
    ensures wanted_words { WANTED_WORDS_LIMIT ≡ wanted_words_limit }
{}
