//! The sizes of a recorded session, by the header and the length of its file.

ghost use Rattle.std.specs.Prelude.{◌≡◌, ◌*◌, ◌≤◌, IfOk};
ghost use Rattle.dc_spec.specs.Limits.{most_stations, most_words};
ghost use Rattle.dc_superpose.specs.Reading.{transcript_of, sized, body_of};
ghost use Rattle.dc_superpose.specs.Sizes.{session_of_sizes, AreSizes};

use crate::fault::TranscriptFault;
use dc_field::{MOST_STATIONS, MOST_WORDS};

/// How many stations and rounds a session has, and how many bytes its file.
#[derive(Clone, Copy)]
pub struct Sizes {
    /// 1 to 256.
    pub stations: u16,
    /// 1 to 4096.
    pub rounds: u16,
    /// The bytes of the header and of all words.
    pub due: usize,
}

/// The sizes of the session of a file, where its first eight bytes and its length pass their tests.
#[tactic(auto, unfolding(crate::specs::Reading::transcript_of))]
pub fn read_sizes(b: &[u8]) -> Result<Sizes, TranscriptFault>
    ensures rest { session_of_sizes b.now result ≡ transcript_of b.now }
    ensures limits { IfOk result (λ sizes. AreSizes b.now sizes) }
{
    if b.len() < 8 {
        return Err(TranscriptFault::Truncated {
            at: b.len() as u64,
            need: 8,
        });
    }
    if !b.starts_with(b"DCT1") {
        return Err(TranscriptFault::Magic);
    }
    let stations = u16::from_be_bytes([b[4], b[5]]);
    let rounds = u16::from_be_bytes([b[6], b[7]]);
    within_limits(b, stations, rounds)
}

/// Tests the two numbers of the header, then the length.
#[tactic(auto, unfolding(crate::specs::Reading::sized))]
fn within_limits(b: &[u8], stations: u16, rounds: u16) -> Result<Sizes, TranscriptFault>
    ensures rest { session_of_sizes b.now result ≡ sized b.now stations rounds }
    ensures limits { IfOk result (λ sizes. AreSizes b.now sizes) }
{
    if stations == 0 || MOST_STATIONS < stations {
        return Err(TranscriptFault::Stations { seen: stations });
    }
    if rounds == 0 || MOST_WORDS < rounds {
        return Err(TranscriptFault::Words { seen: rounds });
    }
    long_enough(b, stations, rounds)
}

/// Tests the length.
#[tactic(auto, unfolding(crate::specs::Reading::body_of))]
fn long_enough(b: &[u8], stations: u16, rounds: u16) -> Result<Sizes, TranscriptFault>
    requires some_stations { 1 ≤ stations }
    requires most_stations { stations ≤ most_stations }
    requires some_rounds { 1 ≤ rounds }
    requires most_rounds { rounds ≤ most_words }
    ensures rest { session_of_sizes b.now result ≡ body_of b.now stations rounds }
    ensures limits { IfOk result (λ sizes. AreSizes b.now sizes) }
{
    let due = 8 + 64 * (rounds as usize * stations as usize);
    if b.len() < due {
        return Err(TranscriptFault::Truncated {
            at: b.len() as u64,
            need: due as u64,
        });
    }
    Ok(Sizes {
        stations,
        rounds,
        due,
    })
}
