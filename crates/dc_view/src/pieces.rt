//! Many lines of one kind, filled into a buffer from a place on. The place after the lines is
//! given.

ghost use Rattle.std.specs.Prelude.{◌≡◌, ◌+◌, ◌*◌, ◌-◌, ◌≤◌, ◌<◌, ◌++◌, length, codes, decimal, filter, zip, take, All};
ghost use Rattle.std.specs.List.{flat_map, enumerate_from, range_with_len};
ghost use Rattle.dc_spec.specs.Lists.{is_among};
ghost use Rattle.dc_spec.specs.Text.{line};
ghost use Rattle.dc_spec.specs.Words.{IsSymbol};
ghost use Rattle.dc_formats.specs.WordLines.{station_word_line, pair_word_line, items_of_round};
ghost use Rattle.dc_run_texts.specs.View.{edge_line};
ghost use Rattle.dc_print.specs.Filling.{Fills};

use dc_field::Word;
use dc_graph::Coalition;
use dc_print::{LINE_BYTES, fill_number_line, fill_numbers_line, fill_station_line};

/// The words of a round, each with its station's number.
pub(crate) fn fill_published(buffer: &mut [u8], at: usize, words: &[Word]) -> usize
    requires most { length words.now ≤ 256 }
    requires room { at + LINE_BYTES * length words.now ≤ length buffer.old }
    ensures text { Fills (flat_map (λ w. station_word_line (codes "word ") w.0 w.1)
        (enumerate_from 0 words.now)) at buffer.old buffer.new result }
    ensures most { result ≤ at + LINE_BYTES * length words.now }
{
    let mut end = at;
    for (i, w) in words.iter().enumerate() {
        end = fill_station_line(buffer, end, b"word ", i as u16, w);
    }
    end
}

/// The words of some stations, each with its station's number.
pub(crate) fn fill_received(buffer: &mut [u8], at: usize, stations: &[u16], words: &[Word]) -> usize
    requires room { at + LINE_BYTES * length words.now ≤ length buffer.old }
    ensures { Fills (flat_map (λ g. station_word_line (codes "got ") g.0 g.1)
        (zip stations.now words.now)) at buffer.old buffer.new result }
{
    let mut end = at;
    for j in 0..stations.len().min(words.len()) {
        end = fill_station_line(buffer, end, b"got ", stations[j], &words[j]);
    }
    end
}

/// Edges.
pub(crate) fn fill_edges(buffer: &mut [u8], edges: &[(u16, u16)]) -> usize
    requires { LINE_BYTES * length edges.now ≤ length buffer.old }
    ensures { Fills (flat_map (λ e. edge_line e.0 e.1) edges.now) 0 buffer.old buffer.new result }
{
    let mut end = 0;
    for e in edges {
        end = fill_numbers_line(buffer, end, b"edge ", e.0, e.1);
    }
    end
}

/// The members of a coalition, below a number of stations.
pub(crate) fn fill_members(buffer: &mut [u8], coalition: &Coalition, stations: u16) -> usize
    requires { LINE_BYTES * stations ≤ length buffer.old }
    ensures { Fills (flat_map (λ i. line (codes "member " ++ decimal i))
        (filter (is_among coalition.now) (range_with_len 0 stations)))
        0 buffer.old buffer.new result }
{
    let mut end = 0;
    for i in 0..stations {
        if coalition.holds(i) {
            end = fill_number_line(buffer, end, b"member ", i);
        }
    }
    end
}
