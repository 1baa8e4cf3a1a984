//! The lines of a net: its numbers, its edges, its members.

ghost use Rattle.std.specs.Prelude.{◌≡◌, ◌++◌, ◌*◌, ◌≤◌, length, codes, decimal, filter};
ghost use Rattle.std.specs.List.{flat_map, range_with_len};
ghost use Rattle.dc_spec.specs.Lists.{is_among};
ghost use Rattle.dc_spec.specs.Text.{line};
ghost use Rattle.dc_edge.specs.Sink.{Puts};
ghost use Rattle.dc_run_texts.specs.View.{edge_line};
ghost use Rattle.dc_print.specs.Filling.{Fills};

use crate::pieces::{fill_edges, fill_members};
use dc_edge::{Failed, Sink};
use dc_graph::Coalition;
use dc_print::{LINE_BYTES, fill_bytes, fill_numbers_line};

/// How many lines one piece has at most.
const LINES_AT_ONCE: usize = 256;

/// Puts the first two lines of a view: its version, and the numbers of stations and words.
pub(crate) fn put_head<K: Sink>(stations: u16, words: u16, out: &mut K) -> Result<(), Failed>
    ensures { Puts (line (codes "view 1")
        ++ line (codes "net " ++ decimal stations ++ codes " " ++ decimal words))
        (K.state out.old) (K.state out.new) result }
{
    let mut buffer = [0u8; 2 * LINE_BYTES];
    let end = fill_head(&mut buffer, stations, words);
    out.put(&buffer[..end])
}

/// Fills in the first two lines of a view.
fn fill_head(buffer: &mut [u8], stations: u16, words: u16) -> usize
    requires { 2 * LINE_BYTES ≤ length buffer.old }
    ensures { Fills (line (codes "view 1")
        ++ line (codes "net " ++ decimal stations ++ codes " " ++ decimal words))
        0 buffer.old buffer.new result }
{
    let end = fill_bytes(buffer, 0, b"view 1\n");
    fill_numbers_line(buffer, end, b"net ", stations, words)
}

/// Puts one line an edge.
pub(crate) fn put_edges<K: Sink>(edges: &[(u16, u16)], out: &mut K) -> Result<(), Failed>
    ensures { Puts (flat_map (λ e. edge_line e.0 e.1) edges.now)
        (K.state out.old) (K.state out.new) result }
{
    let mut rest = edges;
    while !rest.is_empty() {
        let (front, after) = rest.split_at(rest.len().min(LINES_AT_ONCE));
        put_some_edges(front, out)?;
        rest = after;
    }
    Ok(())
}

/// Puts some edges as one piece.
fn put_some_edges<K: Sink>(edges: &[(u16, u16)], out: &mut K) -> Result<(), Failed>
    requires { length edges.now ≤ LINES_AT_ONCE }
    ensures { Puts (flat_map (λ e. edge_line e.0 e.1) edges.now)
        (K.state out.old) (K.state out.new) result }
{
    let mut buffer = [0u8; LINES_AT_ONCE * LINE_BYTES];
    let end = fill_edges(&mut buffer, edges);
    out.put(&buffer[..end])
}

/// Puts one line a member, as one piece.
pub(crate) fn put_members<K: Sink>(
    coalition: &Coalition,
    stations: u16,
    out: &mut K,
) -> Result<(), Failed>
    requires { stations ≤ 256 }
    ensures { Puts (flat_map (λ i. line (codes "member " ++ decimal i))
        (filter (is_among coalition.now) (range_with_len 0 stations)))
        (K.state out.old) (K.state out.new) result }
{
    let mut buffer = [0u8; LINES_AT_ONCE * LINE_BYTES];
    let end = fill_members(&mut buffer, coalition, stations);
    out.put(&buffer[..end])
}
