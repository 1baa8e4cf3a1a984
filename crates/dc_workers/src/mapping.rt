//! The words of pieces, in order.

ghost use Rattle.std.specs.Prelude.{◌≡◌, ◌<◌, ◌≤◌, ◌/◌, ◌%◌, ◌*◌, ◌+◌, ◌^◌, ℕ, List, length, map, min, vec_len, IfOk};
ghost use Rattle.dc_workers.specs.Chunks.{AreChunks};

use crate::piece::Piece;
use dc_edge::Gate;
use dc_field::{NoMemory, Word, Words};
use std::alloc::Global;
use std::thread;
use std::thread::Threads;

/// The words of the pieces in order, computed on several threads, for 1 to 64 workers. The list is
/// cut into chunks of `ceil(len / workers)` pieces, and each chunk is computed by one call. Before
/// piece `i` comes `gate.pass(i)`. With one worker all is computed in place, and no thread starts.
pub fn map_words<R: Threads + Sync, P: Piece + Sync, G: Gate + Sync>(
    rt: &R,
    alloc: Global,
    pieces: &[P],
    workers: u32,
    gate: &G,
) -> Result<Words, NoMemory>
    requires some { 1 ≤ workers }
    requires most { workers ≤ 64 }
    ensures { IfOk result (λ ws. ws ≡ map P.of pieces.now) }
{
    if pieces.is_empty() || workers == 1 {
        return chunk_words(alloc, 0, pieces, gate);
    }
    let size = pieces.len().div_ceil(workers as usize);
    let parts = words_of_chunks(rt, alloc, pieces, size, gate)?;
    joined(alloc, &parts)
}

/// The words of each chunk of so many pieces, each chunk computed by one call.
fn words_of_chunks<R: Threads + Sync, P: Piece + Sync, G: Gate + Sync>(
    rt: &R,
    alloc: Global,
    pieces: &[P],
    size: usize,
    gate: &G,
) -> Result<Vec<Result<Words, NoMemory>>, NoMemory>
    requires { 0 < size }
    ensures len { IfOk result (λ v. vec_len v ≡ length pieces.now / size + min 1 (length pieces.now % size)) }
    ensures each { IfOk result (λ v. AreChunks (map P.of pieces.now) size v.items) }
{
    let parts = thread::map_chunks(
        rt,
        alloc,
        pieces,
        size,
        &|start: usize, chunk: &[P]| -> Result<Words, NoMemory>
            requires { start + length chunk.now < 2 ^ 64 }
            ensures { IfOk result (λ ws. ws ≡ map P.of chunk.now) }
        { chunk_words(alloc, start, chunk, gate) },
    )?;
    Ok(parts)
}

/// The words of the pieces of a chunk. The first of them has the number `start`.
fn chunk_words<P: Piece, G: Gate>(
    alloc: Global,
    start: usize,
    chunk: &[P],
    gate: &G,
) -> Result<Words, NoMemory>
    requires { start + length chunk.now < 2 ^ 64 }
    ensures { IfOk result (λ ws. ws ≡ map P.of chunk.now) }
{
    let mut words = Vec::with_capacity(alloc, chunk.len())?;
    let mut number = start;
    for piece in chunk {
        gate.pass(number);
        words.push_reserved(piece.word());
        number += 1;
    }
    Ok(Words::from_vec(words))
}

/// The words of all parts, in order, where no part is an error.
fn joined(alloc: Global, parts: &[Result<Words, NoMemory>]) -> Result<Words, NoMemory>
    ensures { (xs : List (List ℕ)) (size : ℕ) → AreChunks xs size parts.now → length xs ≤ length parts.now * size → IfOk result (λ ws. ws ≡ xs) }
{
    let mut words = Vec::new(alloc);
    for part in parts {
        match part {
            Ok(some) => words.extend_from_slice(some.as_slice())?,
            Err(_) => return Err(NoMemory),
        }
    }
    Ok(Words::from_vec(words))
}
