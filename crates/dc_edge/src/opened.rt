//! What a reader has left.

ghost use Rattle.std.specs.Prelude.{◌≡◌, ◌≤◌, IfOk, IfSome, length};
ghost use Rattle.std.specs.IoError.{error_kind};
ghost use Rattle.dc_edge.specs.Opened.{GivesRest, fault_of_kind};

use crate::fault::ShelfFault;
use dc_field::Bytes;
use std::alloc::Global;
use std::io;
use std::io::{ErrorKind, Read};

/// All bytes that a reader has left, at most `limit` of them.
///
/// Room for `room` bytes is taken first. One byte more than the reader has left is enough room to meet its end without
/// growing. `TooLong` where more than `limit` bytes are left; a read that fails is `Failed`, or `NoMemory`.
pub fn read_rest<S: Read + Drop>(
    reader: S,
    alloc: Global,
    room: usize,
    limit: u64,
) -> Result<Bytes, ShelfFault>
    ensures limit { IfOk result (λ bytes. length bytes ≤ limit) }
    ensures rest { IfSome (S.remaining reader) (λ left. GivesRest left limit result) }
{
    let mut bytes = Vec::with_capacity(alloc, room)?;
    let mut front = reader.take(limit.saturating_add(1));
    if let Err(error) = front.read_to_end(&mut bytes) {
        return Err(fault_of(&error));
    }
    if bytes.len() as u64 > limit {
        return Err(ShelfFault::TooLong);
    }
    Ok(Bytes::from_vec(bytes))
}

/// The fault that an error of an opened file is.
pub(crate) fn fault_of(error: &io::Error) -> ShelfFault
    ensures { result ≡ fault_of_kind (error_kind error.now) }
{
    match error.kind() {
        ErrorKind::OutOfMemory => ShelfFault::NoMemory,
        _ => ShelfFault::Failed,
    }
}
