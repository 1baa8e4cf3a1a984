//! A file that is replaced as a whole, by a file that is written beside it.

ghost use Rattle.std.specs.Prelude.{◌≡◌};
ghost use Rattle.std.specs.IoError.{error_kind};
ghost use Rattle.dc_edge.specs.Opened.{write_fault_of_kind};

use crate::fault::WriteFault;
use std::alloc::Global;
use std::fs::{File, Metadata, OpenFile};
use std::io::{ErrorKind, Write};
use std::path::{Path, PathBuf};
use std::rt::Files;
use std::{fs, io};

/// How many names of a file beside it are tried. A name is in use where a writer was stopped before its end, or writes now.
const NAMES_TRIED: u32 = 100;

/// Puts a file of these bytes in the place of the path's file, or of no file.
///
/// The bytes are written to a new file in the same folder, which then gets the path's name. Where anything fails, that
/// file is removed and the path's file stays. A path of a folder or a device is `Failed`.
pub(crate) fn replace_file<R: Files>(
    files: &R,
    alloc: Global,
    path: &str,
    bytes: &[u8],
) -> Result<(), WriteFault> {
    let former = former_file(files, path)?;
    let (file, beside) = new_file(files, alloc, path)?;
    let written = fill(file, former, bytes);
    let placed = written.and_then(|()| fs::rename(files, beside.as_path(), path));
    if placed.is_err() {
        let _ = fs::remove_file(files, beside.as_path());
    }
    placed.map_err(write_fault_of)
}

// What the system says of the file that the path has, where it has one. It has to be a file of bytes.
fn former_file<R: Files>(files: &R, path: &str) -> Result<Option<Metadata>, WriteFault> {
    match fs::metadata(files, path) {
        Ok(former) if former.is_file() => Ok(Some(former)),
        Ok(_) => Err(WriteFault::Failed),
        Err(error) if error.kind() == ErrorKind::NotFound => Ok(None),
        Err(error) => Err(write_fault_of(error)),
    }
}

// A new file in the folder of the path, under a name that no file had.
fn new_file<R: Files>(
    files: &R,
    alloc: Global,
    path: &str,
) -> Result<(R::File, PathBuf), WriteFault> {
    for number in 0..NAMES_TRIED {
        let name = format!(in alloc; ".dcnet-{number}.part")?;
        let beside = Path::new(path).with_file_name(alloc, name.as_str())?;
        match File::create_new(files, beside.as_path()) {
            Ok(file) => return Ok((file, beside)),
            Err(error) if error.kind() == ErrorKind::AlreadyExists => {}
            Err(error) => return Err(write_fault_of(error)),
        }
    }
    Err(WriteFault::Failed)
}

// Writes the bytes so that the system has stored them. Who may read the former file may read this one, and no one else.
fn fill<F: OpenFile + Write + Drop>(
    mut file: F,
    former: Option<Metadata>,
    bytes: &[u8],
) -> io::Result<()> {
    if let Some(former) = former {
        file.set_permissions(former.permissions())?;
    }
    file.write_all(bytes)?;
    file.sync_all()
}

// The fault that an error of a write is.
fn write_fault_of(error: io::Error) -> WriteFault
    ensures { result ≡ write_fault_of_kind (error_kind error) }
{
    match error.kind() {
        ErrorKind::OutOfMemory => WriteFault::NoMemory,
        _ => WriteFault::Failed,
    }
}
