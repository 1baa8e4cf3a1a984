//! A sink over a writer of std.

ghost use Rattle.std.specs.Prelude.{◌≡◌, ◌&&◌, OnOk, is_ok};
ghost use Rattle.std.specs.Io.KnownBytes.{Appends};
ghost use Rattle.dc_edge.specs.Sink.{Puts};
ghost use Rattle.dc_edge.specs.Untold.{untold_sink};

use crate::fault::Failed;
use crate::sink::Sink;
use std::io;
use std::io::Write;

/// A sink over a writer of std, as `StdSink::new(rt.stdout())` for standard output and
/// `StdSink::new(rt.stderr())` for standard error. Contracts know its count of faults alone.
#[derive(Drop)]
pub struct StdSink<W: Write> {
    writer: W,
    fault_count: u64,
}

impl<W: Write> StdSink<W> {
    pub fn new(writer: W) -> StdSink<W>
        ensures { result ≡ record { writer = writer; fault_count = 0 } }
    {
        StdSink {
            writer,
            fault_count: 0,
        }
    }
}

impl<W: Write> Sink for StdSink<W> {
    ghost state = { λ s. untold_sink s.fault_count };

    /// Where it is known what the writer holds, Ok has appended all bytes to that. A flush that fails is `Failed`.
    fn put(&mut self, bytes: &[u8]) -> Result<(), Failed>
        ensures puts { Puts bytes.now (untold_sink self.old.fault_count) (untold_sink self.new.fault_count) result }
        ensures handed { OnOk result (Appends (W.contents self.old.writer) (W.contents self.new.writer) bytes.now) }
    {
        if bytes.is_empty() {
            return Ok(());
        }
        match write_whole(&mut self.writer, bytes) {
            Ok(()) => Ok(()),
            Err(_) => {
                self.fault_count = self.fault_count.saturating_add(1);
                Err(Failed)
            }
        }
    }
}

// Writes until all bytes are taken, then flushes. A write that takes none is an error.
fn write_whole<W: Write>(writer: &mut W, bytes: &[u8]) -> io::Result<()>
    ensures { OnOk result (Appends (W.contents writer.old) (W.contents writer.new) bytes.now) }
{
    let written = writer.write_all(bytes);
    let flushed = writer.flush();
    both(written, flushed)
}

// Both ended well, or the first error.
fn both(first: io::Result<()>, second: io::Result<()>) -> io::Result<()>
    ensures { is_ok result ≡ is_ok first && is_ok second }
{
    first?;
    second
}
