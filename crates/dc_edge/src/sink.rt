//! A sink: bytes are appended to it.

ghost use Rattle.dc_spec.specs.Outside.{SinkState};
ghost use Rattle.dc_edge.specs.Sink.{Puts};

use crate::fault::Failed;

/// Something that takes bytes, one piece after the other.
pub trait Sink {
    /// What was written so far, and the count of faults.
    ghost state: { Self → SinkState };

    /// Appends all bytes, or fails and appends a front of them. An empty piece changes nothing.
    fn put(&mut self, bytes: &[u8]) -> Result<(), Failed>
        ensures { Puts bytes.now (state self.old) (state self.new) result };
}
