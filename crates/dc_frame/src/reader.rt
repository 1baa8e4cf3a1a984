//! A reader of frames.

ghost use Rattle.std.specs.Prelude.{◌≡◌, ◌+◌, ◌≤◌, ◌<◌, ◌↔◌, ◌++◌, ℕ, List, [], length, slice_get, option_map, Ok, IfOk, IfErr, IfSome, IfNone, OnOk, OnErr, OnSome};
ghost use Rattle.std.specs.Result.{result_err};
ghost use Rattle.dc_frame.specs.Frames.{frame_of};
ghost use Rattle.dc_frame.specs.Reading.{first, reading, fault_in, missing as missing_of, needed, capped};
ghost use Rattle.dc_frame.specs.Reader.{StandsFor};

use crate::fault::FrameFault;
use crate::first::{first_frame, missing, whole_frame};
use crate::frame::Frame;
use arrayvec::ArrayVec;
use std::marker::Model;

/// Takes bytes in pieces and gives the frames that they hold, one by one. It keeps the bytes of the
/// frame in progress and takes no memory.
#[derive(Drop)]
pub struct Reader {
    /// The offset of the frame in progress in all bytes that were fed; the greatest `u64` where it is above that.
    pub start: u64,
    /// The bytes of that frame so far, at most 69.
    pub part: ArrayVec<u8, 69>,
}

impl Model for Reader {
    ghost use Rattle.dc_frame.specs.Reader.{ReaderState, IsReader};

    ghost Value = { ReaderState };

    ghost view = { λ r. record { start = r.start; part = r.part.items } };

    ghost invariant = { λ r. IsReader (record { start = r.start; part = r.part.items }) };
}

impl Reader {
    /// A reader that was fed nothing yet.
    pub fn new() -> Reader
        ensures { StandsFor result [] 0 }
    {
        Reader {
            start: 0,
            part: ArrayVec::new(),
        }
    }

    /// How many bytes may be fed next: what is still to come of the header, else of the body; 0
    /// exactly where a whole frame is there.
    pub fn need(&self) -> usize
        ensures value { result ≡ missing_of self.now.part }
        ensures needed { (bytes : List ℕ) (taken : ℕ) → StandsFor self.now bytes taken → result ≡ needed bytes taken }
        ensures whole { (bytes : List ℕ) (taken : ℕ) → StandsFor self.now bytes taken → (result ≡ 0) ↔ (taken < length (reading bytes).frames) }
    {
        missing(self.part.as_slice())
    }

    /// Takes the next bytes. They are refused where they complete a header or a body with a fault; the reader is then as it was.
    pub fn feed(&mut self, piece: &[u8]) -> Result<(), FrameFault>
        requires some { 1 ≤ length piece.now }
        requires fits { length piece.now ≤ missing_of self.old.part }
        ensures fault { (bytes : List ℕ) (taken : ℕ) → StandsFor self.old bytes taken → result_err result ≡ fault_in (bytes ++ piece.now) }
        ensures stands { OnOk result ((bytes : List ℕ) (taken : ℕ) → StandsFor self.old bytes taken → StandsFor self.new (bytes ++ piece.now) taken) }
        ensures part { OnOk result (self.new ≡ record self.old { part = self.old.part ++ piece.now }) }
        ensures kept { OnErr result (self.new ≡ self.old) }
    {
        let before = self.part.len();
        self.part.try_extend_from_slice(piece).unwrap();
        match first_frame(self.part.as_slice()) {
            Ok(_) => Ok(()),
            Err(fault) => {
                self.part.truncate(before);
                Err(FrameFault {
                    at: self.start.saturating_add(fault.at),
                    kind: fault.kind,
                })
            }
        }
    }

    /// The frame that is there, which is taken out; none where no whole frame is there.
    pub fn take(&mut self) -> Option<Frame>
        ensures value { Ok (option_map frame_of result) ≡ first self.old.part }
        ensures frame { (bytes : List ℕ) (taken : ℕ) → StandsFor self.old bytes taken → option_map frame_of result ≡ slice_get (reading bytes).frames taken }
        ensures stands { OnSome result ((bytes : List ℕ) (taken : ℕ) → StandsFor self.old bytes taken → StandsFor self.new bytes (taken + 1)) }
        ensures begins { OnSome result (self.new.part ≡ []) }
        ensures kept { IfNone result (self.new ≡ self.old) }
    {
        match whole_frame(self.part.as_slice()) {
            Some(frame) => {
                self.start = self.fed();
                self.part.clear();
                Some(frame)
            }
            None => None,
        }
    }

    /// How many bytes were fed in all; the greatest `u64` where they are more.
    pub fn fed(&self) -> u64
        ensures value { result ≡ capped (self.now.start + length self.now.part) }
        ensures fed { (bytes : List ℕ) (taken : ℕ) → StandsFor self.now bytes taken → result ≡ capped (length bytes) }
    {
        self.start.saturating_add(self.part.len() as u64)
    }
}
