//! The bytes that came, and the frame at their front.

ghost use Rattle.std.specs.Prelude.{◌≡◌, ◌++◌, [], ◌∷◌, ℕ, List, OnOk, OnErr};
ghost use Rattle.rs_frame.specs.Framed.{framed};
ghost use Rattle.rs_chunk.specs.Stream.{IsCut, IsFront, IsFrontView, IsWhole, Reads, after_frame, first_frame};

use crate::front::{Front, FrontView, front_of, front_view_of, split_frame};
use byte_queue::ByteQueue;
use rs_wire::OutOfMemory;
use std::alloc::Global;
use std::marker::Model;

/// The bytes that came and were not passed, and how long a frame may be. Contracts see these two:
/// `bytes` and `max_in`.
#[derive(Drop)]
pub struct Reader {
    /// The bytes that came and were not passed.
    bytes: ByteQueue,
    /// The most bytes of a frame.
    max_in: u32,
}

impl Model for Reader {
    ghost use Rattle.rs_chunk.specs.Rest.{Rest};

    ghost Value = { Rest };

    ghost view = { λ r. record { bytes = r.bytes.bytes; max_in = r.max_in } };
}

impl Reader {
    /// A reader to which no byte came, of frames of at most `max_in` bytes.
    pub fn new(alloc: Global, max_in: u32) -> Reader
        ensures { result ≡ record { bytes = []; max_in = max_in } }
    {
        Reader {
            bytes: ByteQueue::new(alloc),
            max_in,
        }
    }

    /// Appends a piece of the stream, of any size.
    pub fn feed(&mut self, piece: &[u8]) -> Result<(), OutOfMemory>
        ensures ok { OnOk result (self.new ≡
            record self.old { bytes = self.old.bytes ++ piece.now }) }
        ensures err { OnErr result (self.new ≡ self.old) }

        // What was fed is still the frames passed and the bytes left.
        ensures fed { OnOk result ((fed : List ℕ) (passed : List (List ℕ)) →
            IsCut fed passed self.old.bytes → IsCut (fed ++ piece.now) passed self.new.bytes) }
    {
        self.bytes.append(piece)
    }

    /// What the bytes left begin with.
    pub fn front(&self) -> Front<'_>
        ensures front { IsFront self.now.bytes self.now.max_in result }

        // Where it is Part, every whole frame that was fed was passed.
        ensures all_read { result ≡ Front.Part → (fed : List ℕ) (passed : List (List ℕ)) →
            IsCut fed passed self.now.bytes → Reads fed passed self.now.bytes }
    {
        front_of(self.bytes.as_slice(), self.max_in)
    }

    /// What the bytes left begin with, with the frame read as it lies in them. It takes no memory.
    pub fn front_view(&self) -> FrontView<'_>
        ensures { IsFrontView self.now.bytes self.now.max_in result }
    {
        front_view_of(self.bytes.as_slice(), self.max_in)
    }

    /// Drops the frame at the front, which is whole and within the limit: [`Reader::front`] is the
    /// test. All calls together move at most as many bytes as they pass.
    pub fn pass(&mut self)
        requires { IsWhole self.old.bytes self.old.max_in }
        ensures rest { self.new ≡ record self.old { bytes = after_frame self.old.bytes } }
        ensures passed { self.old.bytes ≡ framed (first_frame self.old.bytes) ++ self.new.bytes }

        // What was fed is the frames passed, with this one, and the bytes left.
        ensures fed { (fed : List ℕ) (passed : List (List ℕ)) →
            IsCut fed passed self.old.bytes →
            IsCut fed (passed ++ first_frame self.old.bytes ∷ []) self.new.bytes }
    {
        if let Some((frame, _)) = split_frame(self.bytes.as_slice()) {
            let passed = 3 + frame.len();
            self.bytes.drop_front(passed);
        }
    }
}
