//! Joining the fragments that came.

ghost use Rattle.std.specs.Prelude.{◌≡◌, ◌≢◌, ◌<◌, ◌≤◌, ◌^◌, false, List, ◌∷◌, Err, IfOk, OnOk, OnErr, IfErr};
ghost use Rattle.rs_frame.specs.declared.frame.Frame.{Frame};
ghost use Rattle.rs_wire.specs.Message.{size_of};
ghost use Rattle.fragment.specs.Joining.{nothing, empty_glue, grown, glued_of, left_held, answers, IsGlueFaultOf, IsPushOf};

use crate::gathering::Gathering;
use rs_wire::{Message, OutOfMemory};
use std::alloc::Global;
use std::marker::Model;
use thiserror::Error;

/// What a push gives.
#[derive(Debug, Drop, PartialEq, Eq)]
pub enum Glued {
    /// More fragments of the message follow.
    Part,
    /// The message is whole. Its metadata is present where a fragment had M.
    Whole {
        /// The metadata and the content of all fragments, joined.
        message: Message,
        /// Whether a fragment had C.
        complete: bool,
        /// Whether a fragment had N.
        next: bool,
    },
}

/// Why a push is refused. The glue then holds what it held before.
#[derive(Clone, Copy, Debug, PartialEq, Eq, Error)]
pub enum GlueFault {
    /// The message would have this many bytes of metadata and content, more than the glue takes.
    #[error("the joined message would have {0} bytes, more than is taken")]
    TooLarge(u64),
    /// There was not enough memory.
    #[error("out of memory")]
    OutOfMemory,
}

impl From<OutOfMemory> for GlueFault {
    ghost use Rattle.std.specs.Prelude.{◌≡◌};
    ghost use Rattle.fragment.specs.declared.glue.GlueFault.TheVariants as faults;

    ghost from_gives = { λ _ fault. fault ≡ faults.OutOfMemory };

    fn from(_error: OutOfMemory) -> GlueFault {
        GlueFault::OutOfMemory
    }
}

/// The fragments of a message that came so far, joined: for one direction of one stream (RSocket
/// 1.0, "Fragmentation and Reassembly"). Contracts see what it holds, and the most bytes of
/// metadata and content that a message may have.
#[derive(Debug, Drop)]
pub struct Glue {
    max_payload: u32,
    gathering: Gathering,
}

impl Model for Glue {
    ghost use Rattle.std.specs.Prelude.{◌≤◌};
    ghost use Rattle.rs_wire.specs.Message.{size_of};
    ghost use Rattle.fragment.specs.Joining.{Holding};

    ghost Value = { Holding };

    ghost view = { λ g. record { max_payload = g.max_payload; held = g.gathering.held } };

    ghost invariant = { λ g. size_of g.gathering.held.message ≤ g.max_payload };
}

impl Glue {
    /// An empty glue, for messages of at most `max_payload` bytes of metadata and content.
    pub fn new(alloc: Global, max_payload: u32) -> Glue
        ensures { result ≡ empty_glue max_payload }
    {
        Glue {
            max_payload,
            gathering: Gathering::new(alloc),
        }
    }

    /// How many bytes of metadata and content it holds, at most `max_payload`.
    pub fn size(&self) -> u64
        ensures value { result ≡ size_of self.now.held.message }
        ensures bound { result ≤ self.now.max_payload }
    {
        self.gathering.size()
    }

    // Takes a part in that does not pass the limit.
    fn append(&mut self, message: &Message, complete: bool, next: bool) -> Result<(), OutOfMemory>
        requires { let sum = grown self.old message.now complete next in
            size_of sum.message ≤ self.old.max_payload }
        ensures grown { OnOk result (self.new.held ≡ grown self.old message.now complete next) }
        ensures limit { self.new.max_payload ≡ self.old.max_payload }
        ensures kept { OnErr result (self.new ≡ self.old) }
    {
        self.gathering.reserve(message)?;
        self.gathering.push(message, complete, next);
        Ok(())
    }

    // Gives what it holds, and is empty then.
    fn give(&mut self) -> Glued
        ensures whole { result ≡ glued_of false self.old.held }
        ensures empty { self.new.held ≡ nothing }
        ensures limit { self.new.max_payload ≡ self.old.max_payload }
    {
        self.gathering.take().into_whole()
    }

    /// Takes in the next fragment: whether it has F, what it carries, and whether it has C and N,
    /// each as it came, since every choice of M, C and N is taken. Where none follows it gives the
    /// whole message, and is empty then. A fragment's metadata and content are below 2^63 bytes.
    /// Over all pushes it costs what the fragments carry.
    ///
    /// `TooLarge` says how many bytes of metadata and content the message would have then, and
    /// comes exactly where that is above `max_payload`. After a refusal the glue is as before.
    pub fn push(
        &mut self,
        follows: bool,
        message: &Message,
        complete: bool,
        next: bool,
    ) -> Result<Glued, GlueFault>
        requires { size_of message.now < 2 ^ 63 }
        // Part where more follows, else all that was joined.
        ensures glued { IfOk result
            (λ glued. glued ≡ glued_of follows (grown self.old message.now complete next)) }
        // What is held then: nothing after the whole.
        ensures held { OnOk result
            (self.new.held ≡ left_held follows (grown self.old message.now complete next)) }
        // It is taken only where it fits, and the fault says where it does not.
        ensures fits { OnOk result
            (size_of (grown self.old message.now complete next).message ≤ self.old.max_payload) }
        ensures fault { IfErr result (λ fault.
            let size = size_of (grown self.old message.now complete next).message in
            IsGlueFaultOf fault size self.old.max_payload) }
        // It gives the first of the answers to frames that this part begins, and leaves the others.
        ensures in_turn { (f : Frame) (fs : List Frame) →
            IsPushOf f follows message.now complete next → result ≢ Err GlueFault.OutOfMemory →
            answers self.old (f ∷ fs) ≡ result ∷ answers self.new fs }
        ensures limit { self.new.max_payload ≡ self.old.max_payload }
        ensures kept { OnErr result (self.new ≡ self.old) }
    {
        let size = self.size() + message.size();
        if size > u64::from(self.max_payload) {
            return Err(GlueFault::TooLarge(size));
        }
        self.append(message, complete, next)?;
        if follows {
            return Ok(Glued::Part);
        }
        Ok(self.give())
    }
}
