//! Keeping the frames made, for a resumption (RSocket 1.0, "Resuming Operation").

ghost use Rattle.std.specs.Prelude.{◌≡◌, ◌+◌, ◌<◌, ◌≤◌, ◌^◌, ℕ, IfOk, IfSome, List, OnErr, length, map};
ghost use Rattle.std.specs.List.{AllByRecursion};
ghost use Rattle.rs_frame.specs.declared.frame.Frame.{Frame as Sent};
ghost use Rattle.rs_frame.specs.Spelling.{IsSpellable, canonical};
ghost use Rattle.position.specs.Boundaries.{pos_by};
ghost use Rattle.replay_buffer.specs.Held.{end_of};
ghost use Rattle.outbox.specs.Waiting.{with_spare};
ghost use Rattle.session_model.specs.Frames.{if_agreed};
ghost use Rattle.session_core.specs.Kept.{FindsSpare, HasFrameLength, HoldsMore, KeepsAll};

use outbox::Outbox;
use rs_frame::{Frame, encode};
use rs_wire::{Blob, OutOfMemory};
use std::alloc::Global;

// The canonical bytes of a frame.
fn spell(alloc: Global, frame: &Frame) -> Result<Blob, OutOfMemory>
    requires { IsSpellable frame.now }
    ensures { IfOk result (λ b. b ≡ canonical frame.now) }
{
    let mut bytes = Vec::new(alloc);
    encode(frame, &mut bytes)?;
    Ok(Blob::from_vec(bytes))
}

// The canonical bytes of each frame.
fn spell_all(alloc: Global, frames: &[Frame]) -> Result<Vec<Blob>, OutOfMemory>
    requires { AllByRecursion IsSpellable frames.now }
    ensures { IfOk result (λ v. v.items ≡ map canonical frames.now) }
{
    let mut spelled = Vec::new(alloc);
    for frame in frames {
        spelled.push(spell(alloc, frame)?)?;
    }
    Ok(spelled)
}

// How many bytes these frames have in sum.
fn size_of(frames: &[Blob]) -> Option<usize>
    ensures { IfSome result (λ n. n ≡ pos_by length frames.now) }
{
    let mut size: usize = 0;
    for frame in frames {
        size = size.checked_add(frame.len())?;
    }
    Some(size)
}

/// The bytes of each frame that is to be kept: of none, where resumption isn't agreed. Memory is
/// reserved for them.
#[tactic(auto, using(crate::proofs::Keeping::spelled_long))]
pub fn make_ready(
    alloc: Global,
    outbox: &mut Outbox,
    agreed: bool,
    made: &[Frame],
) -> Result<Vec<Blob>, OutOfMemory>
    requires { AllByRecursion IsSpellable made.now }
    ensures spelled { IfOk result (λ v. v.items ≡ map canonical (if_agreed agreed made.now)) }
    ensures long { IfOk result (λ v. AllByRecursion HasFrameLength v.items) }
    ensures spare { IfOk result (λ v. FindsSpare outbox.new.room.spare v.items) }
    ensures same { outbox.new ≡ with_spare outbox.old outbox.new.room.spare }
    ensures err { OnErr result (outbox.new ≡ outbox.old) }
{
    if !agreed {
        return Ok(Vec::new(alloc));
    }
    let spelled = spell_all(alloc, made)?;
    let size = size_of(&spelled).ok_or(OutOfMemory)?;
    outbox.reserve(spelled.len(), size)?;
    Ok(spelled)
}

// Keeps each frame.
fn keep_all(outbox: &mut Outbox, frames: &[Blob])
    requires spare { FindsSpare outbox.old.room.spare frames.now }
    requires long { AllByRecursion HasFrameLength frames.now }
    requires top { end_of outbox.old.held + pos_by length frames.now < 2 ^ 63 }
    ensures kept { KeepsAll outbox.old.held frames.now outbox.new.held }
    ensures hold { outbox.new.held.hold ≡ outbox.old.held.hold }
    ensures queue { outbox.new.queue ≡ outbox.old.queue }
{
    for frame in frames {
        outbox.keep(frame.as_slice());
    }
}

/// Keeps these frames, for which memory was reserved, and forgets those that end at or before the
/// position, since the peer has handled them.
pub fn keep(outbox: &mut Outbox, frames: &[Blob], position: u64)
    requires spare { FindsSpare outbox.old.room.spare frames.now }
    requires long { AllByRecursion HasFrameLength frames.now }
    requires top { end_of outbox.old.held + pos_by length frames.now < 2 ^ 63 }
    ensures held { (more : List Sent) → frames.now ≡ map canonical more →
        HoldsMore outbox.old.held more position outbox.new.held }
    ensures hold { outbox.new.held.hold ≡ outbox.old.held.hold }
    ensures queue { outbox.new.queue ≡ outbox.old.queue }
{
    keep_all(outbox, frames);
    outbox.release(position);
}
