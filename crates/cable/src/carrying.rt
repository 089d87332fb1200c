//! Bytes are drawn at one end, and cross.

ghost use Rattle.std.specs.Prelude.{◌≡◌, ◌≤◌, ◌<◌, ◌^◌, true, false, length, IfOk, OnOk};
ghost use Rattle.session_model.specs.Life.{is_live, live};
ghost use Rattle.session_model.specs.Frames.{queued};
ghost use Rattle.cable.specs.Played.{at_most};
ghost use Rattle.cable.specs.Hearing.{Carried, Filled, IsStale, Offered};

use crate::bringing::{CALLER, wanted};
use rs_chunk::Reader;
use rs_wire::{Blob, OutOfMemory};
use session_core::Session;
use tape::Tape;

/// How much a carrying line carries.
#[derive(Clone, Copy)]
pub(crate) enum Most {
    /// At most so many bytes.
    Bytes(u32),
    /// All that is queued.
    All,
}

fn lesser(most: Most, queued: u64) -> u64
    ensures { result ≡ at_most most queued }
{
    match most {
        Most::Bytes(count) => u64::from(count).min(queued),
        Most::All => queued,
    }
}

// Fills the buffer, where at least as many bytes are queued.
fn fill<T: Tape>(end: &mut Session<T>, conn: u64, buffer: &mut [u8]) -> Result<(), OutOfMemory>
    requires some { 0 < length buffer.old }
    requires few { length buffer.old < 2 ^ 32 }
    ensures end { end.new ≡ record end.old { entries = end.new.entries; spare = end.new.spare } }
    ensures filled { is_live (live end.old.entries) conn ≡ true →
        length buffer.old ≤ queued end.old.settings end.old.entries →
        OnOk result (Filled conn end.old end.new (length buffer.old) buffer.new) }
{
    wanted(&end.draw(CALLER, conn, buffer))
}

// Draws in vain, where the connection is not live.
fn stale<T: Tape>(end: &mut Session<T>, conn: u64, buffer: &mut [u8]) -> Result<(), OutOfMemory>
    requires some { 0 < length buffer.old }
    requires few { length buffer.old < 2 ^ 32 }
    ensures end { end.new ≡ record end.old { entries = end.new.entries; spare = end.new.spare } }
    ensures stale { is_live (live end.old.entries) conn ≡ false →
        OnOk result (IsStale conn end.old end.new (length buffer.old)) }
{
    wanted(&end.draw(CALLER, conn, buffer))
}

/// Draws at an end, and lets what it gives cross: whether it gave something.
pub(crate) fn carry<T: Tape>(
    end: &mut Session<T>,
    conn: u64,
    most: Most,
    buffer: &mut [u8],
    rest: &mut Reader,
) -> Result<bool, OutOfMemory>
    requires some { 0 < length buffer.old }
    requires few { length buffer.old < 2 ^ 32 }
    requires number { 0 < conn }
    ensures end { end.new ≡ record end.old { entries = end.new.entries; spare = end.new.spare } }
    ensures carried { IfOk result (Carried conn most end.old end.new rest.old rest.new) }
{
    if end.live() != conn {
        stale(end, conn, &mut buffer[..1])?;
        return Ok(false);
    }
    let total = lesser(most, end.queued());
    let mut left = total;
    while left > 0 {
        let count = (buffer.len() as u64).min(left);
        fill(end, conn, &mut buffer[..count as usize])?;
        rest.feed(&buffer[..count as usize])?;
        left -= count;
    }
    Ok(total > 0)
}

/// The bytes that refuse a connection: one frame after its length, or none.
#[derive(Drop)]
pub(crate) struct Left {
    pub bytes: Blob,
    /// How many of them crossed.
    pub crossed: usize,
}

/// Lets what is left of a refusal cross: whether there was something.
pub(crate) fn offer(left: &mut Left, most: Most, rest: &mut Reader) -> Result<bool, OutOfMemory>
    requires within { left.old.crossed ≤ length left.old.bytes }
    ensures offered { IfOk result (Offered most left.old left.new rest.old rest.new) }
{
    let count = lesser(most, (left.bytes.len() - left.crossed) as u64) as usize;
    let end = left.crossed + count;
    rest.feed(&left.bytes.as_slice()[left.crossed..end])?;
    left.crossed = end;
    Ok(count > 0)
}
