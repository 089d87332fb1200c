//! From bytes to lines.

ghost use Rattle.std.specs.Prelude.{◌≡◌, ◌++◌, ◌≤◌, ◌<◌, ◌^◌, ℕ, List, [], length, OnErr, OnOk, IfOk, IfErr};
ghost use Rattle.rs_frame.specs.Rules.{IsLeastBroken};
ghost use Rattle.rs_frame.specs.Spelling.{IsSpellable, Spells};
ghost use Rattle.rs_frame.specs.declared.frame.Frame.{Frame};
ghost use Rattle.frame_text.specs.Lines.{line_of};
ghost use Rattle.plain_text.specs.Lines.{ended};
ghost use Rattle.capture.specs.Captured.{IsBadAt, IsCapture, IsWrong, WroteLines, all_lines};
ghost use Rattle.capture.specs.declared.lines.BadFrame.{BadFrame};
ghost use Rattle.capture.specs.declared.lines.CaptureFault.TheVariants as faults;

use crate::MOST_CAPTURE;
use rs_chunk::split_frame;
use rs_frame::{Frame, FrameFault, decode};
use rs_wire::OutOfMemory;
use std::alloc::Global;
use thiserror::Error;

/// What is wrong with a frame of a capture that can't be read.
#[derive(Clone, Copy, Debug, PartialEq, Eq, Error)]
pub enum BadFrame {
    /// It is whole, and this is the least rule that it breaks. It is never out of memory.
    #[error("{0}")]
    Breaks(FrameFault),
    /// The bytes end, or pass [`MOST_CAPTURE`], within it.
    #[error("the capture ends within it")]
    NotWhole,
}

/// Why a capture was not read to its end.
#[derive(Clone, Copy, Debug, PartialEq, Eq, Error)]
pub enum CaptureFault {
    /// The first frame that can't be read.
    #[error("the frame at byte {place} cannot be read: {bad}")]
    Frame {
        /// Where its length field begins, in bytes from 0.
        place: u32,
        /// What is wrong with it.
        bad: BadFrame,
    },
    /// There was not enough memory. The frames that follow were not looked at.
    #[error("out of memory")]
    OutOfMemory,
}

impl From<OutOfMemory> for CaptureFault {
    ghost from_gives = { λ _ e. e ≡ faults.OutOfMemory };

    fn from(_error: OutOfMemory) -> CaptureFault {
        CaptureFault::OutOfMemory
    }
}

/// Appends the line of each frame of the capture, each with its line feed. On
/// `CaptureFault::Frame` the lines of the frames before it are appended; on
/// `CaptureFault::OutOfMemory` nothing is.
pub fn to_lines(alloc: Global, bytes: &[u8], out: &mut Vec<u8>) -> Result<(), CaptureFault>
    ensures whole { OnOk result ((frames : List Frame) × IsCapture bytes.now frames ×
        (out.new.items ≡ out.old.items ++ all_lines frames)) }
    ensures frame { (place : ℕ) (bad : BadFrame) → result ≡ Err (faults.Frame place bad) →
        (before : List Frame) × IsBadAt bytes.now place bad before ×
        (out.new.items ≡ out.old.items ++ all_lines before) }
    ensures memory { result ≡ Err faults.OutOfMemory → out.new.items ≡ out.old.items }
{
    let start = out.len();
    let done = write_lines(alloc, &bytes[..MOST_CAPTURE.min(bytes.len())], out);
    match done {
        Ok(()) if bytes.len() > MOST_CAPTURE => Err(CaptureFault::Frame {
            place: MOST_CAPTURE as u32,
            bad: BadFrame::NotWhole,
        }),
        Err(CaptureFault::OutOfMemory) => {
            out.truncate(start);
            done
        }
        _ => done,
    }
}

// Appends the line of each frame of bytes within the limit. Where memory runs out, some lines are
// appended.
fn write_lines(alloc: Global, bytes: &[u8], out: &mut Vec<u8>) -> Result<(), CaptureFault>
    requires { length bytes.now ≤ MOST_CAPTURE }
    ensures whole { OnOk result (WroteLines bytes.now [] out.old.items out.new.items) }
    ensures frame { (place : ℕ) (bad : BadFrame) → result ≡ Err (faults.Frame place bad) →
        (before : List Frame) × IsBadAt bytes.now place bad before ×
        (out.new.items ≡ out.old.items ++ all_lines before) }
    ensures memory { OnErr result ((more : List ℕ) × (out.new.items ≡ out.old.items ++ more)) }
{
    let mut rest = bytes;
    while !rest.is_empty() {
        let place = (bytes.len() - rest.len()) as u32;
        rest = write_first(alloc, rest, place, out)?;
    }
    Ok(())
}

// Appends the line of the frame at the front, which stands at this place, and gives what follows
// it. On a fault nothing is appended.
fn write_first<'a>(
    alloc: Global,
    bytes: &'a [u8],
    place: u32,
    out: &mut Vec<u8>,
) -> Result<&'a [u8], CaptureFault>
    ensures wrote { IfOk result (λ after. (all old : List ℕ) →
        WroteLines all bytes.now old out.old.items → WroteLines all after.now old out.new.items) }
    ensures shorter { IfOk result (λ after. length after.now < length bytes.now) }
    ensures frame { (at : ℕ) (bad : BadFrame) → result ≡ Err (faults.Frame at bad) →
        (at ≡ place) × IsWrong bytes.now bad }
    ensures err { OnErr result (out.new.items ≡ out.old.items) }
{
    let Some((frame, after)) = split_frame(bytes) else {
        let bad = BadFrame::NotWhole;
        return Err(CaptureFault::Frame { place, bad });
    };
    match write_line(alloc, frame, out) {
        Ok(()) => Ok(after),
        Err(FrameFault::OutOfMemory) => Err(CaptureFault::OutOfMemory),
        Err(fault) => {
            let bad = BadFrame::Breaks(fault);
            Err(CaptureFault::Frame { place, bad })
        }
    }
}

// Appends the line of the frame that the bytes spell. On a fault nothing is appended.
fn write_line(alloc: Global, bytes: &[u8], out: &mut Vec<u8>) -> Result<(), FrameFault>
    requires { length bytes.now < 2 ^ 24 }
    ensures ok { OnOk result ((f : Frame) × Spells f bytes.now ×
        (out.new.items ≡ out.old.items ++ ended (line_of f))) }
    ensures rule { IfErr result (λ fault. IsLeastBroken fault bytes.now) }
    ensures err { OnErr result (out.new.items ≡ out.old.items) }
{
    let frame = decode(alloc, bytes)?;
    match write_ended(&frame, out) {
        Ok(()) => Ok(()),
        Err(OutOfMemory) => Err(FrameFault::OutOfMemory),
    }
}

// Appends the line of the frame and a line feed, or nothing.
fn write_ended(frame: &Frame, out: &mut Vec<u8>) -> Result<(), OutOfMemory>
    requires { IsSpellable frame.now }
    ensures ok { OnOk result (out.new.items ≡ out.old.items ++ ended (line_of frame.now)) }
    ensures err { OnErr result (out.new.items ≡ out.old.items) }
{
    let start = out.len();
    frame_text::line_of(frame, out)?;
    if out.push(b'\n').is_err() {
        out.truncate(start);
        return Err(OutOfMemory);
    }
    Ok(())
}
