//! From lines to bytes.

ghost use Rattle.std.specs.Prelude.{◌≡◌, IfErr, IfOk, OnErr, OnOk, length, take};
ghost use Rattle.frame_text.specs.Lines.{line_of};
ghost use Rattle.capture.specs.Text.{IsFaultOfLine, IsFrame, IsLineFault, WroteFrame, WroteFrames, line_fault};
ghost use Rattle.capture.specs.declared.back.LineFault.TheVariants as faults;

use crate::MOST_CAPTURE;
use frame_text::{TextFault, read_line};
use plain_text::cut_line;
use rs_chunk::frame_bytes;
use rs_frame::Frame;
use rs_wire::OutOfMemory;
use std::alloc::Global;
use thiserror::Error;

/// Why the lines of a capture were not read to their end.
#[derive(Clone, Copy, Debug, PartialEq, Eq, Error)]
pub enum LineFault {
    /// The number, from 1, of the first line that is the line of no frame, or that passes
    /// 67,108,864 bytes.
    #[error("line {0} is the line of no frame")]
    Line(u32),
    /// There was not enough memory.
    #[error("out of memory")]
    OutOfMemory,
}

impl From<OutOfMemory> for LineFault {
    ghost from_gives = { λ _ e. e ≡ faults.OutOfMemory };

    fn from(_error: OutOfMemory) -> LineFault {
        LineFault::OutOfMemory
    }
}

/// Appends the canonical bytes of the frame of each line, each after its length of 3 bytes (RSocket
/// 1.0, "Framing Protocol Usage"). The last line may lack its line feed, and no line is empty. On a
/// fault nothing is appended.
pub fn from_lines(alloc: Global, text: &[u8], out: &mut Vec<u8>) -> Result<(), LineFault>
    ensures whole { OnOk result (WroteFrames text.now out.old.items out.new.items) }
    ensures line { IfErr result (IsLineFault text.now) }
    ensures err { OnErr result (out.new.items ≡ out.old.items) }
{
    let start = out.len();
    let done = write_lines(alloc, text, out);
    if done.is_err() {
        out.truncate(start);
    }
    done
}

// Appends the frames of all lines. On a fault those of the lines before it stay.
fn write_lines(alloc: Global, text: &[u8], out: &mut Vec<u8>) -> Result<(), LineFault>
    ensures whole { OnOk result (WroteFrames text.now out.old.items out.new.items) }
    ensures line { IfErr result (IsLineFault text.now) }
    ensures kept { take (length out.old.items) out.new.items ≡ out.old.items }
{
    let mut number = 1;
    let mut rest = text.split_at(text.len().min(MOST_CAPTURE)).0;
    while let Some((line, after)) = cut_line(rest) {
        write_frame(alloc, line, number, out)?;
        number += 1;
        rest = after;
    }
    if text.len() > MOST_CAPTURE {
        return Err(LineFault::Line(number));
    }
    if rest.is_empty() {
        return Ok(());
    }
    write_frame(alloc, rest, number, out)
}

// Appends the frame of the line of this number.
fn write_frame(alloc: Global, line: &[u8], number: u32, out: &mut Vec<u8>) -> Result<(), LineFault>
    ensures ok { OnOk result (WroteFrame line.now out.old.items out.new.items) }
    ensures fault { IfErr result (IsFaultOfLine line.now number) }
    ensures err { OnErr result (out.new.items ≡ out.old.items) }
{
    let frame = frame_of(alloc, line, number)?;
    frame_bytes(&frame, out)?;
    Ok(())
}

// The frame of the line of this number.
fn frame_of(alloc: Global, line: &[u8], number: u32) -> Result<Frame, LineFault>
    ensures found { IfOk result (λ f. (line.now ≡ line_of f) × IsFrame f) }
    ensures fault { IfErr result (IsFaultOfLine line.now number) }
{
    match read_line(alloc, line) {
        Ok(frame) => Ok(frame),
        Err(fault) => Err(line_fault(fault, number)),
    }
}

// The fault of the line of this number, where it was not read.
fn line_fault(fault: TextFault, number: u32) -> LineFault
    ensures { result ≡ line_fault fault number }
{
    match fault {
        TextFault::OutOfMemory => LineFault::OutOfMemory,
        _ => LineFault::Line(number),
    }
}
